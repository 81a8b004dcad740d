// Cells sent one after the other into a log, as many as there are entries and room for.
//
// Whether a number is too large is asked of all entries at once; only where one is, of each cell.
ghost use Rattle.std.specs.Prelude.{◌≡◌, ◌-◌, ◌/◌, ◌%◌, ◌<◌, ◌≤◌, true, false, ◌&&◌, length, ◌==◌};
ghost use Rattle.formats.specs.Code.{is_usual};
ghost use Rattle.formats.specs.Settings.{settled_as, settings_of};
ghost use Rattle.cell_log.specs.Written.{octet_of};
ghost use Rattle.sender.specs.Many.{batch_not, SendsMany};
ghost use Rattle.sender.specs.ManyCode.{Bounds, WritesMany, stop_by};
ghost use Rattle.sender.specs.Packing.{values_refused_by};
ghost use Rattle.sender.specs.Sender.{state_refusal, second_now, after};

use crate::{Sender, after, judge, pack, usual};
use formats::{Format, Layout};

// The refusal of the call (0: none); the state to go on with, the next place, the entries taken, why it stopped, and the cells.
#[derive(Clone, Copy, Debug, PartialEq, Eq, Hash)]
pub struct Batch {
    pub refusal: u8,
    pub state: Sender,
    pub next: usize,
    pub entries: usize,
    pub stop: u8,
    pub cells: usize,
}

// How many cells were written, and the state after them.
#[derive(Clone, Copy, Debug, PartialEq, Eq, Hash)]
struct Reached {
    state: Sender,
    cells: usize,
}

fn refused(refusal: u8, state: Sender) -> Batch
    ensures { result ≡ batch_not refusal state }
{
    Batch {
        refusal,
        state,
        next: 0,
        entries: 0,
        stop: 0,
        cells: 0,
    }
}

// Whether a cell with this number has indication 1.
fn indicated(indications: bool, number: u8) -> bool
    ensures { result ≡ indications && (number % 8 == 0) }
{
    indications && number % 8 == 0
}

// How many records have room from a place on.
fn records_from(octets: usize, place: usize) -> usize
    ensures { result ≡ (octets - place) / 49 }
{
    octets.saturating_sub(place) / 49
}

fn stop_of(cells: usize, most: usize, whole: usize) -> u8
    ensures { result ≡ stop_by cells most whole }
{
    if cells < most {
        6
    } else if cells == whole {
        0
    } else {
        12
    }
}

// Check 6 of a cell, where it isn't known that no number is too large.
fn too_large(sound: bool, format: Format, samples: &[u64], ancillary: &[u8]) -> bool
    requires { (format.sample_bits ≤ 40) × (format.ancillary_bits ≤ 4) × (length ancillary.now ≡ length samples.now) × (sound ≡ true → values_refused_by format samples.now ancillary.now ≡ false) }
    ensures { result ≡ values_refused_by format samples.now ancillary.now }
{
    !sound && judge::values_refused(format, samples, ancillary)
}

// At most so many cells, written one after the other. The compiler makes a loop of its own for the usual settings.
fn row_of<const USUAL: bool>(
    set: Layout,
    state: Sender,
    indications: bool,
    samples: &[u64],
    ancillary: &[u8],
    log: &mut [u8],
    place: usize,
    most: usize,
    sound: bool,
) -> Reached
    requires { Bounds (settled_as set) state samples.now ancillary.now log.old place most sound × (USUAL ≡ true → is_usual state.format state.channels state.order ≡ true) }
    ensures { WritesMany indications state samples.now ancillary.now log.old place most result log.new }
{
    let used = set.channels * set.times;
    let mut now = state;
    let mut at = 0;
    let mut to = place;
    for cells in 0..most {
        let past = at + used;
        let end = to + 49;
        if too_large(sound, set.format, &samples[at..past], &ancillary[at..past]) {
            return Reached { state: now, cells };
        }
        let indication = indicated(indications, now.number);
        let second = judge::second_now(now, indication);
        log[to] = u8::from(indication);
        let cell = &mut log[to + 1..end];
        if USUAL {
            let sequence = numbers::sequence_of(now.number, second);
            usual::fill_usual(
                set,
                sequence,
                &samples[at..past],
                &ancillary[at..past],
                cell,
            );
        } else {
            let sequence = pack::sequence_in(set.format, now.number, second);
            pack::pack(
                set,
                sequence,
                &samples[at..past],
                &ancillary[at..past],
                cell,
            );
        }
        now = after(now, indication, second);
        at = past;
        to = end;
    }
    Reached {
        state: now,
        cells: most,
    }
}

fn row(
    set: Layout,
    state: Sender,
    indications: bool,
    samples: &[u64],
    ancillary: &[u8],
    log: &mut [u8],
    place: usize,
    most: usize,
    sound: bool,
) -> Reached
    requires { Bounds (settled_as set) state samples.now ancillary.now log.old place most sound }
    ensures { WritesMany indications state samples.now ancillary.now log.old place most result log.new }
{
    if formats::is_usual(state.format, state.channels, state.order) {
        return row_of::<true>(
            set,
            state,
            indications,
            samples,
            ancillary,
            log,
            place,
            most,
            sound,
        );
    }
    row_of::<false>(
        set,
        state,
        indications,
        samples,
        ancillary,
        log,
        place,
        most,
        sound,
    )
}

// The cells of a state and runs that nothing is wrong with.
fn walk(
    set: Layout,
    state: Sender,
    indications: bool,
    samples: &[u64],
    ancillary: &[u8],
    log: &mut [u8],
    place: usize,
) -> Batch
    requires { (settled_as set ≡ settings_of state.format state.channels state.order) × (state_refusal state ≡ 0) × (length ancillary.now ≡ length samples.now) }
    ensures { SendsMany indications state samples.now ancillary.now log.old place result log.new }
{
    let used = set.channels * set.times;
    let whole = samples.len() / used;
    let room = records_from(log.len(), place);
    let most = whole.min(room);
    let past = most * used;
    let sound = !judge::values_refused(set.format, &samples[..past], &ancillary[..past]);
    let sent = row(
        set,
        state,
        indications,
        samples,
        ancillary,
        log,
        place,
        most,
        sound,
    );
    let cells = sent.cells;
    let reached = sent.state;
    let stop = stop_of(cells, most, whole);
    let next = place + 49 * cells;
    let entries = cells * used;
    Batch {
        refusal: 0,
        state: reached,
        next,
        entries,
        stop,
        cells,
    }
}

// Sends cell after cell, and writes the record of each into the log from a place on: as many as there are entries and room for, and
// none from the first on that has a number too large. The indication is 1 in each cell whose number is a multiple of 8, if there are
// to be indications, and else in none. Refused: 1 to 4, or 5 where the runs aren't equally long, and then the state comes back as it
// went in and nothing is written.
pub fn send(
    state: Sender,
    indications: bool,
    samples: &[u64],
    ancillary: &[u8],
    log: &mut [u8],
    place: usize,
) -> Batch
    ensures { SendsMany indications state samples.now ancillary.now log.old place result log.new }
{
    let set = match formats::settings(
        state.format as u32,
        state.channels as u32,
        state.order as u32,
    ) {
        Ok(set) => set,
        Err(refusal) => return refused(refusal.into(), state),
    };
    let format = set.format;
    if judge::numbers(
        format,
        state.number as u32,
        state.wanted,
        state.second as u32,
    ) {
        return refused(4, state);
    }
    if ancillary.len() != samples.len() {
        return refused(5, state);
    }
    walk(set, state, indications, samples, ancillary, log, place)
}
