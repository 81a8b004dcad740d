// A log's records received in a row, from a place on: each cell's entries behind the last one's, as far as there is room.
ghost use Rattle.std.specs.Prelude.{[], ◌∷◌, ◌≡◌, ◌+◌, ◌*◌, ◌≤◌, ◌<◌, ◌^◌, length};
ghost use Rattle.cell_log.specs.Records.{record_at};
ghost use Rattle.receiver.specs.Receiver.{state_refusal, used_now};
ghost use Rattle.hearing.specs.Receiving.{begun_as, ReceivesOn, ReceivesLog};
ghost use Rattle.hearing.specs.Steps.{stopped_as, one_if, needed_of, past_one, heard_at, Counted, Puts, Ready, Steps};

use crate::states;
use receiver::{Received, Receiver};

// The refusal of the call (0: none); the state to go on with, the next place, the entries written, and why it stopped; cells taken,
// missing before them, and refused by 8, 9, 15 and 20.
#[derive(Clone, Copy, Debug, PartialEq, Eq, Hash)]
pub struct Batch {
    pub refusal: u8,
    pub state: Receiver,
    pub next: usize,
    pub entries: usize,
    pub stop: u8,
    pub taken: usize,
    pub missing: usize,
    pub refused_8: usize,
    pub refused_9: usize,
    pub refused_15: usize,
    pub refused_20: usize,
}

// Before the first record; of a call that is refused, all there is.
fn begun(refusal: u8, state: Receiver, place: usize) -> Batch
    ensures { result ≡ begun_as refusal state place }
{
    Batch {
        refusal,
        state,
        next: place,
        entries: 0,
        stop: 0,
        taken: 0,
        missing: 0,
        refused_8: 0,
        refused_9: 0,
        refused_15: 0,
        refused_20: 0,
    }
}

fn stopped(b: Batch, stop: u8) -> Batch
    ensures { result ≡ stopped_as b stop }
{
    Batch { stop, ..b }
}

fn one_if(number: u8, wanted: u8) -> usize
    ensures { (result ≡ one_if number wanted) × (result ≤ 1) }
{
    usize::from(number == wanted)
}

// The entries of a record that was answered so: none where it is refused.
fn needed(got: Received, used: usize) -> usize
    requires { used ≤ 48 }
    ensures { result ≡ needed_of got used }
{
    if got.refusal != 0 {
        0
    } else {
        (usize::from(got.missing) + 1) * used
    }
}

// Past a record that was answered so, with so many entries.
fn past_one(b: Batch, got: Received, entries: usize) -> Batch
    requires { Counted b × (b.next + 49 < 2 ^ 63) × (b.entries + entries < 2 ^ 64) }
    ensures { result ≡ past_one b got entries }
{
    Batch {
        state: got.state,
        next: b.next + 49,
        entries: b.entries + entries,
        taken: b.taken + one_if(got.refusal, 0),
        missing: b.missing + usize::from(got.missing),
        refused_8: b.refused_8 + one_if(got.refusal, 8),
        refused_9: b.refused_9 + one_if(got.refusal, 9),
        refused_15: b.refused_15 + one_if(got.refusal, 15),
        refused_20: b.refused_20 + one_if(got.refusal, 20),
        ..b
    }
}

// Writes the entries of a record that was answered so, from a place of the runs on.
fn put(
    state: Receiver,
    got: Received,
    log: &[u8],
    place: usize,
    at: usize,
    samples: &mut [u64],
    ancillary: &mut [u8],
    marks: &mut [u8],
)
    requires { (state_refusal state ≡ 0) × ((record_at log.now place).what ≡ 1) × (got ≡ (heard_at state log.now place).answer)
        × (at + needed_of got (used_now state) ≤ length samples.old) × (length ancillary.old ≡ length samples.old) × (length marks.old ≡ length samples.old) }
    ensures { Puts (heard_at state log.now place ∷ []) at samples.old ancillary.old marks.old
        samples.new ancillary.new marks.new }
{
    if got.refusal != 0 {
        return;
    }
    receiver::many::unpack(
        state,
        log,
        place,
        1,
        got.missing,
        &mut samples[at..],
        &mut ancillary[at..],
        &mut marks[at..],
    );
}

// Past the record there, which has this indication; or stopped before it, where its entries have no room.
fn one(
    b: Batch,
    used: usize,
    indication: bool,
    log: &[u8],
    samples: &mut [u64],
    ancillary: &mut [u8],
    marks: &mut [u8],
) -> Batch
    requires { Ready b used log.now samples.old ancillary.old marks.old × ((record_at log.now b.next).what ≡ 1)
        × (indication ≡ (record_at log.now b.next).indication) }
    ensures { Steps b used log.now samples.old ancillary.old marks.old result
        samples.new ancillary.new marks.new }
{
    let state = b.state;
    let got = receiver::judged(state, cell_log::read_cell(log, b.next), indication);
    let entries = needed(got, used);
    if samples.len() - b.entries < entries {
        return stopped(b, 10);
    }
    put(
        state, got, log, b.next, b.entries, samples, ancillary, marks,
    );
    past_one(b, got, entries)
}

// The records from a place on, as far as their entries have room.
fn walk(
    state: Receiver,
    used: usize,
    log: &[u8],
    place: usize,
    samples: &mut [u64],
    ancillary: &mut [u8],
    marks: &mut [u8],
) -> Batch
    requires { (state_refusal state ≡ 0) × (used ≡ used_now state) × (length ancillary.old ≡ length samples.old)
        × (length marks.old ≡ length samples.old) }
    ensures { ReceivesOn state log.now place samples.old ancillary.old marks.old result
        samples.new ancillary.new marks.new }
{
    let mut b = begun(0, state, place);
    loop {
        match cell_log::read_record(log, b.next) {
            Ok(Some(record)) => {
                b = one(b, used, record.indication, log, samples, ancillary, marks);
                if b.stop != 0 {
                    return b;
                }
            }
            Ok(None) => return stopped(b, 0),
            Err(refusal) => return stopped(b, refusal.into()),
        }
    }
}

// Receives a log's records from a place on, in the order in which they stand, and writes their entries into the three runs, as many
// records as have room; what stands past them stays. Refused: 1 to 4, then 5 where the runs aren't equally long, and then the state
// comes back as it went in and nothing is written.
pub fn receive(
    state: Receiver,
    log: &[u8],
    place: usize,
    samples: &mut [u64],
    ancillary: &mut [u8],
    marks: &mut [u8],
) -> Batch
    ensures { ReceivesLog state log.now place samples.old ancillary.old marks.old result
        samples.new ancillary.new marks.new }
{
    let refusal = states::refusal_of(state);
    if refusal != 0 {
        return begun(refusal, state, 0);
    }
    if ancillary.len() != samples.len() || marks.len() != samples.len() {
        return begun(5, state, 0);
    }
    let set = formats::settings(
        state.format as u32,
        state.channels as u32,
        state.order as u32,
    )
    .unwrap();
    let used = set.channels * set.times;
    walk(state, used, log, place, samples, ancillary, marks)
}
