// What a call is answered: the checks in the table's order, and the report. Both ways of receiving take it from here.
ghost use Rattle.std.specs.Prelude.{true, false, ◌||◌, List, ◌≡◌, ℕ, length};
ghost use Rattle.formats.specs.Formats.{format_of};
ghost use Rattle.formats.specs.Settings.{settled_as, settings_of};
ghost use Rattle.refusals.specs.Refusals as Refusals;
ghost use Rattle.receiver.specs.Receiver.{last_refused, count_refused, lengths_refused, found_now, number_now, gap_of, received_of};
ghost use Rattle.receiver.specs.Unpacking.{early_refusal, late_refusal, refused_by, taken_as};

use crate::{Received, Receiver, bits};
use formats::{Format, Layout};
use refusals::Refusal;

// Check 4 of the last number.
#[tactic(auto, unfolding(crate::specs::Receiver::last_refused))]
fn last_refused(format: Format, state: Receiver) -> bool
    requires { format ≡ format_of state.format }
    ensures { result ≡ last_refused state }
{
    15 < state.last || state.last != 0 && (!state.started || format.overhead_bits == 0)
}

// Check 4 of the count.
#[tactic(auto, unfolding(crate::specs::Receiver::count_refused))]
fn count_refused(state: Receiver) -> bool
    ensures { result ≡ count_refused state }
{
    !state.started && state.count != 0
}

// Check 4.
fn numbers_refused(format: Format, state: Receiver) -> bool
    requires { format ≡ format_of state.format }
    ensures { result ≡ (last_refused state || count_refused state) }
{
    // the count first, which takes fewer instructions
    count_refused(state) || last_refused(format, state)
}

// Check 5.
#[tactic(auto, unfolding(crate::specs::Receiver::lengths_refused))]
fn lengths_refused(cell: usize, samples: usize, ancillary: usize, marks: usize) -> bool
    ensures { result ≡ lengths_refused cell samples ancillary marks }
{
    cell != 48 || ancillary != samples || marks != samples
}

// Checks 1 to 5, of which the settings of the state passed 1 to 3; the cell and the runs are told by their lengths.
#[inline(always)]
fn check_early(
    set: Layout,
    state: Receiver,
    cell: usize,
    samples: usize,
    ancillary: usize,
    marks: usize,
) -> Result<(), Refusal>
    requires { settled_as set ≡ settings_of state.format state.channels state.order }
    ensures { Refusals.refused_by result ≡ early_refusal state cell samples ancillary marks }
{
    if numbers_refused(set.format, state) {
        return Err(Refusal::State);
    }
    if lengths_refused(cell, samples, ancillary, marks) {
        return Err(Refusal::Length);
    }
    Ok(())
}

// d: how many cells on from the last one the cell with this number is.
#[tactic(auto, unfolding(crate::specs::Receiver::gap_of))]
fn gap_now(format: Format, state: Receiver, number: u8) -> u8
    requires { format ≡ format_of state.format }
    ensures { (cell : List ℕ) → number ≡ number_now state cell → result ≡ gap_of state cell }
{
    if !state.started || format.overhead_bits == 0 {
        return 1;
    }
    numbers::difference(number, state.last)
}

// Checks 9, 20 and 10: d, the count so far, how long each run is, and how long it has to be.
#[tactic(auto, unfolding(crate::specs::Unpacking::late_refusal, refusals::specs::Refusals::refused_by, refusals::specs::Refusals::number_of))]
fn check_late(gap: u8, count: u32, samples: usize, needed: usize) -> Result<(), Refusal>
    ensures { Refusals.refused_by result ≡ late_refusal gap count samples needed }
{
    if gap == 0 {
        return Err(Refusal::Repeat);
    }
    if 4294967295 < count as u64 + gap as u64 {
        return Err(Refusal::Count);
    }
    if samples < needed {
        return Err(Refusal::Room);
    }
    Ok(())
}

// The answer to a refused call: the state as it came, and zeros.
pub(crate) fn refused(refusal: Refusal, state: Receiver) -> Received
    ensures { result ≡ refused_by (Refusals.number_of refusal) state }
{
    Received {
        refusal: refusal.into(),
        state,
        missing: 0,
        number: 0,
        second: 0,
        indication: false,
    }
}

// The answer to a call that is taken.
fn taken(
    state: Receiver,
    missing: u8,
    number: u8,
    second: u8,
    indication: bool,
    count: u32,
) -> Received
    ensures { result ≡ taken_as state missing number second indication count }
{
    Received {
        refusal: 0,
        state: Receiver {
            format: state.format,
            channels: state.channels,
            order: state.order,
            started: true,
            last: number,
            count,
        },
        missing,
        number,
        second,
        indication,
    }
}

// Checks 8, 15, 9, 20 and 10 where the earlier ones refuse nothing, and the answer. `found` is the cell's number, which is 0 where the
// format has no overhead, so that 15 is never given there. `samples` is how long each run is.
fn judged(
    set: Layout,
    state: Receiver,
    found: Option<u8>,
    cell: &[u8],
    indication: bool,
    samples: usize,
) -> Received
    requires { (settled_as set ≡ settings_of state.format state.channels state.order)
        × (early_refusal state (length cell.now) samples samples samples ≡ 0) × (found ≡ found_now state cell.now) }
    ensures { result ≡ received_of state cell.now indication samples samples samples }
{
    let Some(number) = found else {
        return refused(Refusal::Number, state);
    };
    if numbers::indication_refused(number, indication) {
        return refused(Refusal::Indicated, state);
    }
    let gap = gap_now(set.format, state, number);
    // read before the last checks, which takes fewer instructions
    let second = bits::second_now(set.format, cell);
    let needed = gap as usize * (set.channels * set.times);
    if let Err(refusal) = check_late(gap, state.count, samples, needed) {
        return refused(refusal, state);
    }
    let count = state.count + gap as u32;
    taken(state, gap - 1, number, second, indication, count)
}

// What a call is answered, all checks in their turn, by the settings of the state; each run is told by its length. It is compiled into
// each call, since the usual call's settings are constants.
#[inline(always)]
pub(crate) fn answered(
    set: Layout,
    state: Receiver,
    cell: &[u8],
    indication: bool,
    samples: usize,
    ancillary: usize,
    marks: usize,
) -> Received
    requires { settled_as set ≡ settings_of state.format state.channels state.order }
    ensures { result ≡ received_of state cell.now indication samples ancillary marks }
{
    if let Err(refusal) = check_early(set, state, cell.len(), samples, ancillary, marks) {
        return refused(refusal, state);
    }
    let found = bits::found_now(set.format, cell);
    judged(set, state, found, cell, indication, samples)
}
