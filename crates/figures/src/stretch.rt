// Whole records that lie one behind the other, counted. What a gap holds isn't written out: of a cell that is taken only its own
// marks are looked at.
ghost use Rattle.std.specs.Prelude.{true, cond, map, ◌≡◌, ◌≤◌, eqb, length, drop};
ghost use Rattle.formats.specs.Settings.{settled_as, settings_of};
ghost use Rattle.reading.specs.Records.{is_whole, front_of};
ghost use Rattle.receiver.specs.Unpacking.{used_in};
ghost use Rattle.pieces.specs.Limit.{whole};
ghost use Rattle.figures.specs.Code.{Under};
ghost use Rattle.figures.specs.Figures.{plus_of};
ghost use Rattle.figures.specs.Stretch.{taken_one, refused_one, noted_past, records_at, noted_over, Bare, bare_noted};
ghost use Rattle.figures.specs.Taking.{noted_by};

use crate::{Counts, Noted, damage, sums, told};
use formats::Layout;
use receiver::Receiver;

// 1 where the two are the same.
fn one_if(number: u8, wanted: u8) -> u64
    ensures { (result ≡ cond (eqb number wanted) 1 0) × (result ≤ 1) }
{
    u64::from(number == wanted)
}

// With a cell more that is refused.
fn with_refused(c: Counts, refusal: u8) -> Counts
    requires { Under 1000000 c }
    ensures { result ≡ plus_of c (refused_one refusal) }
{
    Counts {
        refused_8: c.refused_8 + one_if(refusal, 8),
        refused_9: c.refused_9 + one_if(refusal, 9),
        refused_15: c.refused_15 + one_if(refusal, 15),
        refused_20: c.refused_20 + one_if(refusal, 20),
        ..c
    }
}

// With a cell more that is taken: its C×T samples, how many of them are marked 1, and the missing cells before it.
fn with_taken(c: Counts, used: u64, missing: u64, ones: u64) -> Counts
    requires { Under 1000000 c × (used ≤ 48) × (missing ≤ 255) × (ones ≤ used) }
    ensures { result ≡ plus_of c (taken_one used missing ones) }
{
    Counts {
        sound: c.sound + 1,
        missing: c.missing + missing,
        marked_0: c.marked_0 + (used - ones),
        marked_1: c.marked_1 + ones,
        marked_2: c.marked_2 + missing * used,
        ..c
    }
}

// Past the record at a place.
fn past(set: Layout, noted: Noted, octets: &[u8], at: usize) -> Noted
    requires { (settled_as set ≡ settings_of noted.state.format noted.state.channels noted.state.order)
        × Under 1000000 noted.counts × (is_whole (drop at octets.now) ≡ true) }
    ensures { result ≡ noted_past noted (front_of (drop at octets.now)) }
{
    let start = at + 1;
    let end = at + 49;
    let got = told::answer(set, noted.state, &octets[start..end], octets[at] == 1);
    let state = got.state;
    if got.refusal != 0 {
        let counts = with_refused(noted.counts, got.refusal);
        return Noted { state, counts };
    }
    let used = set.channels * set.times;
    let ones = damage::marked_1(set.format, &octets[start..end], used);
    let counts = with_taken(noted.counts, used as u64, got.missing as u64, ones);
    Noted { state, counts }
}

// Counts the records one by one.
fn each(set: Layout, state: Receiver, octets: &[u8], place: usize, records: usize) -> Noted
    requires { (settled_as set ≡ settings_of state.format state.channels state.order)
        × (length (records_at octets.now place records) ≡ records) × (records ≤ 512) }
    ensures { result ≡ noted_over state (records_at octets.now place records) }
{
    let counts = Counts::default();
    let mut noted = Noted { state, counts };
    for i in 0..records {
        noted = past(set, noted, octets, place + 49 * i);
    }
    noted
}

// Whether all of so many cells are taken, whatever they hold, with no gap before them and no sample marked 1: the format has no
// overhead, the state waits for the next cell, and the count goes so far.
fn is_bare(set: Layout, state: Receiver, records: usize) -> bool
    ensures { result ≡ true → Bare (settled_as set) state records }
{
    set.format.overhead_bits == 0
        && state.started
        && state.last == 0
        && records as u64 <= 4294967295 - state.count as u64
}

// What such cells count.
fn bare(set: Layout, state: Receiver, records: usize) -> Noted
    requires { Bare (settled_as set) state records × (used_in (settled_as set) ≤ 48) × (records ≤ 512) }
    ensures { result ≡ bare_noted state (used_in (settled_as set)) records }
{
    let used = set.channels * set.times;
    Noted {
        state: Receiver {
            started: true,
            last: 0,
            count: state.count + records as u32,
            ..state
        },
        counts: Counts {
            sound: records as u64,
            marked_0: (records * used) as u64,
            ..Counts::default()
        },
    }
}

// Counts the records from a state on. Where its settings are refused, all records are, by numbers that aren't counted.
fn over(state: Receiver, octets: &[u8], place: usize, records: usize) -> Noted
    requires { (length (records_at octets.now place records) ≡ records) × (records ≤ 512) }
    ensures { result ≡ noted_over state (records_at octets.now place records) }
{
    let Ok(set) = formats::settings(
        state.format as u32,
        state.channels as u32,
        state.order as u32,
    ) else {
        return Noted {
            state,
            counts: Counts::default(),
        };
    };
    if is_bare(set, state, records) {
        return bare(set, state, records);
    }
    each(set, state, octets, place, records)
}

// How many records are counted in one go: no more than 512, so that no sum can pass its bits, and the first one alone, since only
// a state that is started waits for the next cell.
pub(crate) fn at_once(state: Receiver) -> usize
    ensures { (1 ≤ result) × (result ≤ 512) }
{
    if state.started { 512 } else { 1 }
}

// Counts the whole records that lie one behind the other from a place on.
pub(crate) fn counted(noted: Noted, octets: &[u8], place: usize, records: usize) -> Noted
    requires { (length (records_at octets.now place records) ≡ records) × (1 ≤ records) × (records ≤ 512) }
    ensures { result ≡ noted_by noted (map whole (records_at octets.now place records)) }
{
    let found = over(noted.state, octets, place, records);
    let state = found.state;
    let counts = sums::plus(noted.counts, found.counts);
    Noted { state, counts }
}
