// Entries: those of missing cells, and a cell's own. A cell's subframes are put into the samples run first and taken apart there.
ghost use Rattle.std.specs.Prelude.{true, false, ◌≡◌, ◌+◌, ◌/◌, ◌%◌, ◌^◌, ◌≤◌, ◌<◌, length, replicate};
ghost use Rattle.runs.specs.Runs.{over, written};
ghost use Rattle.formats.specs.Settings.{settled_as};
ghost use Rattle.formats.specs.Sound.{Sound, Limits};
ghost use Rattle.cells.specs.Code.{step_on};
ghost use Rattle.cells.specs.Cells.{sample_in, mark_in};
ghost use Rattle.receiver.specs.Unpacking.{
  used_in,
  own_entries,
  Unpacks,
  Fills,
  Room,
  Misses,
  blank_end,
  Blank,
  held,
  Splits,
};

use crate::octets;
use formats::{Format, Layout};

// The slot of the next entry in order 1.
#[tactic(auto, unfolding(cells::specs::Code::step_on))]
fn next_slot(times: usize, used: usize, slot: usize) -> usize
    requires { (slot < used) × (used ≤ 48) × (times ≤ 48) }
    ensures { result ≡ step_on times used slot }
{
    let next = slot + times;
    if next < used { next } else { next - (used - 1) }
}

// Writes one value to each entry of a run. The library's `fill` takes 3 % more instructions where cells are missing.
fn fill<T: Copy>(run: &mut [T], value: T)
    ensures { run.new ≡ replicate (length run.old) value }
{
    for entry in run.iter_mut() {
        *entry = value;
    }
}

// Writes `missing` entries of zero with mark 2 to the three runs. These stay three parameters here and below: one struct that lends them
// is no plainer, since each contract would have to say that it still lends the same slices, of the same lengths.
pub(crate) fn missing_entries(
    missing: usize,
    samples: &mut [u64],
    ancillary: &mut [u8],
    marks: &mut [u8],
)
    requires { Room missing 0 samples.old ancillary.old marks.old }
    ensures { Misses missing missing samples.old ancillary.old marks.old samples.new ancillary.new marks.new }
{
    fill(&mut samples[..missing], 0);
    fill(&mut ancillary[..missing], 0);
    fill(&mut marks[..missing], 2);
}

// Where the zeros end that the ancillary run has before the cell's own subframes are taken apart.
#[tactic(auto, unfolding(crate::specs::Unpacking::blank_end))]
fn blank_end(format: Format, missing: usize, used: usize) -> usize
    requires { missing + used < 2 ^ 64 }
    ensures { (result ≡ blank_end format missing used) × (result ≤ missing + used) }
{
    if format.ancillary_bits == 0 {
        missing + used
    } else {
        missing
    }
}

// Writes `missing` entries of zero with mark 2 to the three runs. Where the format has no ancillary bits, the ancillary run's zeros
// go on for the cell's own entries: one long fill takes fewer instructions than two.
pub(crate) fn cleared(
    format: Format,
    missing: usize,
    used: usize,
    samples: &mut [u64],
    ancillary: &mut [u8],
    marks: &mut [u8],
)
    requires { Room missing used samples.old ancillary.old marks.old }
    ensures { Misses missing (blank_end format missing used) samples.old ancillary.old marks.old samples.new ancillary.new marks.new }
{
    fill(&mut samples[..missing], 0);
    fill(&mut marks[..missing], 2);
    let blank = blank_end(format, missing, used);
    fill(&mut ancillary[..blank], 0);
}

// Writes the subframes of the used slots to a run from `at` on, compiled for each order, and for subframes of three octets apart. It
// steps from slot to slot: a division by C would cost as much as the rest of the loop. Three octets are read with the octet behind
// them, by one load; those of the last used slot alone, since they may have none behind them.
fn subframes_in<const BY_CHANNEL: bool, const THREE: bool>(
    set: Layout,
    cell: &[u8],
    at: usize,
    run: &mut [u64],
)
    requires { Limits (settled_as set) × (length cell.now ≡ 48) × (at + used_in (settled_as set) ≤ length run.old) × (set.by_channel ≡ BY_CHANNEL)
        × (THREE ≡ true → set.format.width ≡ 3) }
    ensures { run.new ≡ written run.old at (own_entries (λ x. x) (settled_as set) cell.now) }
{
    let used = set.channels * set.times;
    let count = if THREE { used - 1 } else { used };
    let mut slot = 0;
    for i in 0..count {
        run[at + i] = if THREE {
            octets::three_in(set.format, cell, slot)
        } else {
            octets::subframe_in(set.format, cell, slot)
        };
        slot = if BY_CHANNEL {
            next_slot(set.times, used, slot)
        } else {
            slot + 1
        };
    }
    if THREE {
        run[at + count] = octets::subframe_in(set.format, cell, count);
    }
}

// The same in the order of the settings.
fn subframes(set: Layout, cell: &[u8], at: usize, run: &mut [u64])
    requires { Limits (settled_as set) × (length cell.now ≡ 48) × (at + used_in (settled_as set) ≤ length run.old) }
    ensures { run.new ≡ written run.old at (own_entries (λ x. x) (settled_as set) cell.now) }
{
    match (set.by_channel, set.format.width == 3) {
        (true, true) => subframes_in::<true, true>(set, cell, at, run),
        (true, false) => subframes_in::<true, false>(set, cell, at, run),
        (false, true) => subframes_in::<false, true>(set, cell, at, run),
        (false, false) => subframes_in::<false, false>(set, cell, at, run),
    }
}

// Takes subframes with ancillary bits and overhead apart, in place.
fn split(
    format: Format,
    at: usize,
    used: usize,
    samples: &mut [u64],
    ancillary: &mut [u8],
    marks: &mut [u8],
)
    requires { Sound format × (format.ancillary_bits ≡ 4) × (format.overhead_bits ≡ 4) × Room at used samples.old ancillary.old marks.old }
    ensures { Splits format at used samples.old ancillary.old marks.old samples.new ancillary.new marks.new }
{
    for i in 0..used {
        let subframe = samples[at + i];
        let sample = subframe / 256;
        samples[at + i] = sample;
        ancillary[at + i] = (subframe / 16 % 16) as u8;
        let nine = (sample * 2) >> (format.sample_bits - 8);
        marks[at + i] = ((tables::marks(nine) >> (subframe % 32)) % 2) as u8;
    }
}

// Takes subframes with overhead and no ancillary bits apart, in place.
fn split_without_v(format: Format, at: usize, used: usize, samples: &mut [u64], marks: &mut [u8])
    requires { Sound format × (format.ancillary_bits ≡ 0) × (format.overhead_bits ≡ 4) × (at + used ≤ length samples.old) × (at + used ≤ length marks.old) }
    ensures { (samples.new ≡ written samples.old at (held (sample_in format) samples.old at used))
        × (marks.new ≡ written marks.old at (held (mark_in format) samples.old at used)) }
{
    for i in 0..used {
        let subframe = samples[at + i];
        let sample = subframe / 16;
        samples[at + i] = sample;
        let nine = sample >> (format.sample_bits - 9);
        marks[at + i] = ((tables::marks_without_v(nine) >> (subframe % 32)) % 2) as u8;
    }
}

// Takes subframes with ancillary bits and no overhead apart, in place.
fn split_bare(at: usize, used: usize, samples: &mut [u64], ancillary: &mut [u8])
    requires { (at + used ≤ length samples.old) × (at + used ≤ length ancillary.old) }
    ensures { (samples.new ≡ written samples.old at (held (λ x. x / 16) samples.old at used))
        × (ancillary.new ≡ written ancillary.old at (held (λ x. x % 16) samples.old at used)) }
{
    for i in 0..used {
        let subframe = samples[at + i];
        samples[at + i] = subframe / 16;
        ancillary[at + i] = (subframe % 16) as u8;
    }
}

// Takes subframes apart, in place, and marks them. Where there are no ancillary bits the ancillary run is zero already.
fn parts(
    format: Format,
    at: usize,
    used: usize,
    samples: &mut [u64],
    ancillary: &mut [u8],
    marks: &mut [u8],
)
    requires { Sound format × Room at used samples.old ancillary.old marks.old × Blank format at used ancillary.old }
    ensures { Splits format at used samples.old ancillary.old marks.old samples.new ancillary.new marks.new }
{
    if format.ancillary_bits == 0 {
        if format.overhead_bits != 0 {
            split_without_v(format, at, used, samples, marks);
            return;
        }
        fill(&mut marks[at..at + used], 0);
        return;
    }
    if format.overhead_bits != 0 {
        split(format, at, used, samples, ancillary, marks);
        return;
    }
    fill(&mut marks[at..at + used], 0);
    split_bare(at, used, samples, ancillary);
}

// Writes the cell's own entries to the three runs from `at` on. Where the format has no ancillary bits, the ancillary run is zero
// there already.
pub(crate) fn own_entries(
    set: Layout,
    cell: &[u8],
    at: usize,
    samples: &mut [u64],
    ancillary: &mut [u8],
    marks: &mut [u8],
)
    requires { Limits (settled_as set) × (length cell.now ≡ 48) × Room at (used_in (settled_as set)) samples.old ancillary.old marks.old
        × Blank set.format at (used_in (settled_as set)) ancillary.old }
    ensures { Unpacks (settled_as set) cell.now at samples.old ancillary.old marks.old samples.new ancillary.new marks.new }
{
    let used = set.channels * set.times;
    let format = set.format;
    subframes(set, cell, at, samples);
    parts(format, at, used, samples, ancillary, marks);
}

// Writes `missing` entries of zero with mark 2 to the three runs, and the cell's own entries after them.
pub(crate) fn write(
    set: Layout,
    cell: &[u8],
    missing: usize,
    samples: &mut [u64],
    ancillary: &mut [u8],
    marks: &mut [u8],
)
    requires { Limits (settled_as set) × (length cell.now ≡ 48) × Room missing (used_in (settled_as set)) samples.old ancillary.old marks.old }
    ensures { Fills (settled_as set) cell.now missing samples.old ancillary.old marks.old samples.new ancillary.new marks.new }
{
    let used = set.channels * set.times;
    let format = set.format;
    cleared(format, missing, used, samples, ancillary, marks);
    own_entries(set, cell, missing, samples, ancillary, marks);
}
