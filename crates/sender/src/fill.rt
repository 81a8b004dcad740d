// Filling a cell's used slots: one loop for every format and both orders. Where it is called with a format's numbers as constants,
// the compiler makes a loop for that format alone.
ghost use Rattle.std.specs.Prelude.{◌≡◌, ◌+◌, ◌*◌, ◌%◌, ◌^◌, ◌<◌, ◌≤◌, length};
ghost use Rattle.formats.specs.Settings.{settled_as};
ghost use Rattle.formats.specs.Sound.{Sound, Limits};
ghost use Rattle.guards.specs.Guards.{v_of, protected_bits, guard_of};
ghost use Rattle.cells.specs.Cells.{subframe_of};
ghost use Rattle.sender.specs.Packing.{Packable, entry_at, filled_to, low_part};

use crate::octets::put;
use cells::next_place;
use formats::{Format, Layout};

// The ancillary bits in their place in a subframe's last octet, and what V adds to the protection bits.
// The arms stay: they are one load, and as a sum of products they take 60 instructions more in a cell.
fn low_of(ancillary: u64) -> u64
    ensures { result ≡ ancillary % 16 * 16 + ancillary % 16 % 2 * 3 }
{
    let key = ancillary % 16;
    match key {
        0 => 0,
        1 => 19,
        2 => 32,
        3 => 51,
        4 => 64,
        5 => 83,
        6 => 96,
        7 => 115,
        8 => 128,
        9 => 147,
        10 => 160,
        11 => 179,
        12 => 192,
        13 => 211,
        14 => 224,
        _ => 243,
    }
}

// The same of an ancillary field of so many bits: nothing where there is no field.
#[tactic(auto, unfolding(crate::specs::Packing::low_part))]
fn low_in(ancillary_bits: u64, ancillary: u64) -> u64
    ensures { result ≡ low_part ancillary_bits ancillary }
{
    if ancillary_bits == 0 {
        return 0;
    }
    low_of(ancillary)
}

// The bits that are protected, as one number: nine sample bits and a V of 0 after them, or the nine alone where there is no V.
fn protected(ancillary_bits: u64, nine: u64) -> u64
    requires { nine < 512 }
    ensures { (result ≡ protected_bits nine (v_of ancillary_bits 0)) × (result < 1024) }
{
    if ancillary_bits == 0 {
        return nine;
    }
    nine * 2
}

// The protection bits of a sample where V is 0 or there is none.
fn guard_in(sample_bits: u64, ancillary_bits: u64, sample: u64) -> u64
    requires { (8 ≤ sample_bits) × (sample_bits ≤ 40) × (sample < 2 ^ sample_bits) }
    ensures { result ≡ guard_of sample_bits sample (v_of ancillary_bits 0) }
{
    let nine = (sample * 2) >> (sample_bits - 8);
    let ten = protected(ancillary_bits, nine);
    u64::from(guards::of_ten(ten))
}

// A subframe with overhead as a number. `guard` has the sample's protection bits where V is 0 or there is none; the sample's length
// is for the promise alone.
pub(crate) fn guarded(
    sample_bits: u64,
    ancillary_bits: u64,
    sample: u64,
    guard: u64,
    ancillary: u64,
    bit: u64,
) -> u64
    requires { (sample_bits ≤ 40) × (ancillary_bits ≤ 4) × (sample < 2 ^ sample_bits) × (guard ≡ guard_of sample_bits sample (v_of ancillary_bits 0)) × (ancillary < 2 ^ ancillary_bits) × (bit < 2) }
    ensures { result ≡ (sample * 2 ^ ancillary_bits + ancillary) * 16 + (bit * 8 + guard_of sample_bits sample (v_of ancillary_bits ancillary)) }
{
    let low = guard ^ low_in(ancillary_bits, ancillary);
    (sample << (ancillary_bits + 4)) + (low + bit * 8)
}

// A subframe as a number. Without overhead the sequencing bit isn't sent.
fn subframe(format: Format, sample: u64, ancillary: u64, bit: u64) -> u64
    requires { Sound format × (sample < 2 ^ format.sample_bits) × (ancillary < 2 ^ format.ancillary_bits) × (bit < 2) }
    ensures { result ≡ subframe_of format sample ancillary bit }
{
    let few = format.ancillary_bits;
    if format.overhead_bits == 0 {
        return (sample << few) + ancillary;
    }
    let guard = guard_in(format.sample_bits, few, sample);
    guarded(format.sample_bits, few, sample, guard, ancillary, bit)
}

// The next slot's entry: in order 1 it goes on by C.
fn next_entry(set: Layout, used: usize, slot: usize, entry: usize) -> usize
    requires { Limits (settled_as set) × (used ≡ set.channels * set.times) × (slot < used) × (entry ≡ entry_at (settled_as set) slot) }
    ensures { result ≡ entry_at (settled_as set) (slot + 1) }
{
    if set.by_channel {
        return next_place(set.channels, used, entry);
    }
    slot + 1
}

// The used slots.
#[inline(always)]
pub(crate) fn fill(set: Layout, sequence: u64, samples: &[u64], ancillary: &[u8], cell: &mut [u8])
    requires { Packable (settled_as set) samples.now ancillary.now × (length cell.old ≡ 48) }
    ensures { cell.new ≡ filled_to (settled_as set) sequence samples.now ancillary.now cell.old (length samples.now) }
{
    let format = set.format;
    let mut entry = 0;
    let mut rest = sequence;
    for slot in 0..samples.len() {
        let bit = rest % 2;
        rest /= 2;
        let number = subframe(format, samples[entry], u64::from(ancillary[entry]), bit);
        put(cell, slot * format.width, format.width, number);
        entry = next_entry(set, samples.len(), slot, entry);
    }
}
