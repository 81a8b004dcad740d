// Packing a cell: the used slots, by a loop for each format and order, then the unused ones.
ghost use Rattle.std.specs.Prelude.{◌≡◌, ◌<◌, length, ◌≢◌};
ghost use Rattle.formats.specs.Settings.{settled_as};
ghost use Rattle.sender.specs.ManyCode.{sequence_in};
ghost use Rattle.sender.specs.Packing.{
  Packable,
  Named,
  idle_number,
  filled_to,
  filled_cell,
};

use crate::fill::fill;
use crate::octets::put;
use formats::{Format, Layout};

// The used slots of settings whose format has these numbers. It is called with constants: the compiler then makes a loop for that
// format in each order.
#[inline(always)]
fn fill_named(
    set: Layout,
    sample_bits: u64,
    ancillary_bits: u64,
    overhead_bits: u64,
    width: usize,
    sequence: u64,
    samples: &[u64],
    ancillary: &[u8],
    cell: &mut [u8],
)
    requires { Packable (settled_as set) samples.now ancillary.now × Named set.format sample_bits ancillary_bits overhead_bits width × (length cell.old ≡ 48) }
    ensures { cell.new ≡ filled_to (settled_as set) sequence samples.now ancillary.now cell.old (length samples.now) }
{
    let format = Format {
        sample_bits,
        ancillary_bits,
        overhead_bits,
        width,
        slots: set.format.slots,
    };
    if set.by_channel {
        let known = Layout {
            format,
            by_channel: true,
            ..set
        };
        return fill(known, sequence, samples, ancillary, cell);
    }
    let known = Layout {
        format,
        by_channel: false,
        ..set
    };
    fill(known, sequence, samples, ancillary, cell);
}

// The used slots with overhead. The last arm would serve any other format too, at more cost.
fn pack_guarded(set: Layout, sequence: u64, samples: &[u64], ancillary: &[u8], cell: &mut [u8])
    requires { Packable (settled_as set) samples.now ancillary.now × (set.format.overhead_bits ≢ 0) × (length cell.old ≡ 48) }
    ensures { cell.new ≡ filled_to (settled_as set) sequence samples.now ancillary.now cell.old (length samples.now) }
{
    match set.format.sample_bits {
        8 => fill_named(set, 8, 4, 4, 2, sequence, samples, ancillary, cell),
        12 => fill_named(set, 12, 0, 4, 2, sequence, samples, ancillary, cell),
        16 => fill_named(set, 16, 4, 4, 3, sequence, samples, ancillary, cell),
        20 => fill_named(set, 20, 0, 4, 3, sequence, samples, ancillary, cell),
        24 => fill_named(set, 24, 4, 4, 4, sequence, samples, ancillary, cell),
        28 => fill_named(set, 28, 0, 4, 4, sequence, samples, ancillary, cell),
        40 => fill_named(set, 40, 4, 4, 6, sequence, samples, ancillary, cell),
        _ => fill(set, sequence, samples, ancillary, cell),
    }
}

// The same without overhead.
fn pack_plain(set: Layout, sequence: u64, samples: &[u64], ancillary: &[u8], cell: &mut [u8])
    requires { Packable (settled_as set) samples.now ancillary.now × (set.format.overhead_bits ≡ 0) × (length cell.old ≡ 48) }
    ensures { cell.new ≡ filled_to (settled_as set) sequence samples.now ancillary.now cell.old (length samples.now) }
{
    match set.format.sample_bits {
        8 => fill_named(set, 8, 0, 0, 1, sequence, samples, ancillary, cell),
        12 => fill_named(set, 12, 4, 0, 2, sequence, samples, ancillary, cell),
        16 => fill_named(set, 16, 0, 0, 2, sequence, samples, ancillary, cell),
        20 => fill_named(set, 20, 4, 0, 3, sequence, samples, ancillary, cell),
        24 => fill_named(set, 24, 0, 0, 3, sequence, samples, ancillary, cell),
        28 => fill_named(set, 28, 4, 0, 4, sequence, samples, ancillary, cell),
        32 => fill_named(set, 32, 0, 0, 4, sequence, samples, ancillary, cell),
        _ => fill(set, sequence, samples, ancillary, cell),
    }
}

// The used slots.
fn pack_used(set: Layout, sequence: u64, samples: &[u64], ancillary: &[u8], cell: &mut [u8])
    requires { Packable (settled_as set) samples.now ancillary.now × (length cell.old ≡ 48) }
    ensures { cell.new ≡ filled_to (settled_as set) sequence samples.now ancillary.now cell.old (length samples.now) }
{
    if set.format.overhead_bits == 0 {
        pack_plain(set, sequence, samples, ancillary, cell);
    } else {
        pack_guarded(set, sequence, samples, ancillary, cell);
    }
}

// The subframe of an unused slot: sample and ancillary are 0, their protection bits 111.
#[tactic(auto, unfolding(crate::specs::Packing::idle_number))]
fn idle_subframe(overhead_bits: u64, bit: u64) -> u64
    requires { bit < 2 }
    ensures { result ≡ idle_number overhead_bits bit }
{
    if overhead_bits == 0 {
        return 0;
    }
    bit * 8 + 7
}

// The unused slots of a cell whose used slots are filled. The ancillary numbers are for the promise alone.
fn fill_idle(set: Layout, sequence: u64, samples: &[u64], ancillary: &[u8], cell: &mut [u8])
    requires { Packable (settled_as set) samples.now ancillary.now × (length cell.old ≡ 48) × (cell.old ≡ filled_to (settled_as set) sequence samples.now ancillary.now cell.old (length samples.now)) }
    ensures { cell.new ≡ filled_to (settled_as set) sequence samples.now ancillary.now cell.old set.format.slots }
{
    for slot in samples.len()..set.format.slots {
        let bit = (sequence >> slot) % 2;
        let number = idle_subframe(set.format.overhead_bits, bit);
        put(cell, slot * set.format.width, set.format.width, number);
    }
}

// All slots of a cell with these sequencing bits.
pub(crate) fn pack(set: Layout, sequence: u64, samples: &[u64], ancillary: &[u8], cell: &mut [u8])
    requires { Packable (settled_as set) samples.now ancillary.now × (length cell.old ≡ 48) }
    ensures { cell.new ≡ filled_cell (settled_as set) sequence samples.now ancillary.now }
{
    pack_used(set, sequence, samples, ancillary, cell);
    fill_idle(set, sequence, samples, ancillary, cell);
}

// The sequencing bits of a cell, 0 where the format has none.
pub(crate) fn sequence_in(format: Format, number: u8, second: u8) -> u64
    ensures { result ≡ sequence_in format number second }
{
    if format.overhead_bits == 0 {
        return 0;
    }
    numbers::sequence_of(number, second)
}
