// How many samples of a cell are marked 1. Nothing is unpacked.
ghost use Rattle.std.specs.Prelude.{◌≡◌, ◌≤◌, ◌<◌, length};
ghost use Rattle.formats.specs.Sound.{Sound};
ghost use Rattle.cells.specs.Cells.{subframe_at, mark_in};
ghost use Rattle.figures.specs.Stretch.{key_of, low_of, marks_in};

use formats::Format;

// The table's key for a subframe, by its first two octets: the nine top sample bits. A sample of eight bits has a ninth bit of 0.
// Where there is no V, the eight top ones: the ninth then stands in V's place.
fn key_of(format: Format, first: u8, second: u8) -> u64
    ensures { (result ≡ key_of format first second) × (result < 512) }
{
    if format.ancillary_bits == 0 {
        return first as u64;
    }
    if format.sample_bits == 8 {
        return first as u64 * 2;
    }
    first as u64 * 2 + second as u64 / 128
}

// The five low bits by which a mark is found: V or what stands in its place, the sequencing bit, three protection bits.
fn low_of(format: Format, second: u8, last: u8) -> u64
    ensures { (result ≡ low_of format second last) × (result < 32) }
{
    if format.ancillary_bits == 0 {
        return last as u64 % 16 + second as u64 / 128 * 16;
    }
    last as u64 % 32
}

// 1 where the sample of a slot is marked so. The subframe's first two octets have the sample bits that are protected, its last one
// has V and the protection bits.
fn mark_at(format: Format, cell: &[u8], slot: usize) -> u64
    requires { Sound format × (format.overhead_bits ≡ 4) × (length cell.now ≡ 48) × (slot < format.slots) }
    ensures { (result ≡ mark_in format (subframe_at format cell.now slot)) × (result ≤ 1) }
{
    let at = slot * format.width;
    let second = cell[at + 1];
    let bits = tables::marks(key_of(format, cell[at], second));
    let low = low_of(format, second, cell[at + (format.width - 1)]);
    (bits >> low) % 2
}

// How many of the first slots are marked 1. The order in which they hold a cell's entries doesn't matter.
pub(crate) fn marked_1(format: Format, cell: &[u8], used: usize) -> u64
    requires { Sound format × (length cell.now ≡ 48) × (used ≤ format.slots) }
    ensures { (result ≡ marks_in format cell.now used) × (result ≤ used) }
{
    if format.overhead_bits == 0 {
        return 0;
    }
    let mut count = 0;
    for slot in 0..used {
        count += mark_at(format, cell, slot);
    }
    count
}
