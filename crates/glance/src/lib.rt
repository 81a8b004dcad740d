#![tactic(auto)]
// A look at one cell: what its own entries hold, without writing them anywhere.
ghost use Rattle.std.specs.Prelude.{true, ◌≡◌, ◌+◌, ◌^◌, ◌≤◌, ◌<◌, length, take, drop};
ghost use Rattle.runs.specs.Runs.{number_of};
ghost use Rattle.formats.specs.Formats.{format_of};
ghost use Rattle.formats.specs.Sound.{Sound};
ghost use Rattle.guards.specs.Guards.{nine_of, protected_bits, v_of};
ghost use Rattle.guards.specs.Code.{seven_guards};
ghost use Rattle.cells.specs.Cells.{subframe_at, sample_in, ancillary_in, mark_in};
ghost use Rattle.glance.specs.Glance.{some, sounds_of};
ghost use Rattle.glance.specs.Code.{sound_in, masks_of, Eight, Blank, Clear};

use formats::Format;
use receiver::Receiver;

// The number of up to six octets, most significant octet first.
fn number_in(cell: &[u8], at: usize, width: usize) -> u64
    requires { (width ≤ 6) × (at + width ≤ length cell.now) }
    ensures { (result ≡ number_of (take width (drop at cell.now))) × (result < 2 ^ 48) }
{
    let mut number: u64 = 0;
    for i in 0..width {
        number = number * 256 + u64::from(cell[at + i]);
    }
    number
}

// The subframe of a slot. With the width as a constant the compiler reads it without a loop.
fn subframe_in(format: Format, cell: &[u8], slot: usize) -> u64
    requires { Sound format × (length cell.now ≡ 48) × (slot < format.slots) }
    ensures { (result ≡ subframe_at format cell.now slot) × (result < 2 ^ 48) }
{
    match format.width {
        4 => number_in(cell, slot * 4, 4),
        width => number_in(cell, slot * width, width),
    }
}

// What is protected in a subframe, as one number: its nine top sample bits, and V after them where there is one.
fn protected(format: Format, subframe: u64) -> u64
    requires { Sound format × (format.overhead_bits ≡ 4) × (subframe < 2 ^ 48) }
    ensures { (result ≡ protected_bits (nine_of format.sample_bits (sample_in format subframe))
        (v_of format.ancillary_bits (ancillary_in format subframe))) × (result < 1024) }
{
    let sample = subframe >> (format.ancillary_bits + format.overhead_bits);
    let nine = ((sample * 2) >> (format.sample_bits - 8)) % 512;
    if format.ancillary_bits == 0 {
        nine
    } else {
        nine * 2 + subframe / 16 % 2
    }
}

// The mark of a subframe, by the table of `guards::sevens`.
fn mark_in(format: Format, table: &[u8; 128], subframe: u64) -> usize
    requires { Sound format × (table.now ≡ seven_guards) × (subframe < 2 ^ 48) }
    ensures { (result ≡ mark_in format subframe) × (result < 2) }
{
    if format.overhead_bits == 0 {
        return 0;
    }
    let ten = protected(format, subframe);
    let place = ((ten ^ (ten >> 7)) % 128) as usize;
    usize::from(u64::from(table[place]) != subframe % 8)
}

// The sample of a slot is marked 0 and isn't zero. The table is fetched only where it isn't zero: so silence is read faster.
fn sounds_at(format: Format, cell: &[u8], slot: usize) -> bool
    requires { Sound format × (length cell.now ≡ 48) × (slot < format.slots) }
    ensures { result ≡ sound_in format cell.now slot }
{
    let subframe = subframe_in(format, cell, slot);
    let sample = subframe >> (format.ancillary_bits + format.overhead_bits);
    if sample == 0 {
        return false;
    }
    let table = guards::sevens();
    mark_in(format, &table, subframe) == 0
}

// Whether one of the first slots has such a sample.
fn among(format: Format, cell: &[u8], used: usize) -> bool
    requires { Sound format × (length cell.now ≡ 48) × (used ≤ format.slots) }
    ensures { result ≡ some (sound_in format cell.now) used }
{
    for slot in 0..used {
        if sounds_at(format, cell, slot) {
            return true;
        }
    }
    false
}

// The bits of a cell's octets that are a sample's, in three words of eight octets each, the first octet lowest. The other half of
// the cell has the same.
#[derive(Clone, Copy, Debug, PartialEq, Eq, Hash)]
struct Masks {
    first: u64,
    second: u64,
    third: u64,
}

fn three(first: u64, second: u64, third: u64) -> Masks
    ensures { result ≡ record { first = first; second = second; third = third } }
{
    Masks {
        first,
        second,
        third,
    }
}

// By the format. Without ancillary bits and overhead they are all bits, and of no format they may be: its cells aren't read.
fn masks_for(octet: u8) -> Masks
    ensures { result ≡ masks_of octet }
{
    match octet {
        0x13 | 0x43 => three(0xF0FFF0FFF0FFF0FF, 0xF0FFF0FFF0FFF0FF, 0xF0FFF0FFF0FFF0FF),
        0x15 | 0x45 => three(0xFFFFF0FFFFF0FFFF, 0xFFF0FFFFF0FFFFF0, 0xF0FFFFF0FFFFF0FF),
        0x17 | 0x47 => three(0xF0FFFFFFF0FFFFFF, 0xF0FFFFFFF0FFFFFF, 0xF0FFFFFFF0FFFFFF),
        0x52 => three(0x00FF00FF00FF00FF, 0x00FF00FF00FF00FF, 0x00FF00FF00FF00FF),
        0x54 => three(0xFFFF00FFFF00FFFF, 0xFF00FFFF00FFFF00, 0x00FFFF00FFFF00FF),
        0x56 => three(0x00FFFFFF00FFFFFF, 0x00FFFFFF00FFFFFF, 0x00FFFFFF00FFFFFF),
        0x5A => three(0xFFFF00FFFFFFFFFF, 0xFFFFFFFF00FFFFFF, 0x00FFFFFFFFFF00FF),
        _ => three(0xFFFFFFFFFFFFFFFF, 0xFFFFFFFFFFFFFFFF, 0xFFFFFFFFFFFFFFFF),
    }
}

// Eight octets as one number, the first as the lowest: the compiler reads them by one load.
fn eight(cell: &[u8], at: usize) -> u64
    requires { at + 8 ≤ length cell.now }
    ensures { Eight cell.now at 8 result }
{
    let mut number: u64 = 0;
    for i in 0..8 {
        number |= u64::from(cell[at + i]) << (8 * i);
    }
    number
}

// The bits of a mask that are set at a place of the cell or 24 octets behind it.
fn either_half(cell: &[u8], at: usize, mask: u64) -> u64
    requires { at + 32 ≤ length cell.now }
    ensures { result ≡ 0 → Blank cell.now at mask × Blank cell.now (at + 24) mask }
{
    (eight(cell, at) & mask) | (eight(cell, at + 24) & mask)
}

// Whether a cell has no sample but zeros, whatever their marks: so silence is told by few instructions.
fn hushed(octet: u8, cell: &[u8]) -> bool
    requires { length cell.now ≡ 48 }
    ensures { result ≡ true → Clear (format_of octet) cell.now }
{
    let bits = masks_for(octet);
    let first = either_half(cell, 0, bits.first);
    let second = either_half(cell, 8, bits.second);
    let third = either_half(cell, 16, bits.third);
    first | second | third == 0
}

// Whether one of the cell's own samples is marked 0 and isn't zero. Not so where the state's settings are refused, or the cell
// isn't of 48 octets.
pub fn sounds(state: Receiver, cell: &[u8]) -> bool
    ensures { result ≡ sounds_of state cell.now }
{
    if cell.len() != 48 || hushed(state.format, cell) {
        return false;
    }
    let Ok(set) = formats::settings(
        state.format as u32,
        state.channels as u32,
        state.order as u32,
    ) else {
        return false;
    };
    let used = set.channels * set.times;
    among(set.format, cell, used)
}
