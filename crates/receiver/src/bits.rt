// Sequencing bits: the cell's number and its second number.
ghost use Rattle.std.specs.Prelude.{◌≡◌, ◌<◌, length};
ghost use Rattle.formats.specs.Formats.{format_of};
ghost use Rattle.formats.specs.Sound.{Sound};
ghost use Rattle.cells.specs.Cells.{bit_in, eight_in};
ghost use Rattle.receiver.specs.Receiver.{found_now, second_now};
ghost use Rattle.receiver.specs.declared.Receiver.{Receiver};

use formats::Format;

// The sequencing bit of a slot.
fn bit_in(format: Format, cell: &[u8], slot: usize) -> u8
    requires { Sound format × (length cell.now ≡ 48) × (slot < format.slots) }
    ensures { (result ≡ bit_in format cell.now slot) × (result < 2) }
{
    let width = format.width;
    cell[(slot + 1) * width - 1] / 8 % 2
}

// The first eight sequencing bits.
pub(crate) fn eight_in(format: Format, cell: &[u8]) -> u8
    requires { Sound format × (length cell.now ≡ 48) }
    ensures { result ≡ eight_in format cell.now }
{
    let mut eight: u8 = 0;
    for slot in 0..8 {
        eight = eight % 128 * 2 + bit_in(format, cell, slot);
    }
    eight
}

// What the cell's number is found to be in a state of this format: 0 where the format has no overhead.
#[inline(always)]
pub(crate) fn found_now(format: Format, cell: &[u8]) -> Option<u8>
    requires { Sound format × (length cell.now ≡ 48) }
    ensures { (st : Receiver) → format ≡ format_of st.format → result ≡ found_now st cell.now }
{
    if format.overhead_bits == 0 {
        return Some(0);
    }
    numbers::number_of(eight_in(format, cell))
}

// The cell's second number in a state of this format, 0 where there is none.
#[tactic(auto, unfolding(crate::specs::Receiver::second_now, cells::specs::Cells::second_in))]
pub(crate) fn second_now(format: Format, cell: &[u8]) -> u8
    requires { Sound format × (length cell.now ≡ 48) }
    ensures { (st : Receiver) → format ≡ format_of st.format → result ≡ second_now st cell.now }
{
    if format.overhead_bits == 0 || format.slots < 12 {
        return 0;
    }
    bit_in(format, cell, 8)
        + bit_in(format, cell, 9) * 2
        + bit_in(format, cell, 10) * 4
        + bit_in(format, cell, 11) * 8
}
