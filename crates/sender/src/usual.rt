// The usual call: 56 hex in order 0 with one channel or two, and runs of the right length. It is answered as any other call is, at
// less cost: the settings are constants, and the protection bits of a sample are one load from a table of the program.
ghost use Rattle.std.specs.Prelude.{◌≡◌, true, false, length};
ghost use Rattle.formats.specs.Settings.{settled_as};
ghost use Rattle.sender.specs.Packing.{Packable, Named, filled_to, Usual, Writes};
ghost use Rattle.sender.specs.Sender.{second_now};

use crate::fill::guarded;
use crate::octets::put_four;
use crate::{Sender, judge};
use formats::Layout;

// Whether a call is usual.
pub(crate) fn is_usual(state: Sender, samples: usize, ancillary: usize) -> bool
    ensures { result ≡ true → Usual state samples }
{
    samples == 12 && ancillary == 12 && formats::is_usual(state.format, state.channels, state.order)
}

// All slots of the cell: none is unused.
// A loop beside `fill`: with the protection bits as a closure's answer, one loop for both takes more instructions.
pub(crate) fn fill_usual(
    set: Layout,
    sequence: u64,
    samples: &[u64],
    ancillary: &[u8],
    cell: &mut [u8],
)
    requires { Packable (settled_as set) samples.now ancillary.now × (set.by_channel ≡ false) × Named set.format 24 4 4 4 × (length cell.old ≡ 48) × (length samples.now ≡ 12) }
    ensures { cell.new ≡ filled_to (settled_as set) sequence samples.now ancillary.now cell.old (length samples.now) }
{
    for slot in 0..12 {
        let bit = (sequence >> slot) % 2;
        let sample = samples[slot];
        let guard = tables::protection(sample / 32768);
        let number = guarded(24, 4, sample, guard, u64::from(ancillary[slot]), bit);
        put_four(cell, slot * 4, number);
    }
}

// Writes the next cell of a usual call, or gives its refusal.
pub(crate) fn write_usual(
    state: Sender,
    indication: bool,
    second: u8,
    samples: &[u64],
    ancillary: &[u8],
    cell: &mut [u8],
) -> u8
    requires { Usual state (length samples.now) × (second ≡ second_now state indication) }
    ensures { Writes state indication samples.now ancillary.now cell.old result cell.new }
{
    let set = formats::usual(state.channels == 2);
    let refusal = judge::send_refusal(set, state, indication, samples, ancillary, cell.len());
    if refusal != 0 {
        return refusal;
    }
    let sequence = numbers::sequence_of(state.number, second);
    fill_usual(set, sequence, samples, ancillary, cell);
    0
}
