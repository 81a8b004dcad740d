// The usual call: 56 hex in order 0 with one channel or two. It is answered as every call is, by fewer instructions: the settings are
// constants, and one loop reads a subframe, takes it apart and marks it.
ghost use Rattle.std.specs.Prelude.{true, ◌≡◌, length};
ghost use Rattle.formats.specs.Code.{is_usual};
ghost use Rattle.receiver.specs.Receiver.{judged_of, Receives};
ghost use Rattle.receiver.specs.Unpacking.{Unpacks, Fills, Room, Enters, straight};

use crate::{Received, Receiver, entries, judge, octets};

// Writes one entry to the three runs: a subframe with overhead, and the marks of its sample bits with each five low bits.
fn enter(
    subframe: u64,
    bits: u64,
    at: usize,
    samples: &mut [u64],
    ancillary: &mut [u8],
    marks: &mut [u8],
)
    requires { Room at 1 samples.old ancillary.old marks.old }
    ensures { Enters subframe bits at samples.old ancillary.old marks.old samples.new ancillary.new marks.new }
{
    samples[at] = subframe / 256;
    ancillary[at] = (subframe / 16 % 16) as u8;
    marks[at] = ((bits >> (subframe % 32)) % 2) as u8;
}

// Writes the cell's own entries, which are those of all slots, to the three runs from `at` on.
pub(crate) fn own_entries(
    cell: &[u8],
    at: usize,
    samples: &mut [u64],
    ancillary: &mut [u8],
    marks: &mut [u8],
)
    requires { (length cell.now ≡ 48) × Room at 12 samples.old ancillary.old marks.old }
    ensures { Unpacks straight cell.now at samples.old ancillary.old marks.old samples.new ancillary.new marks.new }
{
    for i in 0..12 {
        let subframe = octets::in4(cell, i * 4);
        let bits = tables::marks(subframe / 8388608);
        enter(subframe, bits, at + i, samples, ancillary, marks);
    }
}

// Writes `missing` entries of zero with mark 2 to the three runs, and the cell's own entries after them.
fn write(cell: &[u8], missing: usize, samples: &mut [u64], ancillary: &mut [u8], marks: &mut [u8])
    requires { (length cell.now ≡ 48) × Room missing 12 samples.old ancillary.old marks.old }
    ensures { Fills straight cell.now missing samples.old ancillary.old marks.old samples.new ancillary.new marks.new }
{
    entries::missing_entries(missing, samples, ancillary, marks);
    own_entries(cell, missing, samples, ancillary, marks);
}

// Takes a cell of a usual call.
pub(crate) fn receive(
    state: Receiver,
    cell: &[u8],
    indication: bool,
    samples: &mut [u64],
    ancillary: &mut [u8],
    marks: &mut [u8],
) -> Received
    requires { is_usual state.format state.channels state.order ≡ true }
    ensures { Receives state cell.now indication samples.old ancillary.old marks.old result samples.new ancillary.new marks.new }
{
    let set = formats::usual(state.channels == 2);
    let answer = judge::answered(
        set,
        state,
        cell,
        indication,
        samples.len(),
        ancillary.len(),
        marks.len(),
    );
    if answer.refusal != 0 {
        return answer;
    }
    let place = answer.missing as usize * 12;
    write(cell, place, samples, ancillary, marks);
    answer
}

// What a usual call is answered, with room for all that one call can write.
pub(crate) fn judged(state: Receiver, cell: &[u8], indication: bool) -> Received
    requires { is_usual state.format state.channels state.order ≡ true }
    ensures { result ≡ judged_of state cell.now indication }
{
    let set = formats::usual(state.channels == 2);
    judge::answered(set, state, cell, indication, 720, 720, 720)
}
