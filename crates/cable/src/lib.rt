#![tactic(auto)]
// Frames of an AES3 cable (source document 002, 2.2.1), request 1 of document 02: import into two entries of format 56 hex, and
// export back. A subframe is a number of 32 bits, time slot k being worth 2^k; a preamble is its letter's octet.
ghost use Rattle.std.specs.Prelude.{◌≡◌, ◌^◌, ◌≤◌, ◌<◌};
ghost use Rattle.refusals.specs.Refusals.{refused_by};
ghost use Rattle.cable.specs.Slots.{sample_in, ancillary_in, parity_of, subframe_of};
ghost use Rattle.cable.specs.Frames.{is_frame, begins_by, import_refusal, import_of, is_too_large, export_refusal, preamble_of, export_of};
ghost use Rattle.cable.specs.Answered.{import_answered, export_answered};

use refusals::Refusal;

// A frame on the cable: the preambles and subframes of its first and its second half.
#[derive(Clone, Copy, Debug, PartialEq, Eq, Hash)]
pub struct Frame {
    pub preambles: [u8; 2],
    pub subframes: [u32; 2],
}

// The samples and ancillary numbers of a frame's first and its second half, apart as the runs of a cell are.
#[derive(Clone, Copy, Debug, PartialEq, Eq, Hash)]
pub struct Entries {
    pub samples: [u64; 2],
    pub ancillary: [u8; 2],
}

// The count of ones in time slots 4 to 31, modulo 2.
#[tactic(auto, unfolding(crate::specs::Slots::parity_of))]
fn parity_of(subframe: u32) -> u32
    ensures { result ≡ parity_of subframe }
{
    (subframe >> 4).count_ones() % 2
}

// The audio sample: time slots 4 to 27, of which 4 is the low bit.
#[tactic(auto, using(crate::proofs::Laws::sample_is))]
fn sample_in(subframe: u32) -> u64
    ensures { result ≡ sample_in subframe }
{
    u64::from((subframe >> 4) % 0x100_0000)
}

// The ancillary number: B worth 8, and C, U and V as they stand in time slots 30, 29 and 28.
#[tactic(auto, using(crate::proofs::Laws::ancillary_is))]
fn ancillary_in(begins: u8, subframe: u32) -> u8
    requires { begins ≤ 1 }
    ensures { result ≡ ancillary_in begins subframe }
{
    begins * 8 + ((subframe >> 28) % 8) as u8
}

// B of both halves, by the preamble of the first: 1 for Z, which begins a block.
#[tactic(auto, unfolding(crate::specs::Frames::begins_by))]
fn begins_by(preamble: u8) -> u8
    ensures { (result ≡ begins_by preamble) × (result ≤ 1) }
{
    u8::from(preamble == b'Z')
}

// Whether the preambles of the two halves are X then Y, or Z then Y.
#[tactic(auto, unfolding(crate::specs::Frames::is_frame))]
fn is_frame(first: u8, second: u8) -> bool
    ensures { result ≡ is_frame first second }
{
    matches!((first, second), (b'X' | b'Z', b'Y'))
}

// Preambles that aren't those of a frame, then odd parity in either half.
#[tactic(auto, unfolding(crate::proofs::Unfolded::refusals))]
fn import_checked(preambles: [u8; 2], subframes: [u32; 2]) -> Result<(), Refusal>
    ensures { refused_by result ≡ import_refusal preambles subframes }
{
    if !is_frame(preambles[0], preambles[1]) {
        return Err(Refusal::Preambles);
    }
    if parity_of(subframes[0]) == 1 || parity_of(subframes[1]) == 1 {
        return Err(Refusal::Parity);
    }
    Ok(())
}

// A frame from the cable. Z then Y begins a block for both channels, so that B is 1 in both.
pub fn import_frame(frame: Frame) -> Result<Entries, Refusal>
    ensures { import_answered result ≡ import_of frame.preambles frame.subframes }
{
    let Frame {
        preambles,
        subframes,
    } = frame;
    import_checked(preambles, subframes)?;
    let begins = begins_by(preambles[0]);
    let [first, second] = subframes;
    Ok(Entries {
        samples: [sample_in(first), sample_in(second)],
        ancillary: [ancillary_in(begins, first), ancillary_in(begins, second)],
    })
}

// A subframe with slots 0 to 3 as 0: the sample in time slots 4 to 27, V, U and C in 28 to 30, and what makes the parity even in 31.
#[tactic(auto, using(crate::proofs::Laws::subframe_is))]
fn subframe_of(sample: u64, ancillary: u8) -> u32
    requires { sample < 2 ^ 24 }
    ensures { result ≡ subframe_of sample ancillary }
{
    let carried = sample as u32 + u32::from(ancillary % 8) * 0x100_0000;
    let parity = carried.count_ones() % 2;
    (carried + parity * 0x800_0000) * 16
}

// The first half's preamble, by B of both halves.
#[tactic(auto, unfolding(crate::specs::Frames::preamble_of))]
fn preamble_of(begins: u8) -> u8
    ensures { result ≡ preamble_of begins }
{
    if begins == 1 { b'Z' } else { b'X' }
}

// Whether a sample has more than 24 bits, or an ancillary number is above 15.
#[tactic(auto, unfolding(crate::specs::Frames::is_too_large))]
fn is_too_large(sample: u64, ancillary: u8) -> bool
    ensures { result ≡ is_too_large sample ancillary }
{
    0xFF_FFFF < sample || 15 < ancillary
}

// A number too large in either half, then B bits that differ.
#[tactic(auto, unfolding(crate::proofs::Unfolded::refusals))]
fn export_checked(entries: Entries) -> Result<(), Refusal>
    ensures { refused_by result ≡ export_refusal entries.samples entries.ancillary }
{
    let Entries { samples, ancillary } = entries;
    if is_too_large(samples[0], ancillary[0]) || is_too_large(samples[1], ancillary[1]) {
        return Err(Refusal::Sample);
    }
    if ancillary[0] / 8 != ancillary[1] / 8 {
        return Err(Refusal::Blocks);
    }
    Ok(())
}

// A frame for the cable: Z then Y where B is 1 in both halves, X then Y where it is 0 in both.
pub fn export_frame(entries: Entries) -> Result<Frame, Refusal>
    ensures { export_answered result ≡ export_of entries.samples entries.ancillary }
{
    export_checked(entries)?;
    let Entries { samples, ancillary } = entries;
    Ok(Frame {
        preambles: [preamble_of(ancillary[0] / 8), b'Y'],
        subframes: [
            subframe_of(samples[0], ancillary[0]),
            subframe_of(samples[1], ancillary[1]),
        ],
    })
}
