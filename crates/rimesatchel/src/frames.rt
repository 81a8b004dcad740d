// Frames of an AES3 cable for C, Rust and Python, one a call: each puts the answer of the proved function into lent arrays.
ghost use Rattle.rimesatchel.specs.Frames.{ImportedFrame, ExportedFrame};

use cable::{Entries, Frame};

// A frame from the cable: the refusal (0, or 16, 17), and the two samples and ancillary numbers, zeros where it is refused.
pub fn rime_aes3_import(
    preambles: &[u8; 2],
    subframes: &[u32; 2],
    samples: &mut [u64; 2],
    ancillary: &mut [u8; 2],
) -> u8
    ensures { ImportedFrame preambles.now subframes.now result samples.new ancillary.new }
{
    let frame = Frame {
        preambles: *preambles,
        subframes: *subframes,
    };
    match cable::import_frame(frame) {
        Ok(entries) => {
            let both = entries.samples;
            let beside = entries.ancillary;
            *samples = both;
            *ancillary = beside;
            0
        }
        Err(refusal) => {
            *samples = [0; 2];
            *ancillary = [0; 2];
            refusal.into()
        }
    }
}

// A frame for the cable: the refusal (0, or 6, 29), and the two preambles and subframes, zeros where it is refused.
pub fn rime_aes3_export(
    samples: &[u64; 2],
    ancillary: &[u8; 2],
    preambles: &mut [u8; 2],
    subframes: &mut [u32; 2],
) -> u8
    ensures { ExportedFrame samples.now ancillary.now result preambles.new subframes.new }
{
    let entries = Entries {
        samples: *samples,
        ancillary: *ancillary,
    };
    match cable::export_frame(entries) {
        Ok(frame) => {
            let letters = frame.preambles;
            let halves = frame.subframes;
            *preambles = letters;
            *subframes = halves;
            0
        }
        Err(refusal) => {
            *preambles = [0; 2];
            *subframes = [0; 2];
            refusal.into()
        }
    }
}
