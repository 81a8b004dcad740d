// The calls of `rimesatchel::frames` for C: each calls the function of its name, and states its clauses again.
ghost use Rattle.rimesatchel.specs.Frames.{ImportedFrame, ExportedFrame};

#[unsafe(no_mangle)]
pub extern "C" fn rime_aes3_import(
    preambles: &[u8; 2],
    subframes: &[u32; 2],
    samples: &mut [u64; 2],
    ancillary: &mut [u8; 2],
) -> u8
    ensures { ImportedFrame preambles.now subframes.now result samples.new ancillary.new }
{
    rimesatchel::frames::rime_aes3_import(preambles, subframes, samples, ancillary)
}

#[unsafe(no_mangle)]
pub extern "C" fn rime_aes3_export(
    samples: &[u64; 2],
    ancillary: &[u8; 2],
    preambles: &mut [u8; 2],
    subframes: &mut [u32; 2],
) -> u8
    ensures { ExportedFrame samples.now ancillary.now result preambles.new subframes.new }
{
    rimesatchel::frames::rime_aes3_export(samples, ancillary, preambles, subframes)
}
