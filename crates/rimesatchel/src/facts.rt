// A format's facts for C, Rust and Python, by its subframe octet.
ghost use Rattle.std.specs.Prelude.{◌≡◌};
ghost use Rattle.formats.specs.Formats.{format_of};
ghost use Rattle.rimesatchel.specs.Facts.{format_numbers, format_refusal};

// What a subframe octet says. Returns the refusal, 0 where there is none, and writes sample bits, ancillary bits, overhead bits and
// slots; four zeros where it is refused.
pub fn rime_format(format: u32, facts: &mut [u32; 4]) -> u8
    ensures { (result ≡ format_refusal format) × (facts.new ≡ format_numbers (format_of format)) }
{
    let found = match formats::settings(format, 1, 0) {
        Ok(set) => set.format,
        Err(refusal) => {
            *facts = [0; 4];
            return refusal.into();
        }
    };
    *facts = [
        found.sample_bits as u32,
        found.ancillary_bits as u32,
        found.overhead_bits as u32,
        found.slots as u32,
    ];
    0
}
