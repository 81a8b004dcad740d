// The calls of `rimesatchel::facts` for C: each calls the function of its name, and states its clauses again.
ghost use Rattle.std.specs.Prelude.{◌≡◌};
ghost use Rattle.formats.specs.Formats.{format_of};
ghost use Rattle.rimesatchel.specs.Facts.{format_numbers, format_refusal};

#[unsafe(no_mangle)]
pub extern "C" fn rime_format(format: u32, facts: &mut [u32; 4]) -> u8
    ensures { (result ≡ format_refusal format) × (facts.new ≡ format_numbers (format_of format)) }
{
    rimesatchel::facts::rime_format(format, facts)
}
