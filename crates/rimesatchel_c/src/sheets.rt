// The calls of `rimesatchel::sheets` for C: each calls the function of its name, and states its clauses again.
ghost use Rattle.rimesatchel.specs.Sheets.{DrawsUp};

#[unsafe(no_mangle)]
pub extern "C" fn rime_sheet(
    octets: &[u8],
    lengths: &[u64],
    rows: &mut [u32],
    totals: &mut [u32; 10],
) -> u8
    ensures { DrawsUp octets.now lengths.now rows.old result rows.new totals.new }
{
    rimesatchel::sheets::rime_sheet(octets, lengths, rows, totals)
}
