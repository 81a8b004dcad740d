// A quarter's figures for C, Rust and Python: one sheet over many logs.
ghost use Rattle.rimesatchel.specs.Sheets.{DrawsUp};

// Draws up a sheet over logs that lie end to end: the refusal (0, or 18, 5, 19), ten numbers a log in `rows`, and the same ten of all
// logs together in `totals`. A refused sheet leaves the rows as they were, and the totals are zeros.
pub fn rime_sheet(octets: &[u8], lengths: &[u64], rows: &mut [u32], totals: &mut [u32; 10]) -> u8
    ensures { DrawsUp octets.now lengths.now rows.old result rows.new totals.new }
{
    match figures::sheet(octets, lengths, rows) {
        Ok(row) => {
            *totals = row;
            0
        }
        Err(refusal) => {
            *totals = [0; 10];
            refusal.into()
        }
    }
}
