// The lines of a table, each from the start of a lent run.
ghost use Rattle.std.specs.Prelude.{◌≡◌, true, ◌++◌};
ghost use Rattle.text.specs.Put.{Puts};
ghost use Rattle.text.specs.Words.{words};
ghost use Rattle.table.specs.Table.{cells_of, Prints, names_line, log_line, all_line, refused_line};
ghost use Rattle.table.specs.Taking.{row_at};

use text::Put;

// The numbers of a row, each behind a comma, and the line's end.
fn put_row(run: &mut [u8], at: Put, row: &[u32]) -> Put
    ensures { Puts run.old at run.new result (cells_of row.now ++ words "\n") }
{
    let mut past = at;
    for number in row {
        past = text::put_item(run, past, b",", *number as usize);
    }
    text::put_all(run, past, b"\n")
}

fn from_start() -> Put
    ensures { result ≡ record { octets = 0; whole = true } }
{
    Put {
        octets: 0,
        whole: true,
    }
}

// The line of names.
pub(crate) fn names_line(run: &mut [u8]) -> Put
    ensures { Prints run.old result run.new names_line }
{
    let start = from_start();
    text::put_all(
        run,
        start,
        b"log,sound,missing,refused 8,refused 9,refused 15,refused 20,marked 0,marked 1,marked 2,missing per million\n",
    )
}

// The line of a log, counted from 0, whose row is at its place among the rows; without numbers where there is no such place.
pub(crate) fn log_line(run: &mut [u8], rows: &[u32], log: usize) -> Put
    ensures { Prints run.old result run.new (log_line log (row_at rows.now log)) }
{
    let start = from_start();
    let past = text::put_number(run, start, log);
    if rows.len() / 10 <= log {
        return put_row(run, past, &rows[..0]);
    }
    let at = 10 * log;
    let end = at + 10;
    put_row(run, past, &rows[at..end])
}

// The line of all logs together.
pub(crate) fn all_line(run: &mut [u8], row: &[u32]) -> Put
    ensures { Prints run.old result run.new (all_line row.now) }
{
    let start = from_start();
    let past = text::put_all(run, start, b"all");
    put_row(run, past, row)
}

// The one line of a sheet that is refused.
pub(crate) fn refused_line(run: &mut [u8], refusal: u8) -> Put
    ensures { Prints run.old result run.new (refused_line refusal) }
{
    let start = from_start();
    let past = text::put_item(run, start, b"sheet refused ", refusal as usize);
    text::put_all(run, past, b"\n")
}
