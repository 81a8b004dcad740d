#![tactic(auto)]
// What `sheet` prints, request 3: one table over many logs, which come in pieces, from files or on standard input, where each log
// stands after its length. When all are taken, the table's lines are written one by one into a lent run.
ghost use Rattle.std.specs.Prelude.{◌≡◌, ◌==◌};
ghost use Rattle.table.specs.Table.{Prints};
ghost use Rattle.figures.specs.Sheets.{refused_by};
ghost use Rattle.table.specs.Taking.{start_of, opened_of, end_as, refused_end, ended_of, line_of, EndsLog, Steps, Takes};

use figures::{Counts, Tally};
use logs::Step;
use text::Put;

mod lines; // lines.rt: the lines of a table
mod logs; // logs.rt: logs after their lengths

// Logs on standard input, one after the other, each after its length: the refusal so far (0: none), how many logs are whole, how
// many octets are left of the one that is read (0: between two logs), how many digits are read of a length, and their number.
#[derive(Clone, Copy, Debug, PartialEq, Eq, Hash)]
pub struct Input {
    pub refusal: u8,
    pub logs: usize,
    pub left: u64,
    pub digits: u8,
    pub number: u64,
}

// A sheet under way: where its input stands, the log that is counted, and the totals of the logs before it.
#[derive(Clone, Copy, Debug, PartialEq, Eq, Hash)]
pub struct Sheet {
    pub input: Input,
    pub tally: Tally,
    pub totals: Counts,
}

// A sheet at its end: its refusal (0: none) and the row of all logs together, how many logs, and how many lines.
#[derive(Clone, Copy, Debug, PartialEq, Eq, Hash)]
pub struct Ended {
    pub refusal: u8,
    pub totals: [u32; 10],
    pub logs: usize,
    pub lines: usize,
}

// A sheet before the first octet of so many files: 18 for more than 4,096. On standard input nobody knows how many logs come: 0.
pub fn start(files: usize) -> Sheet
    ensures { result ≡ start_of files }
{
    let tally = figures::start();
    Sheet {
        input: logs::first(files),
        tally,
        totals: tally.noted.counts,
    }
}

// The log of a file begins. Its length isn't known: more octets are taken to be left than any file has.
pub fn open_log(sheet: Sheet) -> Sheet
    ensures { result ≡ opened_of sheet }
{
    Sheet {
        input: Input {
            left: u64::MAX,
            ..sheet.input
        },
        ..sheet
    }
}

// Whether more octets could change the sheet: not behind a refusal.
pub fn reads_on(sheet: Sheet) -> bool
    ensures { result ≡ (sheet.input.refusal == 0) }
{
    sheet.input.refusal == 0
}

// Adds the log that is counted, which ends here, writes its row, and keeps where it stopped. The next one may begin. 18 for a log
// behind the 4,096th.
pub fn next_log(sheet: Sheet, held: [u8; 49], rows: &mut [u32], kept: &mut [u64]) -> Sheet
    ensures { EndsLog sheet held rows.old kept.old result rows.new kept.new }
{
    let input = sheet.input;
    let noted = sheet.tally.noted;
    let stop = stops::of(sheet.tally.standing, held);
    stops::keep(kept, input.logs, stop);
    let totals = figures::add(rows, input.logs, sheet.totals, noted.counts);
    Sheet {
        input: logs::next(input),
        tally: figures::start(),
        totals,
    }
}

// Counts octets of a log, with the input behind them. Where the log is whole it is added.
#[tactic(auto, unfolding(crate::specs::Taking::settled_of))]
fn stepped(
    sheet: Sheet,
    step: Step,
    held: &mut [u8; 49],
    rows: &mut [u32],
    kept: &mut [u64],
    octets: &[u8],
) -> Sheet
    ensures { Steps sheet step held.old rows.old kept.old octets.now result
        held.new rows.new kept.new }
{
    let counted = Sheet {
        input: step.input,
        tally: figures::take(sheet.tally, held, octets),
        ..sheet
    };
    if step.whole {
        return next_log(counted, *held, rows, kept);
    }
    counted
}

// Takes a piece of standard input, digits of a length or octets of a log, or a piece of a file. The octets of a record that isn't
// whole yet are held in `held`; each log that is whole has its row written into `rows`, and where it stopped into `kept`. Behind a
// refusal nothing is read.
pub fn take(
    sheet: Sheet,
    held: &mut [u8; 49],
    rows: &mut [u32],
    kept: &mut [u64],
    piece: &[u8],
) -> Sheet
    ensures { Takes sheet held.old rows.old kept.old piece.now result
        held.new rows.new kept.new }
{
    let mut going = sheet;
    let mut place = 0;
    while place < piece.len() {
        let step = logs::ahead(going.input, piece[place], piece.len() - place);
        let end = place + step.octets;
        going = stepped(going, step, held, rows, kept, &piece[place..end]);
        place += step.used;
    }
    going
}

fn refused(refusal: u8) -> Ended
    ensures { end_as result ≡ refused_end (refused_by refusal) }
{
    Ended {
        refusal,
        totals: [0; 10],
        logs: 0,
        lines: 1,
    }
}

// A sheet whose logs end here. 5 where standard input ends within a length or a log; then 19.
#[tactic(auto, unfolding(crate::specs::Taking::ended_of, crate::specs::Taking::closed_end))]
pub fn end(sheet: Sheet) -> Ended
    ensures { end_as result ≡ ended_of sheet }
{
    let refusal = logs::last(sheet.input);
    if refusal != 0 {
        return refused(refusal);
    }
    let logs = sheet.input.logs;
    match figures::closed(sheet.totals) {
        Ok(totals) => Ended {
            refusal: 0,
            totals,
            logs,
            lines: logs.wrapping_add(2),
        },
        Err(refusal) => refused(refusal.into()),
    }
}

// Writes a line of the table, counted from 0: the names, the logs, all together; or the one line of a sheet that is refused.
#[tactic(auto, unfolding(crate::specs::Taking::line_of))]
pub fn line(run: &mut [u8], ended: Ended, rows: &[u32], index: usize) -> Put
    ensures { Prints run.old result run.new (line_of (end_as ended) rows.now index) }
{
    if ended.refusal != 0 {
        return lines::refused_line(run, ended.refusal);
    }
    if index == 0 {
        return lines::names_line(run);
    }
    if index <= ended.logs {
        return lines::log_line(run, rows, index - 1);
    }
    lines::all_line(run, &ended.totals)
}
