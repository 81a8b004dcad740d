#![tactic(auto)]
// A quarter's figures, request 3: one sheet over many logs, and the figures of one log that is taken in pieces.
ghost use Rattle.std.specs.Prelude.{◌≡◌, ◌*◌, ◌≤◌, eqb, length};
ghost use Rattle.figures.specs.Adding.{Adds, closed_of};
ghost use Rattle.figures.specs.Code.{capped, Fills};
ghost use Rattle.figures.specs.Figures.{counts_of};
ghost use Rattle.figures.specs.Sheets.{heard_in, sum_of, unlike, Sheets};
ghost use Rattle.figures.specs.Taking.{start_tally, Takes};
ghost use Rattle.figures.specs.Answered.{answered};

use pieces::Standing;
use receiver::Receiver;
use refusals::Refusal;

mod damage; // damage.rt: how many samples of a cell are marked 1
mod record; // record.rt: what the parts of a log count
mod rows; // rows.rt: the ten numbers of a row
mod stretch; // stretch.rt: records one behind the other, counted
mod sums; // sums.rt: counts added up
mod told; // told.rt: what the receiver makes of a cell

// What is counted of records, each number no further than 4,294,967,296, which is too many.
#[derive(Clone, Copy, Debug, Default, PartialEq, Eq, Hash)]
pub struct Counts {
    pub sound: u64,
    pub missing: u64,
    pub refused_8: u64,
    pub refused_9: u64,
    pub refused_15: u64,
    pub refused_20: u64,
    pub marked_0: u64,
    pub marked_1: u64,
    pub marked_2: u64,
}

// The receiver's state, and what was counted so far.
#[derive(Clone, Copy, Debug, PartialEq, Eq, Hash)]
pub struct Noted {
    pub state: Receiver,
    pub counts: Counts,
}

// The figures of a log under way: where it stands, and what was counted.
#[derive(Clone, Copy, Debug, PartialEq, Eq, Hash)]
pub struct Tally {
    pub standing: Standing,
    pub noted: Noted,
}

// The figures of a log before its first octet.
pub fn start() -> Tally
    ensures { result ≡ start_tally }
{
    let standing = pieces::start(u64::MAX);
    let opened = receiver::opened(0, 0, 0);
    let state = opened.state;
    let counts = Counts::default();
    let noted = Noted { state, counts };
    Tally { standing, noted }
}

// Takes a piece of the log and counts the records that it makes whole. The octets of a record that isn't whole yet are held in
// `held`. Behind a fault nothing is read.
pub fn take(tally: Tally, held: &mut [u8; 49], piece: &[u8]) -> Tally
    ensures { Takes tally held.old piece.now result held.new }
{
    let mut standing = tally.standing;
    let mut noted = tally.noted;
    let mut place = 0;
    while place < piece.len() {
        let most = stretch::at_once(noted.state);
        let stretch = pieces::stretch_at(standing, piece, place, most);
        if stretch.records == 0 {
            let found = pieces::next(standing, held, piece, place);
            noted = record::step(noted, found, held);
            standing = found.standing;
            place = found.next;
        } else {
            noted = stretch::counted(noted, piece, place, stretch.records);
            standing = stretch.standing;
            place = stretch.next;
        }
    }
    Tally { standing, noted }
}

// Counts the records of one log.
fn of_log(log: &[u8]) -> Counts
    ensures { result ≡ capped (counts_of (heard_in log.now)) }
{
    let mut held = [0u8; 49];
    let tally = take(start(), &mut held, log);
    tally.noted.counts
}

// Whether the lengths add up to so many octets. They are taken off what is left, so that no sum can wrap.
fn add_up(lengths: &[u64], octets: u64) -> bool
    ensures { result ≡ eqb (sum_of lengths.now) octets }
{
    let mut left = octets;
    for length in lengths {
        if left < *length {
            return false;
        }
        left -= *length;
    }
    left == 0
}

// 5, the lengths or the rows. There are at most 4,096 logs.
fn differ(octets: usize, lengths: &[u64], numbers: usize) -> bool
    requires { length lengths.now ≤ 4096 }
    ensures { result ≡ unlike octets lengths.now numbers }
{
    !add_up(lengths, octets as u64) || numbers != 10 * lengths.len()
}

// Counts log after log and writes each one's row.
fn fill(octets: &[u8], lengths: &[u64], rows: &mut [u32]) -> Counts
    requires { (sum_of lengths.now ≡ length octets.now) × (10 * length lengths.now ≤ length rows.old) }
    ensures { Fills octets.now lengths.now rows.old result rows.new }
{
    let mut totals = Counts::default();
    let mut at = 0;
    for (i, length) in lengths.iter().enumerate() {
        let end = at + *length as usize;
        let one = of_log(&octets[at..end]);
        totals = sums::plus(totals, one);
        rows::put(rows, 10 * i, rows::row_of(one));
        at = end;
    }
    totals
}

// One sheet over the logs that lie end to end in `octets`: a row of ten numbers for each, and one for all together. The rows are
// held until 19 is ruled out, so that a refusal writes nothing. The answer is the row of all logs together.
#[tactic(auto, unfolding(refusals::specs::Refusals::number_of))]
pub fn sheet(octets: &[u8], lengths: &[u64], rows: &mut [u32]) -> Result<[u32; 10], Refusal>
    ensures { Sheets octets.now lengths.now rows.old (answered result) rows.new }
{
    if 4096 < lengths.len() {
        return Err(Refusal::Logs);
    }
    if differ(octets.len(), lengths, rows.len()) {
        return Err(Refusal::Length);
    }
    let mut held = [0u32; 40960];
    let counts = fill(octets, lengths, &mut held);
    if sums::too_many(counts) {
        return Err(Refusal::Total);
    }
    rows::copy(rows, &held);
    Ok(rows::row_of(counts))
}

// Adds a log that is counted to a sheet under way: its row is written at its place, where the rows go so far, and its counts are
// added to the totals.
pub fn add(rows: &mut [u32], index: usize, totals: Counts, one: Counts) -> Counts
    ensures { Adds rows.old index totals one result rows.new }
{
    if index < rows.len() / 10 {
        let counted = sums::plus(Counts::default(), one);
        rows::put(rows, 10 * index, rows::row_of(counted));
    }
    sums::plus(totals, one)
}

// The row of all logs together, when the last one is added; or 19.
pub fn closed(totals: Counts) -> Result<[u32; 10], Refusal>
    ensures { answered result ≡ closed_of totals }
{
    if sums::too_many(totals) {
        return Err(Refusal::Total);
    }
    Ok(rows::row_of(totals))
}
