// Writing a log for C, Rust and Python, and the list of one. Each call puts the answer of the proved function into lent memory.
ghost use Rattle.std.specs.Prelude.{◌≡◌, ◌≤◌, length};
ghost use Rattle.cell_log.specs.Written.{Keeps, header_refused_of, header_octets, record_refusal, record_octets};
ghost use Rattle.rimesatchel.specs.Kept.{kept_as, EndsFrom, ListedOctets};

use listing::Listing;
use text::Put;

// Writes a header at the start of a log. Returns the refusal, 0 where there is none, and writes the place after it; 0 where it is
// refused, and then the log is as it was.
pub fn rime_log_put_header(
    log: &mut [u8],
    format: u32,
    channels: u32,
    order: u32,
    next: &mut u64,
) -> u8
    ensures { Keeps (header_refused_of log.old format channels order) 0 (header_octets format channels order)
        log.old (kept_as result next.new) log.new }
{
    match cell_log::keep::write_header(log, format, channels, order) {
        Ok(place) => {
            *next = place as u64;
            0
        }
        Err(refusal) => {
            *next = 0;
            refusal.into()
        }
    }
}

// Writes a record at a place of a log. Returns the refusal, 0 where there is none, and writes the place after it; 0 where it is
// refused, and then the log is as it was.
pub fn rime_log_put_record(
    log: &mut [u8],
    place: usize,
    cell: &[u8],
    indication: bool,
    next: &mut u64,
) -> u8
    ensures { Keeps (record_refusal log.old place cell.now) place
        (record_octets indication cell.now) log.old (kept_as result next.new) log.new }
{
    match cell_log::keep::write_record(log, place, indication, cell) {
        Ok(place) => {
            *next = place as u64;
            0
        }
        Err(refusal) => {
            *next = 0;
            refusal.into()
        }
    }
}

// Writes what ends a list, from a place of the run on.
fn rest(listing: Listing, held: [u8; 49], run: &mut [u8], at: usize) -> Put
    requires { at ≤ length run.old }
    ensures { EndsFrom listing held run.old at result run.new }
{
    listing::end(listing, held, &mut run[at..])
}

// Writes the list of a log into a run, from its start, as far as it goes. Writes how many octets that is, and 1 where it is the
// whole list, 0 where not. Refuses nothing, and returns 0: a log that can't be read has a list that says so.
pub fn rime_log_list(log: &[u8], run: &mut [u8], listed: &mut [u64; 2]) -> u8
    ensures { ListedOctets log.now run.old result run.new listed.new }
{
    let mut held = [0u8; 49];
    let begun = listing::start(4294967295);
    let printed = listing::take(begun, &mut held, log, run);
    let lines = printed.listed;
    let end = rest(printed.listing, held, run, lines.octets);
    let all = lines.octets + end.octets;
    let whole = lines.whole && end.whole;
    *listed = [all as u64, whole as u64];
    0
}
