#![tactic(auto)]
// The list of a log, document 01, "The log", and request 14: what `linelist` prints of a log that it takes in pieces, as octets
// written into a lent run.
ghost use Rattle.std.specs.Prelude.{◌≡◌, nat_lt};
ghost use Rattle.listing.specs.Taking.{start_of, Takes, Ends};

use pieces::Standing;
use receiver::Receiver;
use text::Put;

pub mod lines; // lines.rt: the lines of a list
mod parts; // parts.rt: the lines of a log's parts, and the counts

// The receiver's state and the counts so far: whole records, and the three of the end line.
#[derive(Clone, Copy, Debug, PartialEq, Eq, Hash)]
pub struct Tally {
    pub state: Receiver,
    pub records: usize,
    pub sound: usize,
    pub missing: usize,
    pub refused: usize,
}

// A list under way: where its log stands, and the counts.
#[derive(Clone, Copy, Debug, PartialEq, Eq, Hash)]
pub struct Listing {
    pub standing: Standing,
    pub tally: Tally,
}

// What was written for a piece, and the list to go on with.
#[derive(Clone, Copy, Debug, PartialEq, Eq, Hash)]
pub struct Printed {
    pub listed: Put,
    pub listing: Listing,
}

// A list before the first octet of a log that may have `limit` octets.
pub fn start(limit: u64) -> Listing
    ensures { result ≡ start_of limit }
{
    let standing = pieces::start(limit);
    let tally = Tally {
        state: receiver::opened(0, 0, 0).state,
        records: 0,
        sound: 0,
        missing: 0,
        refused: 0,
    };
    Listing { standing, tally }
}

// "It shall take a log of up to 4,294,967,295 octets": a list before the first octet of a log, as `linelist` makes it.
pub fn start_longest() -> Listing
    ensures { result ≡ start_of 4294967295 }
{
    start(4294967295)
}

// Whether more octets of the log could change the list: not behind a fault.
pub fn reads_on(listing: Listing) -> bool
    ensures { result ≡ nat_lt listing.standing.stage 2 }
{
    listing.standing.stage < 2
}

// Takes a piece of the log and writes the lines that it makes whole into the run, from its start, as far as it goes: what is past
// its end is left out. The octets of a record that isn't whole yet are held in `held`. Behind a fault nothing is read or written.
pub fn take(listing: Listing, held: &mut [u8; 49], piece: &[u8], run: &mut [u8]) -> Printed
    ensures { Takes listing held.old piece.now run.old result held.new run.new }
{
    let Listing {
        mut standing,
        mut tally,
    } = listing;
    let mut past = Put {
        octets: 0,
        whole: true,
    };
    let mut place = 0;
    while place < piece.len() {
        let found = pieces::next(standing, held, piece, place);
        let stepped = parts::step(run, past, tally, found, held, piece, place);
        standing = found.standing;
        tally = stepped.tally;
        // field by field: a copy of the whole struct waits for its last bytes, which nobody reads
        let told = stepped.past;
        past = Put {
            octets: told.octets,
            whole: told.whole,
        };
        place = found.next;
    }
    Printed {
        listed: past,
        listing: Listing { standing, tally },
    }
}

// Writes what ends the list of a log that ends here: nothing where a fault ended it before.
pub fn end(listing: Listing, held: [u8; 49], run: &mut [u8]) -> Put
    ensures { Ends listing held run.old result run.new }
{
    let start = Put {
        octets: 0,
        whole: true,
    };
    let Listing { standing, tally } = listing;
    let refusal = pieces::end(standing, held);
    if standing.stage == 0 {
        lines::log_refused_line(run, start, refusal as usize)
    } else if standing.stage == 1 {
        parts::end_lines(run, start, tally, refusal)
    } else {
        start
    }
}
