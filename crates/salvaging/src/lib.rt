#![tactic(auto)]
// Salvage of a log that is taken in pieces, request 9: the new log, and what is said of it, as octets written into two lent runs.
ghost use Rattle.std.specs.Prelude.{◌≡◌};
ghost use Rattle.salvaging.specs.Taking.{start_of, end_tally, Takes, Ends};

use pieces::Standing;
use receiver::Receiver;
use text::Put;

mod lines; // lines.rt: the lines that are said
mod parts; // parts.rt: what is written of a log's parts, and the counts

// The receiver's state and what is known so far: the header's refusal (0: none), the octets of the header and of the whole records,
// the records kept, and those left out. The refusal stays a number: counts that come from C have any octet for it (`SalvageTaken`).
#[derive(Clone, Copy, Debug, PartialEq, Eq, Hash)]
pub struct Tally {
    pub state: Receiver,
    pub refusal: u8,
    pub taken: usize,
    pub kept: usize,
    pub left_out: usize,
}

// A salvage under way: where its log stands, the octets of the log so far, and the counts.
#[derive(Clone, Copy, Debug, PartialEq, Eq, Hash)]
pub struct Salvaging {
    pub standing: Standing,
    pub octets: usize,
    pub tally: Tally,
}

// What was written for a piece, of the new log and of the notes, and the salvage to go on with.
#[derive(Clone, Copy, Debug, PartialEq, Eq, Hash)]
pub struct Wrote {
    pub saved: Put,
    pub noted: Put,
    pub salvaging: Salvaging,
}

// A salvage before the first octet of a log. Its octets are counted in 64 bits; this is the only limit.
pub fn start() -> Salvaging
    ensures { result ≡ start_of }
{
    let standing = pieces::start(18446744073709551615);
    let tally = Tally {
        state: receiver::opened(0, 0, 0).state,
        refusal: 0,
        taken: 0,
        kept: 0,
        left_out: 0,
    };
    Salvaging {
        standing,
        octets: 0,
        tally,
    }
}

// Takes a piece of the log. Of what it makes whole the header and the sound records go into `out`, and a line for each record left
// out into `notes`, each from the run's start and as far as it goes: what is past its end is left out. The octets of a record that
// isn't whole yet are held in `held`. Octets behind a fault are counted and not read.
pub fn take(
    salvaging: Salvaging,
    held: &mut [u8; 49],
    piece: &[u8],
    out: &mut [u8],
    notes: &mut [u8],
) -> Wrote
    ensures { Takes salvaging held.old piece.now out.old notes.old result
        held.new out.new notes.new }
{
    let Salvaging {
        mut standing,
        octets,
        mut tally,
    } = salvaging;
    let mut saved = Put {
        octets: 0,
        whole: true,
    };
    let mut noted = Put {
        octets: 0,
        whole: true,
    };
    let mut place = 0;
    while place < piece.len() {
        let found = pieces::next(standing, held, piece, place);
        let stepped = parts::step(out, notes, saved, noted, tally, found, held, piece, place);
        standing = found.standing;
        tally = stepped.tally;
        saved = stepped.saved;
        noted = stepped.noted;
        place = found.next;
    }
    Wrote {
        saved,
        noted,
        salvaging: Salvaging {
            standing,
            octets: octets.wrapping_add(piece.len()),
            tally,
        },
    }
}

// The counts of a log that ends here: a header that isn't whole by then is refused.
fn ended(salvaging: Salvaging, held: [u8; 49]) -> Tally
    ensures { result ≡ end_tally salvaging held }
{
    let Salvaging {
        standing,
        tally,
        ..
    } = salvaging;
    if standing.stage == 0 {
        return Tally {
            refusal: pieces::end(standing, held),
            ..tally
        };
    }
    tally
}

// Writes the last line of a log that ends here: the counts, or the header's refusal.
pub fn end(salvaging: Salvaging, held: [u8; 49], notes: &mut [u8]) -> Put
    ensures { Ends salvaging held notes.old result notes.new }
{
    let start = Put {
        octets: 0,
        whole: true,
    };
    let tally = ended(salvaging, held);
    parts::last_line(notes, start, salvaging.octets, tally)
}
