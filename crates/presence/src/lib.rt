#![tactic(auto)]
// Is there anything on it at all? Request 7: whether a log holds a sample marked 0 that isn't zero, and in which record first.
ghost use Rattle.std.specs.Prelude.{◌≡◌, true, false};
ghost use Rattle.cell_log.specs.Answered.{header_answered};
ghost use Rattle.presence.specs.Line.{Writes};
ghost use Rattle.presence.specs.Presence.{presence_of, read_from};
ghost use Rattle.presence.specs.Taking.{search_start, reads_on, Takes, answer_at_end};

use cell_log::Header;
use pieces::Standing;
use receiver::Receiver;
use text::Put;

mod parts; // parts.rt: a log's parts one after the other
mod sounds; // sounds.rt: what one record says

// The refusal of the header (0: none); whether there is a sample marked 0 that isn't zero; for a yes the first record with one,
// counted from 0, for a no how many whole records were read. All else is zero where the header is refused.
// The refusal stays a number: a search that comes from C has any octet for it, and `SearchEnded` gives it back.
#[derive(Clone, Copy, Debug, PartialEq, Eq, Hash)]
pub struct Presence {
    pub refusal: u8,
    pub found: bool,
    pub number: usize,
}

// Reads records from the place behind an accepted header on, and stops at the first that says yes.
fn records(log: &[u8], header: Header) -> Presence
    ensures { result ≡ read_from (header_answered (Ok header)) log.now }
{
    let opened = receiver::opened(header.format, header.channels, header.order);
    let mut state = opened.state;
    let mut place = header.place;
    let mut number = 0;
    while let Ok(Some(record)) = cell_log::read_record(log, place) {
        let said = sounds::heard(state, cell_log::read_cell(log, place), record.indication);
        if said.sounds {
            return Presence {
                refusal: 0,
                found: true,
                number,
            };
        }
        state = said.state;
        place = record.next;
        number += 1;
    }
    Presence {
        refusal: 0,
        found: false,
        number,
    }
}

// Reads the records of a log up to the first framing fault or the end, as a fresh receiver with room hands them out, and stops at
// the first with a sample marked 0 that isn't zero. Refused: 11, 1, 2, 3, as the header is.
pub fn anything(log: &[u8]) -> Presence
    ensures { result ≡ presence_of log.now }
{
    match cell_log::read_header(log) {
        Ok(header) => records(log, header),
        Err(refusal) => Presence {
            refusal: refusal.into(),
            found: false,
            number: 0,
        },
    }
}

// What is known behind a part of a log: the receiver's state, and the answer so far. Until a record says yes its number is how
// many whole records were read.
#[derive(Clone, Copy, Debug, PartialEq, Eq, Hash)]
pub struct Sought {
    pub state: Receiver,
    pub refusal: u8,
    pub found: bool,
    pub number: usize,
}

// A search under way: where its log stands, and what is known.
#[derive(Clone, Copy, Debug, PartialEq, Eq, Hash)]
pub struct Search {
    pub standing: Standing,
    pub sought: Sought,
}

// A search before the first octet of a log of any length.
pub fn start() -> Search
    ensures { result ≡ search_start }
{
    let standing = pieces::start(18446744073709551615);
    let sought = Sought {
        state: receiver::opened(0, 0, 0).state,
        refusal: 0,
        found: false,
        number: 0,
    };
    Search { standing, sought }
}

// "It should stop at the first one": whether more octets of the log could change the answer. Not behind a yes, nor behind a fault.
#[tactic(auto, unfolding(crate::specs::Taking::reads_on))]
pub fn reads_on(search: Search) -> bool
    ensures { result ≡ reads_on search }
{
    !search.sought.found && search.standing.stage < 2
}

// Takes a piece of the log. The octets of a record that isn't whole yet are held in `held`. Behind a yes no record is judged, and
// behind a fault nothing is read.
pub fn take(search: Search, held: &mut [u8; 49], piece: &[u8]) -> Search
    ensures { Takes search held.old piece.now result held.new }
{
    let Search {
        mut standing,
        mut sought,
    } = search;
    let mut place = 0;
    while place < piece.len() {
        let found = pieces::next(standing, held, piece, place);
        sought = parts::step(sought, found, held, piece, place);
        standing = found.standing;
        place = found.next;
    }
    Search { standing, sought }
}

// The answer for a log that ends here: whatever its pieces were, it is that of the whole log.
pub fn end(search: Search, held: [u8; 49]) -> Presence
    ensures { result ≡ answer_at_end search held }
{
    let Search { standing, sought } = search;
    let refusal = if standing.stage == 0 {
        pieces::end(standing, held)
    } else {
        sought.refusal
    };
    Presence {
        refusal,
        found: sought.found,
        number: sought.number,
    }
}

// Writes the answer's line into the run, from its start, as far as it goes: `yes K`, `no N` or `log refused r`. What is past it
// stays.
pub fn put_line(presence: Presence, run: &mut [u8]) -> Put
    ensures { Writes presence run.old result run.new }
{
    let start = Put {
        octets: 0,
        whole: true,
    };
    if presence.refusal != 0 {
        return text::put_line(run, start, b"log refused ", presence.refusal as usize);
    }
    if presence.found {
        return text::put_line(run, start, b"yes ", presence.number);
    }
    text::put_line(run, start, b"no ", presence.number)
}
