#![tactic(auto)]
// A log taken in pieces, request 14: what turns pieces of any length into the header and the records of the log. The octets of a
// part that isn't whole yet are held in an array that the caller lends.
ghost use Rattle.std.specs.Prelude.{◌≡◌, ◌+◌, ◌-◌, ◌<◌, ◌≤◌, length, take, drop};
ghost use Rattle.cell_log.specs.Records.{header_of};
ghost use Rattle.pieces.specs.Found.{number_of, numbered};
ghost use Rattle.pieces.specs.Steps.{
  start_of,
  taking_of,
  fault_found,
  header_found,
  record_found,
  whole_found,
  begins_above,
  lies_whole,
  Steps,
  is_record,
  in_piece,
  found_octets,
  octets_found,
};
ghost use Rattle.pieces.specs.Stretch.{stretch_of, past_stretch};
ghost use Rattle.pieces.specs.Taken.{end_fault};

mod ahead; // ahead.rt: how many whole records lie ahead

// Where a log stands. Its stage: 0 in the header, 1 among the records, 2 the header is refused, 3 a record is broken; the
// refusal, 0 before that; how many octets are held; how many octets the limit leaves, in the header those of the whole log;
// how many records were handed out.
// The stage and the refusal stay numbers: a standing that comes from C has any octet for each, and the calls give it back (`ListTaken`).
#[derive(Clone, Copy, Debug, PartialEq, Eq, Hash)]
pub struct Standing {
    pub stage: u8,
    pub fault: u8,
    pub count: usize,
    pub left: u64,
    pub records: u64,
}

// What was found at a place of a piece.
#[derive(Clone, Copy, Debug, PartialEq, Eq, Hash)]
pub enum What {
    // nothing that is whole
    Nothing,
    // the header, which is the first three octets held
    Header,
    // a record in the piece, at this place
    InPiece,
    // a record, which is the octets held
    Held,
    Fault,
}

// Its number, as the definitions have it.
impl From<What> for u8 {
    ghost from_gives = { λ what number. number ≡ number_of what };

    fn from(what: What) -> u8 {
        what as u8
    }
}

// What was found, the place to go on at, and the standing there.
#[derive(Clone, Copy, Debug, PartialEq, Eq, Hash)]
pub struct Found {
    pub what: What,
    pub next: usize,
    pub standing: Standing,
}

// Before the first octet of a log that may have `limit` octets.
pub fn start(limit: u64) -> Standing
    ensures { result ≡ start_of limit }
{
    Standing {
        stage: 0,
        fault: 0,
        count: 0,
        left: limit,
        records: 0,
    }
}

fn fault_found(standing: Standing, stage: u8, fault: u8, end: usize) -> Found
    ensures { numbered result ≡ fault_found standing stage fault end }
{
    Found {
        what: What::Fault,
        next: end,
        standing: Standing {
            stage,
            fault,
            count: 0,
            ..standing
        },
    }
}

// The refusal of the header that octets begin with (0: none).
fn header_refusal(octets: &[u8]) -> u8
    ensures { result ≡ (header_of octets.now).refusal }
{
    match cell_log::read_header(octets) {
        Ok(_) => 0,
        Err(refusal) => refusal.into(),
    }
}

// What the header's newest octet makes of it. It is held already.
#[tactic(auto, unfolding(crate::specs::Steps::header_found))]
fn header_found(standing: Standing, held: [u8; 49], next: usize, end: usize) -> Found
    ensures { numbered result ≡ header_found standing held next end }
{
    let count = standing.count % 9;
    if count == 2 && header_refusal(&held[..3]) == 0 {
        return Found {
            what: What::Header,
            next,
            standing: Standing {
                stage: 1,
                count: 0,
                left: standing.left.saturating_sub(3),
                ..standing
            },
        };
    }
    if count == 8 {
        return fault_found(standing, 2, header_refusal(&held[..9]), end);
    }
    Found {
        what: What::Nothing,
        next,
        standing: Standing {
            stage: 0,
            count: count + 1,
            ..standing
        },
    }
}

// What a record's newest octet makes of it. It is held already.
#[tactic(auto, unfolding(crate::specs::Steps::record_found))]
fn record_found(standing: Standing, next: usize) -> Found
    requires { 0 < standing.left }
    ensures { numbered result ≡ record_found standing next }
{
    let count = standing.count % 49;
    let left = standing.left - 1;
    if count == 48 {
        return Found {
            what: What::Held,
            next,
            standing: Standing {
                stage: 1,
                count: 0,
                left,
                records: standing.records.wrapping_add(1),
                ..standing
            },
        };
    }
    Found {
        what: What::Nothing,
        next,
        standing: Standing {
            stage: 1,
            count: count + 1,
            left,
            ..standing
        },
    }
}

// A record that lies whole in the piece.
fn whole_found(standing: Standing, next: usize) -> Found
    requires { 49 ≤ standing.left }
    ensures { numbered result ≡ whole_found standing next }
{
    Found {
        what: What::InPiece,
        next,
        standing: Standing {
            stage: 1,
            count: 0,
            left: standing.left - 49,
            records: standing.records.wrapping_add(1),
            ..standing
        },
    }
}

// 11 at once: an octet above 1 that begins a record.
#[tactic(auto, unfolding(crate::specs::Steps::begins_above))]
fn begins_above(count: usize, octet: u8) -> bool
    ensures { result ≡ begins_above count octet }
{
    count == 0 && 1 < octet
}

// Whether a record begins here and lies whole in what is ahead, and within the limit.
#[tactic(auto, unfolding(crate::specs::Steps::lies_whole))]
fn lies_whole(count: usize, ahead: usize, left: u64) -> bool
    ensures { result ≡ lies_whole count ahead left }
{
    count == 0 && 49 <= ahead && 49 <= left
}

// Goes on at a place of a piece, and stops where something is whole or an octet more is held. A caller goes on with `next` until the
// piece ends. A record that lies whole in the piece is handed out as a place in it; octets of another one go into `held`. Behind a
// fault nothing is read: the place to go on at is then the piece's end. A place at the piece's end or past it finds nothing.
#[tactic(auto, using(crate::proofs::Laws::lies_facts), unfolding(crate::specs::Steps::next_of, crate::specs::Steps::held_now))]
pub fn next(standing: Standing, held: &mut [u8; 49], piece: &[u8], place: usize) -> Found
    ensures { Steps standing held.old piece.now place (numbered result) held.new }
{
    let end = piece.len();
    if end <= place {
        return Found {
            what: What::Nothing,
            next: place,
            standing,
        };
    }
    let octet = piece[place];
    let past = place + 1;
    if standing.stage == 0 {
        let header_count = standing.count % 9;
        held[header_count] = octet;
        let octets = *held;
        return header_found(standing, octets, past, end);
    }
    if standing.stage != 1 {
        return Found {
            what: What::Nothing,
            next: end,
            standing,
        };
    }
    if standing.left == 0 {
        return fault_found(standing, 3, 13, end);
    }
    let count = standing.count % 49;
    if begins_above(count, octet) {
        return fault_found(standing, 3, 11, end);
    }
    if lies_whole(count, end - place, standing.left) {
        return whole_found(standing, place + 49);
    }
    held[count] = octet;
    record_found(standing, past)
}

// The refusal at the log's end (0: none): a header that isn't taken by then, or 12 for a record that is cut. A fault that was found
// before isn't told again.
#[tactic(auto, unfolding(crate::specs::Taken::end_fault, crate::specs::Steps::taking_of, crate::specs::Steps::held_count))]
pub fn end(standing: Standing, held: [u8; 49]) -> u8
    ensures { result ≡ end_fault (taking_of standing held) }
{
    if standing.stage == 0 {
        let count = standing.count % 9;
        return header_refusal(&held[..count]);
    }
    if standing.stage != 1 || standing.count % 49 == 0 {
        return 0;
    }
    12
}

// Whether this is the number of a kind that is a record.
#[tactic(auto, unfolding(crate::specs::Steps::is_record))]
pub fn is_record(what: u8) -> bool
    ensures { result ≡ is_record what }
{
    what == 2 || what == 3
}

// Whether it is that of a record in the piece, and one lies in a piece of this size, at this place.
#[tactic(auto, unfolding(crate::specs::Steps::in_piece))]
fn in_piece(what: u8, size: usize, place: usize) -> bool
    ensures { result ≡ in_piece what size place }
{
    what == 2 && 49 <= size && place <= size - 49
}

// A record that lies in a piece, as an array.
fn copied(piece: &[u8], place: usize) -> [u8; 49]
    requires { place + 49 ≤ length piece.now }
    ensures { result ≡ take 49 (drop place piece.now) }
{
    let mut octets = [0u8; 49];
    octets.copy_from_slice(&piece[place..place + 49]);
    octets
}

// The octets of a record whose kind has this number: those in the piece, or else those held.
#[tactic(auto, using(crate::proofs::Laws::in_room), unfolding(crate::specs::Steps::found_octets))]
pub fn record_octets(what: u8, held: &[u8; 49], piece: &[u8], place: usize) -> [u8; 49]
    ensures { result ≡ found_octets what held.now piece.now place }
{
    if in_piece(what, piece.len(), place) {
        return copied(piece, place);
    }
    *held
}

// The octets of a record, where one was found. With them in one array a caller handles a record in one place of the program: what is
// called in two isn't compiled into its loop.
pub fn octets_found(what: What, held: &[u8; 49], piece: &[u8], place: usize) -> Option<[u8; 49]>
    ensures { result ≡ octets_found (number_of what) held.now piece.now place }
{
    let number = what.into();
    if is_record(number) {
        Some(record_octets(number, held, piece, place))
    } else {
        None
    }
}

// Whole records that lie one behind the other in a piece: how many, the place behind them, and the standing there.
#[derive(Clone, Copy, Debug, PartialEq, Eq, Hash)]
pub struct Stretch {
    pub records: usize,
    pub next: usize,
    pub standing: Standing,
}

// Goes past the whole records that lie one behind the other from a place of a piece on, at most so many, so that a caller can take
// them in one go. Each of them is one that `next` finds in the piece. There is none where no record begins at the place.
pub fn stretch_at(standing: Standing, piece: &[u8], place: usize, most: usize) -> Stretch
    ensures { result ≡ past_stretch standing place (length (stretch_of most standing piece.now place)) }
{
    let records = ahead::whole_ahead(standing, piece, place, most);
    if records == 0 {
        return Stretch {
            records: 0,
            next: place,
            standing,
        };
    }
    let octets = 49 * records;
    let next = place + octets;
    let left = standing.left - octets as u64;
    Stretch {
        records,
        next,
        standing: Standing {
            stage: 1,
            count: 0,
            left,
            records: standing.records.wrapping_add(records as u64),
            ..standing
        },
    }
}
