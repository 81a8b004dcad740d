// A search through the parts of a log: what is known behind each of them.
ghost use Rattle.std.specs.Prelude.{◌≡◌, ◌+◌, ◌≤◌, length, take};
ghost use Rattle.cell_log.specs.Records.{header_of};
ghost use Rattle.reading.specs.Records.{front_of};
ghost use Rattle.pieces.specs.Found.{number_of, numbered};
ghost use Rattle.pieces.specs.Steps.{found_parts};
ghost use Rattle.pieces.specs.Taken.{fault_part};
ghost use Rattle.presence.specs.Taking.{fresh_sought, past_record, past_part, sought_of};

use crate::{Sought, sounds};
use pieces::{Found, Standing, What};

// Past the record that octets begin with. No log is so long that its number wraps.
fn past_front(sought: Sought, octets: [u8; 49]) -> Sought
    ensures { result ≡ past_record sought (front_of octets) }
{
    if sought.found {
        return sought;
    }
    let said = sounds::heard(
        sought.state,
        cell_log::read_cell(&octets, 0),
        cell_log::read_indication(&octets, 0),
    );
    if said.sounds {
        return Sought {
            state: said.state,
            found: true,
            ..sought
        };
    }
    Sought {
        state: said.state,
        number: sought.number.wrapping_add(1),
        ..sought
    }
}

// Past the header that is held.
fn past_header(held: [u8; 49]) -> Sought
    ensures { result ≡ fresh_sought (header_of (take 3 held)) }
{
    let header = cell_log::header_numbers(&held[..3]);
    Sought {
        state: receiver::opened(header.format, header.channels, header.order).state,
        refusal: 0,
        found: false,
        number: 0,
    }
}

// Past a fault: the header's refusal is kept, and behind a broken record nothing changes.
#[tactic(auto, unfolding(crate::specs::Taking::past_part))]
fn past_fault(sought: Sought, standing: Standing) -> Sought
    ensures { result ≡ past_part sought (fault_part standing.stage standing.fault) }
{
    if standing.stage == 2 {
        return Sought {
            refusal: standing.fault,
            ..sought
        };
    }
    sought
}

// Past what was found in a piece.
pub(crate) fn step(
    sought: Sought,
    found: Found,
    held: &[u8; 49],
    piece: &[u8],
    place: usize,
) -> Sought
    requires { number_of found.what ≡ 2 → place + 49 ≤ length piece.now }
    ensures { result ≡ sought_of sought (found_parts (numbered found) held.now piece.now place) }
{
    if let Some(octets) = pieces::octets_found(found.what, held, piece, place) {
        return past_front(sought, octets);
    }
    match found.what {
        What::Header => past_header(*held),
        What::Fault => past_fault(sought, found.standing),
        _ => sought,
    }
}
