// What the parts of a log count that are held in a lent array: its header, and a record that doesn't lie whole in a piece.
ghost use Rattle.std.specs.Prelude.{[], ◌≡◌, take};
ghost use Rattle.cell_log.specs.Records.{header_of};
ghost use Rattle.cell_log.specs.Answered.{header_answered};
ghost use Rattle.reading.specs.Records.{front_of};
ghost use Rattle.pieces.specs.Limit.{head, whole};
ghost use Rattle.pieces.specs.Found.{number_of, numbered};
ghost use Rattle.pieces.specs.Steps.{found_parts};
ghost use Rattle.figures.specs.Code.{no_counts, capped};
ghost use Rattle.figures.specs.Figures.{plus_of};
ghost use Rattle.figures.specs.Taking.{part_noted, noted_by};

use crate::{Counts, Noted, stretch, sums};
use cell_log::Header;
use pieces::{Found, What};

// Past octets that begin with no record: nothing counts.
fn passed_over(noted: Noted) -> Noted
    ensures { result ≡ record { state = noted.state; counts = capped (plus_of noted.counts no_counts) } }
{
    let counts = sums::plus(noted.counts, Counts::default());
    Noted { counts, ..noted }
}

// Past the record that octets begin with. None begins with an octet above 1.
fn counted(noted: Noted, octets: [u8; 49]) -> Noted
    ensures { result ≡ part_noted noted (whole (front_of octets)) }
{
    if 1 < octets[0] {
        return passed_over(noted);
    }
    stretch::counted(noted, &octets, 0, 1)
}

fn header_of(held: [u8; 49]) -> Header
    ensures { header_answered (Ok result) ≡ record (header_of (take 3 held)) { refusal = 0 } }
{
    cell_log::header_numbers(&held[..3])
}

// Past the header that is held.
fn begun(noted: Noted, held: [u8; 49]) -> Noted
    ensures { result ≡ part_noted noted (head (header_of (take 3 held))) }
{
    let header = header_of(held);
    let opened = receiver::opened(header.format, header.channels, header.order);
    Noted {
        state: opened.state,
        counts: noted.counts,
    }
}

// Past what was found in a piece that begins with no stretch of records: a record is found then only in what is held.
pub(crate) fn step(noted: Noted, found: Found, held: &[u8; 49]) -> Noted
    requires { number_of found.what ≡ 2 → ⊥ }
    ensures { result ≡ noted_by noted (found_parts (numbered found) held.now [] 0) }
{
    // two tests, in the place of a `match` that would copy all counts for each octet held
    if let What::Held = found.what {
        return counted(noted, *held);
    }
    if let What::Header = found.what {
        return begun(noted, *held);
    }
    noted
}
