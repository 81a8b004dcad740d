// What is written of a log's parts, and the counts behind them.
ghost use Rattle.std.specs.Prelude.{◌≡◌, ◌+◌, ◌-◌, ◌≤◌, length, take};
ghost use Rattle.cell_log.specs.Records.{header_of};
ghost use Rattle.cell_log.specs.Written.{record_octets};
ghost use Rattle.cell_log.specs.Answered.{header_answered};
ghost use Rattle.reading.specs.Records.{front_of};
ghost use Rattle.pieces.specs.Limit.{whole};
ghost use Rattle.pieces.specs.Found.{number_of, numbered};
ghost use Rattle.pieces.specs.Steps.{found_parts};
ghost use Rattle.pieces.specs.Taken.{fault_part};
ghost use Rattle.text.specs.Put.{Puts};
ghost use Rattle.salvaging.specs.Taking.{fresh_tally, after_of, part_tally, head_octets, last_text, Tells, TellsOne};

use crate::{Tally, lines};
use cell_log::Header;
use listing::lines::{log_refused_line, refused_line};
use pieces::{Found, Standing, What};
use receiver::Received;
use text::{Put, put_all};

// What was written so far, and the counts to go on with.
#[derive(Clone, Copy, Debug, PartialEq, Eq, Hash)]
pub(crate) struct Stepped {
    pub saved: Put,
    pub noted: Put,
    pub tally: Tally,
}

fn header_of(held: [u8; 49]) -> Header
    ensures { header_answered (Ok result) ≡ record (header_of (take 3 held)) { refusal = 0 } }
{
    cell_log::header_numbers(&held[..3])
}

fn fresh(header: Header) -> Tally
    ensures { result ≡ fresh_tally (header_answered (Ok header)) }
{
    Tally {
        state: receiver::opened(header.format, header.channels, header.order).state,
        refusal: 0,
        taken: 3,
        kept: 0,
        left_out: 0,
    }
}

// The counts past a record that the receiver judged. No log is so long that one of them wraps.
#[tactic(auto, unfolding(crate::specs::Taking::after_of))]
fn after(tally: Tally, got: Received) -> Tally
    ensures { result ≡ after_of tally got }
{
    let past = Tally {
        state: got.state,
        taken: tally.taken.wrapping_add(49),
        ..tally
    };
    if got.refusal == 0 {
        return Tally {
            kept: tally.kept.wrapping_add(1),
            ..past
        };
    }
    Tally {
        left_out: tally.left_out.wrapping_add(1),
        ..past
    }
}

// The counts past a fault: the header's refusal is kept, and behind a broken record nothing changes.
#[tactic(auto, unfolding(crate::specs::Taking::part_tally))]
fn past_fault(tally: Tally, standing: Standing) -> Tally
    ensures { result ≡ part_tally tally (fault_part standing.stage standing.fault) }
{
    if standing.stage == 2 {
        return Tally {
            refusal: standing.fault,
            ..tally
        };
    }
    tally
}

// A header that was taken: each of its numbers is one octet.
fn put_header(out: &mut [u8], at: Put, header: Header) -> Put
    ensures { Puts out.old at out.new result (head_octets (header_answered (Ok header))) }
{
    let octets = [
        (header.format % 256) as u8,
        (header.channels % 256) as u8,
        (header.order % 256) as u8,
    ];
    put_all(out, at, &octets)
}

fn put_record(out: &mut [u8], at: Put, indication: bool, cell: &[u8]) -> Put
    ensures { Puts out.old at out.new result (record_octets indication cell.now) }
{
    let past = put_all(out, at, &[u8::from(indication)]);
    put_all(out, past, cell)
}

// A record, which is the first one of octets: a sound one goes into the new log, a line of another into the notes.
fn record_step(
    out: &mut [u8],
    notes: &mut [u8],
    saved: Put,
    noted: Put,
    tally: Tally,
    octets: [u8; 49],
) -> Stepped
    ensures { TellsOne tally (whole (front_of octets)) out.old saved out.new result.saved
        notes.old noted notes.new result.noted result.tally }
{
    let indication = cell_log::read_indication(&octets, 0);
    let cell = cell_log::read_cell(&octets, 0);
    let got = receiver::judged(tally.state, cell, indication);
    let counted = after(tally, got);
    if got.refusal == 0 {
        return Stepped {
            saved: put_record(out, saved, indication, cell),
            noted,
            tally: counted,
        };
    }
    let index = tally.kept.wrapping_add(tally.left_out);
    Stepped {
        saved,
        noted: refused_line(notes, noted, index, got.refusal as usize),
        tally: counted,
    }
}

// What is written, and the counts, of what was found in a piece.
pub(crate) fn step(
    out: &mut [u8],
    notes: &mut [u8],
    saved: Put,
    noted: Put,
    tally: Tally,
    found: Found,
    held: &[u8; 49],
    piece: &[u8],
    place: usize,
) -> Stepped
    requires { number_of found.what ≡ 2 → place + 49 ≤ length piece.now }
    ensures { Tells tally (found_parts (numbered found) held.now piece.now place) out.old saved
        out.new result.saved notes.old noted notes.new result.noted result.tally }
{
    if let Some(octets) = pieces::octets_found(found.what, held, piece, place) {
        return record_step(out, notes, saved, noted, tally, octets);
    }
    match found.what {
        What::Header => {
            let header = header_of(*held);
            Stepped {
                saved: put_header(out, saved, header),
                noted,
                tally: fresh(header),
            }
        }
        What::Fault => Stepped {
            saved,
            noted,
            tally: past_fault(tally, found.standing),
        },
        _ => Stepped {
            saved,
            noted,
            tally,
        },
    }
}

// What is said last: the header's refusal, or the counts. Cut are the octets of a log that are neither its header's nor a whole
// record's.
pub(crate) fn last_line(notes: &mut [u8], at: Put, octets: usize, tally: Tally) -> Put
    ensures { Puts notes.old at notes.new result (last_text octets tally) }
{
    if tally.refusal != 0 {
        return log_refused_line(notes, at, tally.refusal as usize);
    }
    let cut = octets.saturating_sub(tally.taken);
    lines::end_line(notes, at, tally.kept, tally.left_out, cut)
}
