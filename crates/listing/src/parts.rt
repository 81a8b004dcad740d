// The lines of a log's parts, and the counts behind them.
ghost use Rattle.std.specs.Prelude.{◌≡◌, ◌+◌, ◌≤◌, length, take};
ghost use Rattle.cell_log.specs.Records.{header_of};
ghost use Rattle.cell_log.specs.Answered.{header_answered};
ghost use Rattle.pieces.specs.Found.{number_of, numbered};
ghost use Rattle.pieces.specs.Steps.{found_parts};
ghost use Rattle.pieces.specs.Taken.{fault_part};
ghost use Rattle.text.specs.Put.{Puts};
ghost use Rattle.listing.specs.List.{line_of};
ghost use Rattle.listing.specs.Taking.{fresh_tally, judged_front, after_of, end_text, part_text, text_of, tally_of};

use crate::{Tally, lines};
use cell_log::Header;
use pieces::{Found, Standing, What};
use receiver::{Received, Receiver};
use text::Put;

// What was written, and the counts to go on with.
#[derive(Clone, Copy, Debug, PartialEq, Eq, Hash)]
pub(crate) struct Stepped {
    pub past: Put,
    pub tally: Tally,
}

fn header_of(held: [u8; 49]) -> Header
    ensures { header_answered (Ok result) ≡ record (header_of (take 3 held)) { refusal = 0 } }
{
    cell_log::header_numbers(&held[..3])
}

fn fresh(header: Header) -> Tally
    ensures { result ≡ fresh_tally (header_answered (Ok header)) }
{
    Tally {
        state: receiver::opened(header.format, header.channels, header.order).state,
        records: 0,
        sound: 0,
        missing: 0,
        refused: 0,
    }
}

// What the receiver says of the record that octets begin with.
fn judged_front(state: Receiver, octets: [u8; 49]) -> Received
    ensures { result ≡ judged_front state octets }
{
    receiver::judged(
        state,
        cell_log::read_cell(&octets, 0),
        cell_log::read_indication(&octets, 0),
    )
}

// The counts past a record that the receiver judged. No log is so long that one of them wraps.
#[tactic(auto, unfolding(crate::specs::Taking::after_of))]
fn after(tally: Tally, got: Received) -> Tally
    ensures { result ≡ after_of tally got }
{
    let past = Tally {
        state: got.state,
        records: tally.records.wrapping_add(1),
        ..tally
    };
    if got.refusal == 0 {
        return Tally {
            sound: tally.sound.wrapping_add(1),
            missing: tally.missing.wrapping_add(got.missing as usize),
            ..past
        };
    }
    Tally {
        refused: tally.refused.wrapping_add(1),
        ..past
    }
}

fn record_line(run: &mut [u8], at: Put, index: usize, got: Received) -> Put
    ensures { Puts run.old at run.new result (line_of index got) }
{
    if got.refusal == 0 {
        return lines::sound_line(run, at, index, got.missing as usize, got.number as usize);
    }
    lines::refused_line(run, at, index, got.refusal as usize)
}

// What ends the list of a log whose header was taken: the fault, where there is one, and the end line.
pub(crate) fn end_lines(run: &mut [u8], at: Put, tally: Tally, refusal: u8) -> Put
    ensures { Puts run.old at run.new result (end_text tally refusal) }
{
    if refusal == 0 {
        return lines::end_line(run, at, tally.sound, tally.missing, tally.refused);
    }
    let past = lines::broken_line(run, at, tally.records, refusal as usize);
    lines::end_line(run, past, tally.sound, tally.missing, tally.refused)
}

// The lines of a fault: the header's refusal, or what ends the list.
fn fault_lines(run: &mut [u8], at: Put, tally: Tally, standing: Standing) -> Put
    ensures { Puts run.old at run.new result (part_text tally (fault_part standing.stage standing.fault)) }
{
    if standing.stage == 2 {
        return lines::log_refused_line(run, at, standing.fault as usize);
    }
    end_lines(run, at, tally, standing.fault)
}

// The lines and the counts of what was found in a piece.
pub(crate) fn step(
    run: &mut [u8],
    at: Put,
    tally: Tally,
    found: Found,
    held: &[u8; 49],
    piece: &[u8],
    place: usize,
) -> Stepped
    requires { number_of found.what ≡ 2 → place + 49 ≤ length piece.now }
    ensures { Puts run.old at run.new result.past (text_of tally (found_parts (numbered found) held.now piece.now place))
        × (result.tally ≡ tally_of tally (found_parts (numbered found) held.now piece.now place)) }
{
    if let Some(octets) = pieces::octets_found(found.what, held, piece, place) {
        let got = judged_front(tally.state, octets);
        return Stepped {
            past: record_line(run, at, tally.records, got),
            tally: after(tally, got),
        };
    }
    match found.what {
        What::Header => {
            let header = header_of(*held);
            let past = lines::format_line(
                run,
                at,
                header.format as usize,
                header.channels as usize,
                header.order as usize,
            );
            Stepped {
                past,
                tally: fresh(header),
            }
        }
        What::Fault => Stepped {
            past: fault_lines(run, at, tally, found.standing),
            tally,
        },
        _ => Stepped { past: at, tally },
    }
}
