#![tactic(auto)]
// Salvage of a log, request 9: a new log with the same header and the records that a fresh receiver with room answers as sound,
// beside it a list of the records left out.
ghost use Rattle.std.specs.Prelude.{[], ◌∷◌, ◌≡◌, ◌+◌, ◌≤◌, ◌<◌, eqb, length};
ghost use Rattle.runs.specs.Runs.{written};
ghost use Rattle.cell_log.specs.Records.{header_of};
ghost use Rattle.reading.specs.Reading.{fresh_of};
ghost use Rattle.saving.specs.Code.{not_saved, start_of, after_of, Counts, Fits, PutsOne, Room, Writes};
ghost use Rattle.saving.specs.Salvage.{salvage_refusal, Salvages};

use receiver::{Received, Receiver};

// The refusal (0: none); the octets of the new log, the records left out, and the octets cut, all zero where it is refused.
#[derive(Clone, Copy, Debug, PartialEq, Eq, Hash)]
pub struct Salvaged {
    pub refusal: u8,
    pub octets: usize,
    pub left_out: usize,
    pub cut: usize,
}

// Where a walk through a log stands: the place, the records kept and left out so far, and the receiver's state.
#[derive(Clone, Copy, Debug, PartialEq, Eq, Hash)]
struct Standing {
    pub place: usize,
    pub kept: usize,
    pub left_out: usize,
    pub state: Receiver,
}

// Past a record that the receiver judged.
#[tactic(auto, unfolding(crate::specs::Code::after_of))]
fn after(here: Standing, next: usize, got: Received) -> Standing
    requires { here.kept + here.left_out < here.place }
    ensures { result ≡ after_of here next got }
{
    let past = Standing {
        place: next,
        state: got.state,
        ..here
    };
    if got.refusal == 0 {
        return Standing {
            kept: here.kept + 1,
            ..past
        };
    }
    Standing {
        left_out: here.left_out + 1,
        ..past
    }
}

// Before the first record behind a header, which is three octets.
fn start(state: Receiver) -> Standing
    ensures { result ≡ start_of state }
{
    Standing {
        place: 3,
        kept: 0,
        left_out: 0,
        state,
    }
}

// Two walks, this and `write`, as neither output may be written where one is too short: in one with a closure for what is done of each
// record the proof would know nothing of what the closure wrote.
// Counts the records, and stops at the first framing fault or the end.
fn count(log: &[u8], state: Receiver) -> Standing
    requires { 3 ≤ length log.now }
    ensures { Counts log.now state result }
{
    let mut here = start(state);
    while let Ok(Some(record)) = cell_log::read_record(log, here.place) {
        let got = receiver::judged(
            here.state,
            cell_log::read_cell(log, here.place),
            record.indication,
        );
        here = after(here, record.next, got);
    }
    here
}

// Whether there is room for the new log and the list: of so many octets and so many numbers. Where a copy of the log and a list of
// all its records would fit, nothing need be counted.
fn has_room(log: &[u8], state: Receiver, out: usize, list: usize) -> bool
    requires { ((header_of log.now).refusal ≡ 0) × (state ≡ fresh_of (header_of log.now)) }
    ensures { result ≡ eqb (salvage_refusal log.now out list) 0 }
{
    let size = log.len();
    if size <= out && size / 49 * 2 <= list {
        return true;
    }
    let counted = count(log, state);
    3 + 49 * counted.kept <= out && 2 * counted.left_out <= list
}

// Two numbers at a place of a lent list.
fn put_two(list: &mut [u64], place: usize, first: u64, second: u64)
    requires { place + 2 ≤ length list.old }
    ensures { list.new ≡ written list.old place (first ∷ second ∷ []) }
{
    list[place..place + 2].copy_from_slice(&[first, second]);
}

// Puts a record where it belongs: a sound one into the new log, another into the list.
fn put(out: &mut [u8], list: &mut [u64], here: Standing, refusal: u8, indication: bool, cell: &[u8])
    requires { Fits (length out.old) (length list.old) here refusal cell.now }
    ensures { PutsOne out.old list.old here refusal indication cell.now out.new
        list.new }
{
    if refusal == 0 {
        let _ = cell_log::keep::write_record(out, 3 + 49 * here.kept, indication, cell);
        return;
    }
    let index = here.kept + here.left_out;
    put_two(list, 2 * here.left_out, index as u64, refusal as u64);
}

// Writes the records that are kept, and the list, where there is room for all of both.
fn write(log: &[u8], state: Receiver, out: &mut [u8], list: &mut [u64]) -> Standing
    requires { Room log.now state (length out.old) (length list.old) }
    ensures { Counts log.now state result × Writes log.now state out.old list.old
        out.new list.new }
{
    let mut here = start(state);
    while let Ok(Some(record)) = cell_log::read_record(log, here.place) {
        let cell = cell_log::read_cell(log, here.place);
        let got = receiver::judged(here.state, cell, record.indication);
        put(out, list, here, got.refusal, record.indication, cell);
        here = after(here, record.next, got);
    }
    here
}

fn refused(refusal: u8) -> Salvaged
    ensures { result ≡ not_saved refusal }
{
    Salvaged {
        refusal,
        octets: 0,
        left_out: 0,
        cut: 0,
    }
}

// Writes the new log into `out` and the list of the whole records left out into `list`, two numbers each: the record, counted
// from 0, and its refusal. What is past them stays. Refused: 11, 1, 2, 3 as the header is, then 21 where either is shorter than
// what goes into it; then neither is written.
pub fn salvage(log: &[u8], out: &mut [u8], list: &mut [u64]) -> Salvaged
    ensures { Salvages log.now out.old list.old result out.new list.new }
{
    let header = match cell_log::read_header(log) {
        Ok(header) => header,
        Err(refusal) => return refused(refusal.into()),
    };
    let opened = receiver::opened(header.format, header.channels, header.order);
    let state = opened.state;
    if !has_room(log, state, out.len(), list.len()) {
        return refused(21);
    }
    let _ = cell_log::keep::write_header(out, header.format, header.channels, header.order);
    let end = write(log, state, out, list);
    Salvaged {
        refusal: 0,
        octets: 3 + 49 * end.kept,
        left_out: end.left_out,
        cut: log.len() - end.place,
    }
}
