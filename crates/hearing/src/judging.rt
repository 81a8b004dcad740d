// A log's records judged in a row, from a place on: what the receiver says to each, with nothing unpacked.
ghost use Rattle.std.specs.Prelude.{◌≡◌, ◌+◌, ◌≤◌, length};
ghost use Rattle.runs.specs.Runs.{written};
ghost use Rattle.cell_log.specs.Records.{record_at};
ghost use Rattle.hearing.specs.Judging.{report_of, stop_of, judged_not, Judges, JudgesOn};

use crate::states;
use receiver::{Received, Receiver};

// The refusal of the call (0: none); the state to go on with, the next place, the records judged, and why it stopped.
#[derive(Clone, Copy, Debug, PartialEq, Eq, Hash)]
pub struct Judged {
    pub refusal: u8,
    pub state: Receiver,
    pub next: usize,
    pub records: usize,
    pub stop: u8,
}

// Puts the five octets of a record's answer at a place of the run.
fn put(reports: &mut [u8], place: usize, got: Received)
    requires { place + 5 ≤ length reports.old }
    ensures { reports.new ≡ written reports.old place (report_of got) }
{
    let told = u8::from(got.indication);
    reports[place..place + 5].copy_from_slice(&[
        got.refusal,
        got.missing,
        got.number,
        got.second,
        told,
    ]);
}

// Why a walk stops where this was found: no room for a record that is there, or what a single call would answer.
fn stop_at(log: &[u8], place: usize) -> u8
    ensures { result ≡ stop_of (record_at log.now place) }
{
    match cell_log::read_record(log, place) {
        Ok(Some(_)) => 10,
        Ok(None) => 0,
        Err(refusal) => refusal.into(),
    }
}

fn refused(refusal: u8, state: Receiver) -> Judged
    ensures { result ≡ judged_not refusal state }
{
    Judged {
        refusal,
        state,
        next: 0,
        records: 0,
        stop: 0,
    }
}

fn ended(state: Receiver, next: usize, records: usize, stop: u8) -> Judged
    ensures { result ≡ record { refusal = 0; state = state; next = next; records = records; stop = stop } }
{
    Judged {
        refusal: 0,
        state,
        next,
        records,
        stop,
    }
}

// The records from a place on, as far as there is room for five octets each.
fn walk(state: Receiver, log: &[u8], place: usize, reports: &mut [u8]) -> Judged
    ensures { JudgesOn state log.now place reports.old result reports.new }
{
    let most = reports.len() / 5;
    let mut now = state;
    let mut at = place;
    for records in 0..most {
        match cell_log::read_record(log, at) {
            Ok(Some(record)) => {
                let got = receiver::judged(now, cell_log::read_cell(log, at), record.indication);
                put(reports, 5 * records, got);
                now = got.state;
                at = record.next;
            }
            Ok(None) => return ended(now, at, records, 0),
            Err(refusal) => return ended(now, at, records, refusal.into()),
        }
    }
    ended(now, at, most, stop_at(log, at))
}

// Judges a log's records from a place on, in the order in which they stand, and writes five octets a record into `reports`, as
// many as have room; what stands past them stays. Refused: 1 to 4, and then the state comes back as it went in and nothing is written.
pub fn judge(state: Receiver, log: &[u8], place: usize, reports: &mut [u8]) -> Judged
    ensures { Judges state log.now place reports.old result reports.new }
{
    let refusal = states::refusal_of(state);
    if refusal != 0 {
        return refused(refusal, state);
    }
    walk(state, log, place, reports)
}
