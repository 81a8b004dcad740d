// Many records of a log in a call, for C, Rust and Python.
ghost use Rattle.rimesatchel.specs.Batches.{JudgedOctets, ReceivedLogOctets};

use crate::boxes::{receiver_octets, receiver_of};

// Judges a log's records from a place on, and writes five octets a record. Returns the refusal, 0 where there is none, and writes the
// next place, the records judged and why it stopped; three zeros where it is refused, 1 to 4, and then state and run are as they were.
pub fn rime_judge_log(
    state: &mut [u8; 9],
    log: &[u8],
    place: usize,
    reports: &mut [u8],
    counts: &mut [u64; 3],
) -> u8
    ensures { JudgedOctets state.old log.now place reports.old result state.new
        reports.new counts.new }
{
    let lent = *state;
    let judged = hearing::judging::judge(receiver_of(lent), log, place, reports);
    *counts = [
        judged.next as u64,
        judged.records as u64,
        judged.stop as u64,
    ];
    let refusal = judged.refusal;
    if refusal != 0 {
        return refusal;
    }
    let next = judged.state;
    *state = receiver_octets(next);
    0
}

// Receives a log's records from a place on, and writes their entries into three runs, each cell's behind the last one's. Returns the
// refusal, 0 where there is none, and writes the next place, the entries written, why it stopped, cells taken, missing before them, and
// refused by 8, by 9, by 15, by 20; nine zeros where it is refused, 1 to 5, and then state and runs are as they were.
pub fn rime_receive_log(
    state: &mut [u8; 9],
    log: &[u8],
    place: usize,
    samples: &mut [u64],
    ancillary: &mut [u8],
    marks: &mut [u8],
    counts: &mut [u64; 9],
) -> u8
    ensures { ReceivedLogOctets state.old log.now place samples.old ancillary.old
        marks.old result state.new samples.new ancillary.new marks.new counts.new }
{
    let lent = *state;
    let batch = hearing::receiving::receive(
        receiver_of(lent),
        log,
        place,
        samples,
        ancillary,
        marks,
    );
    *counts = [
        batch.next as u64,
        batch.entries as u64,
        batch.stop as u64,
        batch.taken as u64,
        batch.missing as u64,
        batch.refused_8 as u64,
        batch.refused_9 as u64,
        batch.refused_15 as u64,
        batch.refused_20 as u64,
    ];
    let refusal = batch.refusal;
    if refusal != 0 {
        return refusal;
    }
    let next = batch.state;
    *state = receiver_octets(next);
    0
}
