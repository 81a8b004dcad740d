// Many cells sent into a log in a call, for C, Rust and Python.
ghost use Rattle.rimesatchel.specs.Many.{SentManyOctets};

use crate::boxes::{sender_octets, sender_of};

// Sends cell after cell, and writes the record of each into the log from a place on. Returns the refusal, 0 where there is none, and
// writes the next place, the entries taken, why it stopped and the cells; four zeros where it is refused, 1 to 5, and then state and
// log are as they were.
pub fn rime_send_log(
    state: &mut [u8; 7],
    indications: bool,
    samples: &[u64],
    ancillary: &[u8],
    log: &mut [u8],
    place: usize,
    counts: &mut [u64; 4],
) -> u8
    ensures { SentManyOctets state.old indications samples.now ancillary.now log.old
        place result state.new log.new counts.new }
{
    let lent = *state;
    let sent = sender::many::send(sender_of(lent), indications, samples, ancillary, log, place);
    *counts = [
        sent.next as u64,
        sent.entries as u64,
        sent.stop as u64,
        sent.cells as u64,
    ];
    let refusal = sent.refusal;
    if refusal != 0 {
        return refusal;
    }
    let next = sent.state;
    *state = sender_octets(next);
    0
}
