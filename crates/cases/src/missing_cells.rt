// Document 01, "What the receiver writes": the gap between the last number and the next.
use receiver::Receiver;
use sender::Sender;

// A cell of 56 hex with C = 2 that has the number `next`, taken by a receiver whose last number is `last`.
fn taken(last: u8, next: u8) -> receiver::Received {
    let studio = Sender {
        format: 0x56,
        channels: 2,
        order: 0,
        number: next,
        wanted: false,
        second: 0,
        sent: true,
    };
    let archive = Receiver {
        format: 0x56,
        channels: 2,
        order: 0,
        started: true,
        last,
        count: 1,
    };
    let mut cell = [0u8; 48];
    sender::send(studio, false, &[0u64; 12], &[0u8; 12], &mut cell);
    let mut samples = [0u64; 180];
    let mut ancillary = [0u8; 180];
    let mut marks = [0u8; 180];
    receiver::receive(
        archive,
        &cell,
        false,
        &mut samples,
        &mut ancillary,
        &mut marks,
    )
}

// A line: the refusal, and the missing count beside it, since a refused cell has none missing too.
fn tell(rt: &impl Print, what: &str, last: u8, next: u8) {
    let got = taken(last, next);
    let refusal = got.refusal;
    let missing = got.missing;
    let _ = println!(rt; "{what}{refusal}, missing {missing}");
}

pub(crate) fn cases(rt: &impl Print) {
    tell(rt, "last 15, next 0: refused ", 15, 0);
    tell(rt, "last 3, next 2: refused ", 3, 2);
    tell(rt, "last 3, next 3: refused ", 3, 3);
}
