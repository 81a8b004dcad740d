// The two boxes for C, Rust and Python. A sender's state is seven octets, a receiver's nine, in the paper's order; a yes or no is
// 0 for no and anything else for yes, and is written as 0 or 1.
ghost use Rattle.std.specs.Prelude.{◌≡◌, ◌<◌};
ghost use Rattle.rimesatchel.specs.Boxes.{
  yes_no,
  sender_of,
  sender_octets,
  count_of,
  receiver_of,
  receiver_octets,
  OpenedSender,
  SentOctets,
  OpenedReceiver,
  ReceivedOctets,
};

use receiver::Receiver;
use sender::Sender;

fn yes_no(said: bool) -> u8
    ensures { result ≡ yes_no said }
{
    if said { 1 } else { 0 }
}

pub(crate) fn sender_of(state: [u8; 7]) -> Sender
    ensures { result ≡ sender_of state }
{
    Sender {
        format: state[0],
        channels: state[1],
        order: state[2],
        number: state[3],
        wanted: state[4] != 0,
        second: state[5],
        sent: state[6] != 0,
    }
}

pub(crate) fn sender_octets(state: Sender) -> [u8; 7]
    ensures { result ≡ sender_octets state }
{
    let wanted = yes_no(state.wanted);
    let sent = yes_no(state.sent);
    [
        state.format,
        state.channels,
        state.order,
        state.number,
        wanted,
        state.second,
        sent,
    ]
}

fn wide(octet: u8) -> u32
    ensures { (result ≡ octet) × (result < 256) }
{
    octet as u32
}

// A receiver's count, from the last four octets of its state, least significant first.
fn count_of(state: [u8; 9]) -> u32
    ensures { result ≡ count_of state }
{
    let first = wide(state[5]);
    let second = wide(state[6]);
    let third = wide(state[7]);
    let fourth = wide(state[8]);
    first + second * 256 + third * 65536 + fourth * 16777216
}

pub(crate) fn receiver_of(state: [u8; 9]) -> Receiver
    ensures { result ≡ receiver_of state }
{
    let count = count_of(state);
    Receiver {
        format: state[0],
        channels: state[1],
        order: state[2],
        started: state[3] != 0,
        last: state[4],
        count,
    }
}

pub(crate) fn receiver_octets(state: Receiver) -> [u8; 9]
    ensures { result ≡ receiver_octets state }
{
    let started = yes_no(state.started);
    let count = state.count;
    let first = (count % 256) as u8;
    let second = (count / 256 % 256) as u8;
    let third = (count / 65536 % 256) as u8;
    let fourth = (count / 16777216 % 256) as u8;
    [
        state.format,
        state.channels,
        state.order,
        started,
        state.last,
        first,
        second,
        third,
        fourth,
    ]
}

// Opens a sender: the refusal (0, or 1 to 4), and its state, zeros where it is refused.
pub fn rime_sender_open(
    format: u32,
    channels: u32,
    order: u32,
    number: u32,
    wanted: bool,
    second: u32,
    state: &mut [u8; 7],
) -> u8
    ensures { OpenedSender format channels order number wanted second result state.new }
{
    let opened = sender::opened(format, channels, order, number, wanted, second);
    let begun = opened.state;
    *state = sender_octets(begun);
    opened.refusal
}

// Writes the next cell: the refusal (0, or 1 to 7, and then state and cell are as they were).
pub fn rime_send(
    state: &mut [u8; 7],
    indication: bool,
    samples: &[u64],
    ancillary: &[u8],
    cell: &mut [u8],
) -> u8
    ensures { SentOctets state.old indication samples.now ancillary.now cell.old result state.new cell.new }
{
    let lent = *state;
    let sent = sender::send(sender_of(lent), indication, samples, ancillary, cell);
    let refusal = sent.refusal;
    if refusal != 0 {
        return refusal;
    }
    let next = sent.state;
    *state = sender_octets(next);
    0
}

// Opens a receiver: the refusal (0, or 1 to 3), and its state, zeros where it is refused.
pub fn rime_receiver_open(format: u32, channels: u32, order: u32, state: &mut [u8; 9]) -> u8
    ensures { OpenedReceiver format channels order result state.new }
{
    let opened = receiver::opened(format, channels, order);
    let begun = opened.state;
    *state = receiver_octets(begun);
    opened.refusal
}

// Takes a cell: the refusal (0, or 1 to 5, 8, 15, 9, 20, 10, and then state and runs are as they were and the report is zeros).
pub fn rime_receive(
    state: &mut [u8; 9],
    cell: &[u8],
    indication: bool,
    samples: &mut [u64],
    ancillary: &mut [u8],
    marks: &mut [u8],
    report: &mut [u8; 4],
) -> u8
    ensures { ReceivedOctets state.old cell.now indication samples.old ancillary.old marks.old result state.new samples.new ancillary.new marks.new report.new }
{
    let lent = *state;
    let received = receiver::receive(
        receiver_of(lent),
        cell,
        indication,
        samples,
        ancillary,
        marks,
    );
    let told = yes_no(received.indication);
    *report = [received.missing, received.number, received.second, told];
    let refusal = received.refusal;
    if refusal != 0 {
        return refusal;
    }
    let next = received.state;
    *state = receiver_octets(next);
    0
}

// How many cells a receiver in this state has placed since it was opened, sound and missing together. Nothing is refused.
pub fn rime_receiver_placed(state: &[u8; 9]) -> u32
    ensures { result ≡ (receiver_of state.now).count }
{
    let lent = *state;
    receiver::placed(receiver_of(lent))
}
