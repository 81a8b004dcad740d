#![tactic(auto)]
// The sender's box, document 01: opening and sending, refusals 1 to 7.
ghost use Rattle.std.specs.Prelude.{◌≡◌, ◌<◌};
ghost use Rattle.sender.specs.Sender.{second_now, opened_of, after, Sends};
ghost use Rattle.sender.specs.Packing.{Writes};

mod fill;
mod judge;
pub mod many;
mod octets;
mod pack;
mod usual;

// A sender's state, in the paper's words: the subframe octet, C, the order, the next cell's number, whether second numbers are
// kept, the last one (the given start before the first cell), and whether a cell was sent.
#[derive(Clone, Copy, Debug, PartialEq, Eq, Hash)]
pub struct Sender {
    pub format: u8,
    pub channels: u8,
    pub order: u8,
    pub number: u8,
    pub wanted: bool,
    pub second: u8,
    pub sent: bool,
}

// An opening's answer: the refusal (0: none) and the state to begin with.
#[derive(Clone, Copy, Debug, PartialEq, Eq, Hash)]
pub struct Ready {
    pub refusal: u8,
    pub state: Sender,
}

// A call's answer: the refusal (0: none) and the state to go on with.
#[derive(Clone, Copy, Debug, PartialEq, Eq, Hash)]
pub struct Sent {
    pub refusal: u8,
    pub state: Sender,
}

// A sender that has sent nothing yet, its first cell to have the number `number` and to carry `second`. Refused: 1 to 4, and the
// state is then all zeros.
pub fn opened(
    format: u32,
    channels: u32,
    order: u32,
    number: u32,
    wanted: bool,
    second: u32,
) -> Ready
    ensures { result ≡ opened_of format channels order number wanted second }
{
    let refusal = judge::state_refusal(format, channels, order, number, wanted, second);
    if refusal != 0 {
        return Ready {
            refusal,
            state: Sender {
                format: 0,
                channels: 0,
                order: 0,
                number: 0,
                wanted: false,
                second: 0,
                sent: false,
            },
        };
    }
    Ready {
        refusal: 0,
        state: Sender {
            format: format as u8,
            channels: channels as u8,
            order: order as u8,
            number: number as u8,
            wanted,
            second: second as u8,
            sent: false,
        },
    }
}

// The state after a cell. The indication is for the promise alone.
#[tactic(auto, unfolding(crate::specs::Sender::after))]
fn after(state: Sender, indication: bool, second: u8) -> Sender
    requires { (state.number < 16) × (second ≡ second_now state indication) }
    ensures { result ≡ after state indication }
{
    Sender {
        number: (state.number + 1) % 16,
        second,
        sent: true,
        ..state
    }
}

// Writes the next cell of any call, or gives its refusal.
fn write_any(
    state: Sender,
    indication: bool,
    second: u8,
    samples: &[u64],
    ancillary: &[u8],
    cell: &mut [u8],
) -> u8
    requires { second ≡ second_now state indication }
    ensures { Writes state indication samples.now ancillary.now cell.old result cell.new }
{
    let set = match formats::settings(
        state.format as u32,
        state.channels as u32,
        state.order as u32,
    ) {
        Ok(set) => set,
        Err(refusal) => return refusal.into(),
    };
    let refusal = judge::send_refusal(set, state, indication, samples, ancillary, cell.len());
    if refusal != 0 {
        return refusal;
    }
    let sequence = pack::sequence_in(set.format, state.number, second);
    pack::pack(set, sequence, samples, ancillary, cell);
    0
}

// Writes the next cell, or gives its refusal: a usual call goes through usual.rt, any other through pack.rt.
fn write(
    state: Sender,
    indication: bool,
    second: u8,
    samples: &[u64],
    ancillary: &[u8],
    cell: &mut [u8],
) -> u8
    requires { second ≡ second_now state indication }
    ensures { Writes state indication samples.now ancillary.now cell.old result cell.new }
{
    if usual::is_usual(state, samples.len(), ancillary.len()) {
        return usual::write_usual(state, indication, second, samples, ancillary, cell);
    }
    write_any(state, indication, second, samples, ancillary, cell)
}

// Writes the next cell: C×T samples and ancillary numbers, time after time, go into the 48 octets of `cell`. Refused: 1 to 7, and
// then the state comes back as it went in and the cell is not written.
pub fn send(
    state: Sender,
    indication: bool,
    samples: &[u64],
    ancillary: &[u8],
    cell: &mut [u8],
) -> Sent
    ensures { Sends state indication samples.now ancillary.now cell.old result cell.new }
{
    let second = judge::second_now(state, indication);
    let refusal = write(state, indication, second, samples, ancillary, cell);
    if refusal != 0 {
        return Sent { refusal, state };
    }
    Sent {
        refusal: 0,
        state: after(state, indication, second),
    }
}
