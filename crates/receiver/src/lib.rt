#![tactic(auto)]
// The receiver's box, document 01: opening and receiving, refusals 1 to 5, 8 to 10, 15 and 20.
ghost use Rattle.std.specs.Prelude.{◌≡◌};
ghost use Rattle.receiver.specs.Receiver.{opened_of, judged_of, Receives};

mod bits;
mod entries;
mod judge;
pub mod many; // many.rt: the cells of many records, unpacked
mod octets;
mod usual;

// A receiver's state, in the paper's words: the subframe octet, C, the order, whether it is started, the last number, and how many
// cells it has placed since it was opened, sound and missing together.
#[derive(Clone, Copy, Debug, PartialEq, Eq, Hash)]
pub struct Receiver {
    pub format: u8,
    pub channels: u8,
    pub order: u8,
    pub started: bool,
    pub last: u8,
    pub count: u32,
}

// The refusal (0: none) and the state to go on with.
#[derive(Clone, Copy, Debug, PartialEq, Eq, Hash)]
pub struct Ready {
    pub refusal: u8,
    pub state: Receiver,
}

// The refusal (0: none), the state to go on with, and the report; all of the report is zero where the cell is refused.
#[derive(Clone, Copy, Debug, PartialEq, Eq, Hash)]
pub struct Received {
    pub refusal: u8,
    pub state: Receiver,
    pub missing: u8,
    pub number: u8,
    pub second: u8,
    pub indication: bool,
}

// A receiver that has accepted no cell yet. Refused: 1 to 3, and the state is then all zeros.
pub fn opened(format: u32, channels: u32, order: u32) -> Ready
    ensures { result ≡ opened_of format channels order }
{
    if let Err(refusal) = formats::settings(format, channels, order) {
        return Ready {
            refusal: refusal.into(),
            state: Receiver {
                format: 0,
                channels: 0,
                order: 0,
                started: false,
                last: 0,
                count: 0,
            },
        };
    }
    Ready {
        refusal: 0,
        state: Receiver {
            format: format as u8,
            channels: channels as u8,
            order: order as u8,
            started: false,
            last: 0,
            count: 0,
        },
    }
}

// How many cells a receiver in this state has placed since it was opened, sound and missing together. Nothing is refused.
pub fn placed(state: Receiver) -> u32
    ensures { result ≡ state.count }
{
    state.count
}

// Takes a cell, whatever the settings.
fn receive_any(
    state: Receiver,
    cell: &[u8],
    indication: bool,
    samples: &mut [u64],
    ancillary: &mut [u8],
    marks: &mut [u8],
) -> Received
    ensures { Receives state cell.now indication samples.old ancillary.old marks.old result samples.new ancillary.new marks.new }
{
    let set = match formats::settings(
        state.format as u32,
        state.channels as u32,
        state.order as u32,
    ) {
        Ok(set) => set,
        Err(refusal) => return judge::refused(refusal, state),
    };
    let answer = judge::answered(
        set,
        state,
        cell,
        indication,
        samples.len(),
        ancillary.len(),
        marks.len(),
    );
    if answer.refusal != 0 {
        return answer;
    }
    let place = answer.missing as usize * (set.channels * set.times);
    entries::write(set, cell, place, samples, ancillary, marks);
    answer
}

// Takes a cell: C×T entries of zero with mark 2 for each missing cell, then the cell's own, go into the three runs from their
// start; what stands past these stays. The state's count grows by all of them. Refused: 1 to 5, 8, 15, 9, 20, 10, and then the state
// comes back as it went in and nothing is written.
pub fn receive(
    state: Receiver,
    cell: &[u8],
    indication: bool,
    samples: &mut [u64],
    ancillary: &mut [u8],
    marks: &mut [u8],
) -> Received
    ensures { Receives state cell.now indication samples.old ancillary.old marks.old result samples.new ancillary.new marks.new }
{
    if formats::is_usual(state.format, state.channels, state.order) {
        return usual::receive(state, cell, indication, samples, ancillary, marks);
    }
    receive_any(state, cell, indication, samples, ancillary, marks)
}

// The answer of `judged`, whatever the settings.
fn judged_any(state: Receiver, cell: &[u8], indication: bool) -> Received
    ensures { result ≡ judged_of state cell.now indication }
{
    let set = match formats::settings(
        state.format as u32,
        state.channels as u32,
        state.order as u32,
    ) {
        Ok(set) => set,
        Err(refusal) => return judge::refused(refusal, state),
    };
    judge::answered(set, state, cell, indication, 720, 720, 720)
}

// What `receive` answers to a cell with room for all that one call can write, fifteen cells of up to 48 entries: so refusal 10 is
// never given. Nothing is unpacked and nothing is lent to be written.
pub fn judged(state: Receiver, cell: &[u8], indication: bool) -> Received
    ensures { result ≡ judged_of state cell.now indication }
{
    if formats::is_usual(state.format, state.channels, state.order) {
        return usual::judged(state, cell, indication);
    }
    judged_any(state, cell, indication)
}
