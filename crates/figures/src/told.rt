// What the receiver makes of a cell. Most cells come next in turn: that is seen at once, and the receiver judges the others.
ghost use Rattle.std.specs.Prelude.{true, false, ◌≡◌, ℕ, ◌/◌, ◌%◌, ◌^◌, ◌<◌, length};
ghost use Rattle.formats.specs.Settings.{settled_as, settings_of};
ghost use Rattle.formats.specs.Sound.{Sound};
ghost use Rattle.cells.specs.Cells.{bit_in};
ghost use Rattle.receiver.specs.Receiver.{judged_of};
ghost use Rattle.figures.specs.Stretch.{told_of, next_told, Waits};

use formats::{Format, Layout};
use receiver::Receiver;

// The refusal (0: none), how many cells are missing before this one, and the state to go on with.
#[derive(Clone, Copy, Debug, PartialEq, Eq, Hash)]
pub(crate) struct Told {
    pub refusal: u8,
    pub missing: u8,
    pub state: Receiver,
}

// Whether the first eight sequencing bits of a cell are these, the first one lowest.
fn begins_with(format: Format, cell: &[u8], sequence: u64) -> bool
    requires { Sound format × (length cell.now ≡ 48) }
    ensures { result ≡ true → (slot : ℕ) → slot < 8 → bit_in format cell.now slot ≡ sequence / 2 ^ slot % 2 }
{
    for slot in 0..8 {
        let octet = cell[slot * format.width + (format.width - 1)];
        if octet as u64 / 8 % 2 != (sequence >> slot) % 2 {
            return false;
        }
    }
    true
}

// Whether a state waits for the next cell in turn: it is started, and no check of it refuses.
fn waits(set: Layout, state: Receiver) -> bool
    ensures { result ≡ true → Waits (settled_as set) state }
{
    state.started && state.last <= 15 && state.count < 4294967295
}

// Whether a cell without the indication is the one that comes next.
fn in_turn(set: Layout, state: Receiver, cell: &[u8]) -> bool
    requires { (settled_as set ≡ settings_of state.format state.channels state.order) × (length cell.now ≡ 48) }
    ensures { result ≡ true → (told_of (judged_of state cell.now false) ≡ next_told state)
        × (state.last < 16) × (state.count < 4294967295) }
{
    waits(set, state)
        && set.format.overhead_bits != 0
        && begins_with(set.format, cell, numbers::sequence_of(state.last + 1, 0))
}

// The answer to a cell that comes next.
fn next(state: Receiver) -> Told
    requires { (state.last < 16) × (state.count < 4294967295) }
    ensures { result ≡ next_told state }
{
    Told {
        refusal: 0,
        missing: 0,
        state: Receiver {
            started: true,
            last: (state.last + 1) % 16,
            count: state.count + 1,
            ..state
        },
    }
}

// What the receiver answers to a cell with room for all that one call can write. `set` is what the state settles.
pub(crate) fn answer(set: Layout, state: Receiver, cell: &[u8], indication: bool) -> Told
    requires { (settled_as set ≡ settings_of state.format state.channels state.order) × (length cell.now ≡ 48) }
    ensures { result ≡ told_of (judged_of state cell.now indication) }
{
    if !indication && in_turn(set, state, cell) {
        return next(state);
    }
    let got = receiver::judged(state, cell, indication);
    Told {
        refusal: got.refusal,
        missing: got.missing,
        state: got.state,
    }
}
