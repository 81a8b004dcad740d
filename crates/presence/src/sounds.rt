// What one record says: what the receiver makes of it, and whether it hands out a sample marked 0 that isn't zero.
ghost use Rattle.std.specs.Prelude.{◌≡◌};
ghost use Rattle.presence.specs.Presence.{said_of};

use receiver::Receiver;

// The state to go on with, and whether there was something.
#[derive(Clone, Copy, Debug, PartialEq, Eq, Hash)]
pub(crate) struct Said {
    pub state: Receiver,
    pub sounds: bool,
}

// Judges a cell with room for all that one call can write, and looks at its own entries where it is taken. Those of missing cells
// are zero. Nothing is written.
pub(crate) fn heard(state: Receiver, cell: &[u8], indication: bool) -> Said
    ensures { result ≡ said_of state cell.now indication }
{
    let answer = receiver::judged(state, cell, indication);
    Said {
        state: answer.state,
        sounds: answer.refusal == 0 && glance::sounds(state, cell),
    }
}
