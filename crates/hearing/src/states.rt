// Checks 1 to 4 of a receiver's state.
ghost use Rattle.std.specs.Prelude.{◌≡◌};
ghost use Rattle.receiver.specs.Receiver.{state_refusal};
ghost use Rattle.hearing.specs.Code.{is_of_state};

use receiver::Receiver;

// Whether a refusal is one of the state's: 1 to 4.
fn is_of_state(refusal: u8) -> bool
    ensures { result ≡ is_of_state refusal }
{
    (1..5).contains(&refusal)
}

// What a state is refused by, 0 where nothing is wrong with it. It is refused where a call on it is: it is asked with a cell of zeros.
pub(crate) fn refusal_of(state: Receiver) -> u8
    ensures { result ≡ state_refusal state }
{
    let zeros = [0u8; 48];
    let asked = receiver::judged(state, &zeros, false);
    if is_of_state(asked.refusal) {
        asked.refusal
    } else {
        0
    }
}
