// The salvage of a log that is taken in pieces, for C, Rust and Python. All that is known between two calls stands in lent memory:
// sixteen numbers, and the octets of a part that isn't whole yet.
ghost use Rattle.std.specs.Prelude.{◌&&◌, ◌≡◌, leb};
ghost use Rattle.salvaging.specs.Taking.{most_out, most_notes};
ghost use Rattle.rimesatchel.specs.TakenSalvages.{salvaging_from, salvage_numbers, SalvageStarted, SalvageTaken, SalvageEnded};

use crate::states;
use salvaging::{Salvaging, Tally};

#[tactic(auto, unfolding(crate::specs::TakenSalvages::salvaging_from))]
fn salvaging_of(s: &[u64; 16]) -> Salvaging
    ensures { result ≡ salvaging_from s.now }
{
    Salvaging {
        standing: states::standing_in(s),
        octets: s[11] as usize,
        tally: Tally {
            state: states::receiver_in(s),
            refusal: states::low(s[12]),
            taken: s[13] as usize,
            kept: s[14] as usize,
            left_out: s[15] as usize,
        },
    }
}

// The numbers of a salvage, which give it back.
fn numbers_of(salvaging: Salvaging) -> [u64; 16]
    ensures { (result ≡ salvage_numbers salvaging) × (salvaging_from result ≡ salvaging) }
{
    let Salvaging {
        standing,
        octets,
        tally,
    } = salvaging;
    let mut numbers = [0u64; 16];
    states::put_numbers(
        standing,
        tally.state,
        &[
            octets as u64,
            tally.refusal as u64,
            tally.taken as u64,
            tally.kept as u64,
            tally.left_out as u64,
        ],
        &mut numbers,
    );
    numbers
}

// A salvage before the first octet of a log of any length. Refuses nothing, and returns 0.
pub fn rime_salvage_start(state: &mut [u64; 16], held: &mut [u8; 49]) -> u8
    ensures { SalvageStarted result state.new held.new }
{
    *state = numbers_of(salvaging::start());
    *held = [0u8; 49];
    0
}

// Whether both runs are long enough for what a piece can make.
fn has_both(piece: usize, out: usize, notes: usize) -> bool
    ensures { result ≡ leb (most_out piece) out && leb (most_notes piece) notes }
{
    states::has_room(3, 49, piece, out) && states::has_room(216, 50, piece, notes)
}

// Takes a piece of the log. Of what it makes whole the header and the sound records go into `out`, and a line for each record left
// out into `notes`, each from the run's start; it writes how many octets of each. Returns 21, and zeros, where one of the runs is
// shorter than what such a piece can make, and then all else is as it was.
pub fn rime_salvage_take(
    state: &mut [u64; 16],
    held: &mut [u8; 49],
    piece: &[u8],
    out: &mut [u8],
    notes: &mut [u8],
    written: &mut [u64; 2],
) -> u8
    ensures { SalvageTaken state.old held.old piece.now out.old notes.old result
        state.new held.new out.new notes.new written.new }
{
    if !has_both(piece.len(), out.len(), notes.len()) {
        *written = [0u64; 2];
        return 21;
    }
    let wrote = salvaging::take(salvaging_of(state), held, piece, out, notes);
    *written = [wrote.saved.octets as u64, wrote.noted.octets as u64];
    *state = numbers_of(wrote.salvaging);
    0
}

// Writes the last line of a log that ends here, and how many octets that is. Returns 21, and 0 octets, for a run of fewer than 216,
// and then it is as it was.
pub fn rime_salvage_end(
    state: &[u64; 16],
    held: &[u8; 49],
    notes: &mut [u8],
    written: &mut u64,
) -> u8
    ensures { SalvageEnded state.now held.now notes.old result notes.new written.new }
{
    if notes.len() < 216 {
        *written = 0;
        return 21;
    }
    let noted = salvaging::end(salvaging_of(state), *held, notes);
    *written = noted.octets as u64;
    0
}
