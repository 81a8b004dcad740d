// The figures of one log that is taken in pieces, for C, Rust and Python. All that is known between two calls stands in lent memory:
// twenty numbers, and the octets of a part that isn't whole yet.
ghost use Rattle.std.specs.Prelude.{◌≡◌};
ghost use Rattle.rimesatchel.specs.TakenFigures.{figures_from, figure_numbers, FiguresStarted, FiguresTaken, FiguresEnded};

use crate::states;
use figures::{Counts, Noted, Tally};

#[tactic(auto, unfolding(crate::specs::TakenFigures::figures_from))]
fn tally_of(s: &[u64; 20]) -> Tally
    ensures { result ≡ figures_from s.now }
{
    let counts = Counts {
        sound: s[11],
        missing: s[12],
        refused_8: s[13],
        refused_9: s[14],
        refused_15: s[15],
        refused_20: s[16],
        marked_0: s[17],
        marked_1: s[18],
        marked_2: s[19],
    };
    Tally {
        standing: states::standing_in(s),
        noted: Noted {
            state: states::receiver_in(s),
            counts,
        },
    }
}

// The numbers of a log's figures, which give them back.
fn numbers_of(tally: Tally) -> [u64; 20]
    ensures { (result ≡ figure_numbers tally) × (figures_from result ≡ tally) }
{
    let Tally { standing, noted } = tally;
    let counts = noted.counts;
    let mut numbers = [0u64; 20];
    states::put_numbers(
        standing,
        noted.state,
        &[
            counts.sound,
            counts.missing,
            counts.refused_8,
            counts.refused_9,
            counts.refused_15,
            counts.refused_20,
            counts.marked_0,
            counts.marked_1,
            counts.marked_2,
        ],
        &mut numbers,
    );
    numbers
}

// The figures of a log before its first octet, of any length. Refuses nothing, and returns 0.
pub fn rime_figures_start(state: &mut [u64; 20], held: &mut [u8; 49]) -> u8
    ensures { FiguresStarted result state.new held.new }
{
    *state = numbers_of(figures::start());
    *held = [0u8; 49];
    0
}

// Takes a piece of the log and counts the records that it makes whole. Refuses nothing, and returns 0.
pub fn rime_figures_take(state: &mut [u64; 20], held: &mut [u8; 49], piece: &[u8]) -> u8
    ensures { FiguresTaken state.old held.old piece.now result state.new held.new }
{
    let tally = figures::take(tally_of(state), held, piece);
    *state = numbers_of(tally);
    0
}

// The row of a log that ends here: ten numbers, as `rime_sheet` has them. Returns 19, and zeros, where one of the first nine would
// pass 4,294,967,295.
pub fn rime_figures_end(state: &[u64; 20], row: &mut [u32; 10]) -> u8
    ensures { FiguresEnded state.now result row.new }
{
    match figures::closed(tally_of(state).noted.counts) {
        Ok(totals) => {
            *row = totals;
            0
        }
        Err(refusal) => {
            *row = [0; 10];
            refusal.into()
        }
    }
}
