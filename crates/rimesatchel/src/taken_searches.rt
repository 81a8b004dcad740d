// Whether there is anything in a log that is taken in pieces, for C, Rust and Python. All that is known between two calls stands in lent
// memory: fourteen numbers, and the octets of a part that isn't whole yet.
ghost use Rattle.std.specs.Prelude.{◌≡◌};
ghost use Rattle.rimesatchel.specs.TakenSearches.{search_from, search_numbers, SearchStarted, SearchTaken, SearchEnded};

use crate::states;
use presence::{Search, Sought};

#[tactic(auto, unfolding(crate::specs::TakenSearches::search_from))]
fn search_of(s: &[u64; 14]) -> Search
    ensures { result ≡ search_from s.now }
{
    Search {
        standing: states::standing_in(s),
        sought: Sought {
            state: states::receiver_in(s),
            refusal: states::low(s[11]),
            found: s[12] != 0,
            number: s[13] as usize,
        },
    }
}

// The numbers of a search, which give it back.
fn numbers_of(search: Search) -> [u64; 14]
    ensures { (result ≡ search_numbers search) × (search_from result ≡ search) }
{
    let Search { standing, sought } = search;
    let mut numbers = [0u64; 14];
    states::put_numbers(
        standing,
        sought.state,
        &[
            sought.refusal as u64,
            sought.found as u64,
            sought.number as u64,
        ],
        &mut numbers,
    );
    numbers
}

// A search before the first octet of a log of any length. Refuses nothing, and returns 0.
pub fn rime_anything_start(state: &mut [u64; 14], held: &mut [u8; 49]) -> u8
    ensures { SearchStarted result state.new held.new }
{
    *state = numbers_of(presence::start());
    *held = [0u8; 49];
    0
}

// Takes a piece of the log, and writes 1 where more octets could change the answer, else 0. Refuses nothing, and returns 0.
pub fn rime_anything_take(
    state: &mut [u64; 14],
    held: &mut [u8; 49],
    piece: &[u8],
    more: &mut u64,
) -> u8
    ensures { SearchTaken state.old held.old piece.now result state.new held.new
        more.new }
{
    let search = presence::take(search_of(state), held, piece);
    *more = presence::reads_on(search) as u64;
    *state = numbers_of(search);
    0
}

// The answer for a log that ends here, as `rime_anything` gives it.
pub fn rime_anything_end(state: &[u64; 14], held: &[u8; 49], answer: &mut [u64; 2]) -> u8
    ensures { SearchEnded state.now held.now result answer.new }
{
    let found = presence::end(search_of(state), *held);
    if found.refusal != 0 {
        *answer = [0u64; 2];
        return found.refusal;
    }
    *answer = [found.found as u64, found.number as u64];
    0
}
