// The list of a log that is taken in pieces, for C, Rust and Python. All that is known between two calls stands in lent memory:
// fifteen numbers, and the octets of a part that isn't whole yet.
ghost use Rattle.std.specs.Prelude.{◌≡◌};
ghost use Rattle.rimesatchel.specs.TakenLists.{listing_from, list_numbers, ListStarted, ListTaken, ListEnded};

use crate::states;
use listing::{Listing, Tally};

#[tactic(auto, unfolding(crate::specs::TakenLists::listing_from))]
fn listing_of(s: &[u64; 15]) -> Listing
    ensures { result ≡ listing_from s.now }
{
    Listing {
        standing: states::standing_in(s),
        tally: Tally {
            state: states::receiver_in(s),
            records: s[11] as usize,
            sound: s[12] as usize,
            missing: s[13] as usize,
            refused: s[14] as usize,
        },
    }
}

// The numbers of a list, which give it back.
fn numbers_of(listing: Listing) -> [u64; 15]
    ensures { (result ≡ list_numbers listing) × (listing_from result ≡ listing) }
{
    let Listing { standing, tally } = listing;
    let mut numbers = [0u64; 15];
    states::put_numbers(
        standing,
        tally.state,
        &[
            tally.records as u64,
            tally.sound as u64,
            tally.missing as u64,
            tally.refused as u64,
        ],
        &mut numbers,
    );
    numbers
}

// A list before the first octet of a log, of which it takes up to 4,294,967,295. Refuses nothing, and returns 0.
pub fn rime_list_start(state: &mut [u64; 15], held: &mut [u8; 49]) -> u8
    ensures { ListStarted result state.new held.new }
{
    *state = numbers_of(listing::start_longest());
    *held = [0u8; 49];
    0
}

// Takes a piece of the log and writes the lines that it makes whole into the run, from its start, and how many octets they are.
// Returns 21, and 0 octets, where the run is shorter than such a piece's lines can be, and then all else is as it was.
pub fn rime_list_take(
    state: &mut [u64; 15],
    held: &mut [u8; 49],
    piece: &[u8],
    text: &mut [u8],
    written: &mut u64,
) -> u8
    ensures { ListTaken state.old held.old piece.now text.old result
        state.new held.new text.new written.new }
{
    if !states::has_room(216, 76, piece.len(), text.len()) {
        *written = 0;
        return 21;
    }
    let printed = listing::take(listing_of(state), held, piece, text);
    *written = printed.listed.octets as u64;
    *state = numbers_of(printed.listing);
    0
}

// Writes what ends the list of a log that ends here, and how many octets that is. Returns 21, and 0 octets, for a run of fewer than
// 216, and then it is as it was.
pub fn rime_list_end(state: &[u64; 15], held: &[u8; 49], text: &mut [u8], written: &mut u64) -> u8
    ensures { ListEnded state.now held.now text.old result text.new written.new }
{
    if text.len() < 216 {
        *written = 0;
        return 21;
    }
    let listed = listing::end(listing_of(state), *held, text);
    *written = listed.octets as u64;
    0
}
