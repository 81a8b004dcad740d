// The calls of `rimesatchel::taken_searches` for C: each calls the function of its name, and states its clauses again.
ghost use Rattle.rimesatchel.specs.TakenSearches.{SearchStarted, SearchTaken, SearchEnded};

#[unsafe(no_mangle)]
pub extern "C" fn rime_anything_start(state: &mut [u64; 14], held: &mut [u8; 49]) -> u8
    ensures { SearchStarted result state.new held.new }
{
    rimesatchel::taken_searches::rime_anything_start(state, held)
}

#[unsafe(no_mangle)]
pub extern "C" fn rime_anything_take(
    state: &mut [u64; 14],
    held: &mut [u8; 49],
    piece: &[u8],
    more: &mut u64,
) -> u8
    ensures { SearchTaken state.old held.old piece.now result state.new held.new
        more.new }
{
    rimesatchel::taken_searches::rime_anything_take(state, held, piece, more)
}

#[unsafe(no_mangle)]
pub extern "C" fn rime_anything_end(state: &[u64; 14], held: &[u8; 49], answer: &mut [u64; 2]) -> u8
    ensures { SearchEnded state.now held.now result answer.new }
{
    rimesatchel::taken_searches::rime_anything_end(state, held, answer)
}
