// The calls of `rimesatchel::taken_lists` for C: each calls the function of its name, and states its clauses again.
ghost use Rattle.rimesatchel.specs.TakenLists.{ListStarted, ListTaken, ListEnded};

#[unsafe(no_mangle)]
pub extern "C" fn rime_list_start(state: &mut [u64; 15], held: &mut [u8; 49]) -> u8
    ensures { ListStarted result state.new held.new }
{
    rimesatchel::taken_lists::rime_list_start(state, held)
}

#[unsafe(no_mangle)]
pub extern "C" fn rime_list_take(
    state: &mut [u64; 15],
    held: &mut [u8; 49],
    piece: &[u8],
    text: &mut [u8],
    written: &mut u64,
) -> u8
    ensures { ListTaken state.old held.old piece.now text.old result
        state.new held.new text.new written.new }
{
    rimesatchel::taken_lists::rime_list_take(state, held, piece, text, written)
}

#[unsafe(no_mangle)]
pub extern "C" fn rime_list_end(
    state: &[u64; 15],
    held: &[u8; 49],
    text: &mut [u8],
    written: &mut u64,
) -> u8
    ensures { ListEnded state.now held.now text.old result text.new written.new }
{
    rimesatchel::taken_lists::rime_list_end(state, held, text, written)
}
