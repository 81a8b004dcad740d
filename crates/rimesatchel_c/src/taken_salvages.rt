// The calls of `rimesatchel::taken_salvages` for C: each calls the function of its name, and states its clauses again.
ghost use Rattle.rimesatchel.specs.TakenSalvages.{SalvageStarted, SalvageTaken, SalvageEnded};

#[unsafe(no_mangle)]
pub extern "C" fn rime_salvage_start(state: &mut [u64; 16], held: &mut [u8; 49]) -> u8
    ensures { SalvageStarted result state.new held.new }
{
    rimesatchel::taken_salvages::rime_salvage_start(state, held)
}

#[unsafe(no_mangle)]
pub extern "C" fn rime_salvage_take(
    state: &mut [u64; 16],
    held: &mut [u8; 49],
    piece: &[u8],
    out: &mut [u8],
    notes: &mut [u8],
    written: &mut [u64; 2],
) -> u8
    ensures { SalvageTaken state.old held.old piece.now out.old notes.old result
        state.new held.new out.new notes.new written.new }
{
    rimesatchel::taken_salvages::rime_salvage_take(state, held, piece, out, notes, written)
}

#[unsafe(no_mangle)]
pub extern "C" fn rime_salvage_end(
    state: &[u64; 16],
    held: &[u8; 49],
    notes: &mut [u8],
    written: &mut u64,
) -> u8
    ensures { SalvageEnded state.now held.now notes.old result notes.new written.new }
{
    rimesatchel::taken_salvages::rime_salvage_end(state, held, notes, written)
}
