// The calls of `rimesatchel::taken_figures` for C: each calls the function of its name, and states its clauses again.
ghost use Rattle.rimesatchel.specs.TakenFigures.{FiguresStarted, FiguresTaken, FiguresEnded};

#[unsafe(no_mangle)]
pub extern "C" fn rime_figures_start(state: &mut [u64; 20], held: &mut [u8; 49]) -> u8
    ensures { FiguresStarted result state.new held.new }
{
    rimesatchel::taken_figures::rime_figures_start(state, held)
}

#[unsafe(no_mangle)]
pub extern "C" fn rime_figures_take(state: &mut [u64; 20], held: &mut [u8; 49], piece: &[u8]) -> u8
    ensures { FiguresTaken state.old held.old piece.now result state.new held.new }
{
    rimesatchel::taken_figures::rime_figures_take(state, held, piece)
}

#[unsafe(no_mangle)]
pub extern "C" fn rime_figures_end(state: &[u64; 20], row: &mut [u32; 10]) -> u8
    ensures { FiguresEnded state.now result row.new }
{
    rimesatchel::taken_figures::rime_figures_end(state, row)
}
