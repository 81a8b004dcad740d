// The calls of `rimesatchel::salvages` for C: each calls the function of its name, and states its clauses again.
ghost use Rattle.rimesatchel.specs.Salvages.{SalvagedLog};

#[unsafe(no_mangle)]
pub extern "C" fn rime_salvage(
    log: &[u8],
    out: &mut [u8],
    list: &mut [u64],
    counts: &mut [u64; 3],
) -> u8
    ensures { SalvagedLog log.now out.old list.old result
        out.new list.new counts.new }
{
    rimesatchel::salvages::rime_salvage(log, out, list, counts)
}
