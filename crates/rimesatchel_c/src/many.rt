// The calls of `rimesatchel::many` for C: each calls the function of its name, and states its clauses again.
ghost use Rattle.rimesatchel.specs.Many.{SentManyOctets};

#[unsafe(no_mangle)]
pub extern "C" fn rime_send_log(
    state: &mut [u8; 7],
    indications: bool,
    samples: &[u64],
    ancillary: &[u8],
    log: &mut [u8],
    place: usize,
    counts: &mut [u64; 4],
) -> u8
    ensures { SentManyOctets state.old indications samples.now ancillary.now log.old
        place result state.new log.new counts.new }
{
    rimesatchel::many::rime_send_log(state, indications, samples, ancillary, log, place, counts)
}
