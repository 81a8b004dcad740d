// The calls of `rimesatchel::batches` for C: each calls the function of its name, and states its clauses again.
ghost use Rattle.rimesatchel.specs.Batches.{JudgedOctets, ReceivedLogOctets};

#[unsafe(no_mangle)]
pub extern "C" fn rime_judge_log(
    state: &mut [u8; 9],
    log: &[u8],
    place: usize,
    reports: &mut [u8],
    counts: &mut [u64; 3],
) -> u8
    ensures { JudgedOctets state.old log.now place reports.old result state.new
        reports.new counts.new }
{
    rimesatchel::batches::rime_judge_log(state, log, place, reports, counts)
}

#[unsafe(no_mangle)]
pub extern "C" fn rime_receive_log(
    state: &mut [u8; 9],
    log: &[u8],
    place: usize,
    samples: &mut [u64],
    ancillary: &mut [u8],
    marks: &mut [u8],
    counts: &mut [u64; 9],
) -> u8
    ensures { ReceivedLogOctets state.old log.now place samples.old ancillary.old
        marks.old result state.new samples.new ancillary.new marks.new counts.new }
{
    rimesatchel::batches::rime_receive_log(state, log, place, samples, ancillary, marks, counts)
}
