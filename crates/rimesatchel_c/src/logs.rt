// The calls of `rimesatchel::logs` for C: each calls the function of its name, and states its clauses again.
ghost use Rattle.std.specs.Prelude.{◌≡◌};
ghost use Rattle.cell_log.specs.Records.{header_of, record_at};
ghost use Rattle.rimesatchel.specs.Logs.{header_numbers, record_numbers};

#[unsafe(no_mangle)]
pub extern "C" fn rime_log_header(log: &[u8], header: &mut [u32; 4]) -> u8
    ensures { (result ≡ (header_of log.now).refusal) × (header.new ≡ header_numbers (header_of log.now)) }
{
    rimesatchel::logs::rime_log_header(log, header)
}

#[unsafe(no_mangle)]
pub extern "C" fn rime_log_record(log: &[u8], place: usize, answer: &mut [u64; 4]) -> u8
    ensures { (result ≡ (record_at log.now place).refusal) × (answer.new ≡ record_numbers (record_at log.now place)) }
{
    rimesatchel::logs::rime_log_record(log, place, answer)
}
