// The calls of `rimesatchel::kept` for C: each calls the function of its name, and states its clauses again.
ghost use Rattle.cell_log.specs.Written.{Keeps, header_refused_of, header_octets, record_refusal, record_octets};
ghost use Rattle.rimesatchel.specs.Kept.{kept_as, ListedOctets};

#[unsafe(no_mangle)]
pub extern "C" fn rime_log_put_header(
    log: &mut [u8],
    format: u32,
    channels: u32,
    order: u32,
    next: &mut u64,
) -> u8
    ensures { Keeps (header_refused_of log.old format channels order) 0 (header_octets format channels order)
        log.old (kept_as result next.new) log.new }
{
    rimesatchel::kept::rime_log_put_header(log, format, channels, order, next)
}

#[unsafe(no_mangle)]
pub extern "C" fn rime_log_put_record(
    log: &mut [u8],
    place: usize,
    cell: &[u8],
    indication: bool,
    next: &mut u64,
) -> u8
    ensures { Keeps (record_refusal log.old place cell.now) place
        (record_octets indication cell.now) log.old (kept_as result next.new) log.new }
{
    rimesatchel::kept::rime_log_put_record(log, place, cell, indication, next)
}

#[unsafe(no_mangle)]
pub extern "C" fn rime_log_list(log: &[u8], run: &mut [u8], listed: &mut [u64; 2]) -> u8
    ensures { ListedOctets log.now run.old result run.new listed.new }
{
    rimesatchel::kept::rime_log_list(log, run, listed)
}
