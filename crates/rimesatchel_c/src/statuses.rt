// The calls of `rimesatchel::statuses` for C: each calls the function of its name, and states its clauses again.
ghost use Rattle.std.specs.Prelude.{◌≡◌};
ghost use Rattle.status.specs.Check.{check_character};
ghost use Rattle.rimesatchel.specs.Statuses.{SteppedOctets, RanOctets};

#[unsafe(no_mangle)]
pub extern "C" fn rime_status_step(
    block: &mut [u8; 25],
    ancillary: u8,
    mark: u8,
    out: &mut [u8; 25],
) -> u8
    ensures { SteppedOctets block.old ancillary mark result block.new out.new }
{
    rimesatchel::statuses::rime_status_step(block, ancillary, mark, out)
}

#[unsafe(no_mangle)]
pub extern "C" fn rime_status_run(
    block: &mut [u8; 25],
    ancillary: &[u8],
    marks: &[u8],
    from: u64,
    step: u64,
    out: &mut [u8; 25],
    next: &mut u64,
) -> u8
    ensures { RanOctets block.old ancillary.now marks.now from step result block.new
        out.new next.new }
{
    rimesatchel::statuses::rime_status_run(block, ancillary, marks, from, step, out, next)
}

#[unsafe(no_mangle)]
pub extern "C" fn rime_check_character(block: &[u8; 24]) -> u8
    ensures { result ≡ check_character block.now }
{
    rimesatchel::statuses::rime_check_character(block)
}
