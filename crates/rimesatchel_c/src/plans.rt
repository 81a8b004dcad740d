// The calls of `rimesatchel::plans` for C: each calls the function of its name, and states its clauses again.
ghost use Rattle.circuits.specs.Circuits.{Plans};
ghost use Rattle.rimesatchel.specs.Plans.{CheckedPlan};

#[unsafe(no_mangle)]
pub extern "C" fn rime_circuits_check(
    format: u32,
    channels: u32,
    frequency: u32,
    shares: &[u32],
    allowances: &[u32],
    answer: &mut [u32; 2],
) -> u8
    ensures { CheckedPlan format channels frequency shares.now allowances.now result answer.new }
{
    rimesatchel::plans::rime_circuits_check(format, channels, frequency, shares, allowances, answer)
}

#[unsafe(no_mangle)]
pub extern "C" fn rime_circuits_plan(format: u32, channels: u32, shares: &mut [u32]) -> u8
    ensures { Plans format channels shares.old result shares.new }
{
    rimesatchel::plans::rime_circuits_plan(format, channels, shares)
}
