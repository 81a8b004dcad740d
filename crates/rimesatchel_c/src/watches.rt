// The calls of `rimesatchel::watches` for C: each calls the function of its name, and states its clauses again.
ghost use Rattle.rimesatchel.specs.Watches.{SlippedOctets};

#[unsafe(no_mangle)]
pub extern "C" fn rime_slip(watch: &mut [u8; 7], report: &[u8; 4], slip: &mut [u8; 2]) -> u8
    ensures { SlippedOctets watch.old report.now result watch.new slip.new }
{
    rimesatchel::watches::rime_slip(watch, report, slip)
}
