// The watch over second numbers for C, Rust and Python: seven octets are a watch, all zeros at first.
ghost use Rattle.refusals.specs.Refusals.{refused_by};
ghost use Rattle.rimesatchel.specs.Watches.{SlippedOctets, told_by};

use refusals::Refusal;
use slips::Slip;

// Brings the watch forward by the report of a cell that was taken.
fn stepped(watch: &mut [u8; 7], report: &[u8; 4]) -> Result<Slip, Refusal>
    ensures { SlippedOctets watch.old report.now (refused_by result) watch.new (told_by result) }
{
    let [missing, number, second, _] = *report;
    let (after, slip) = slips::step(*watch, missing, number, second)?;
    *watch = after;
    Ok(slip)
}

// Brings the watch forward by the report of a cell that was taken, writes what it tells and how many cells, and gives the refusal: 0,
// or 4 or 31, where the watch is left as it was and `slip` is zeros.
pub fn rime_slip(watch: &mut [u8; 7], report: &[u8; 4], slip: &mut [u8; 2]) -> u8
    ensures { SlippedOctets watch.old report.now result watch.new slip.new }
{
    match stepped(watch, report) {
        Ok(told) => {
            *slip = told.octets();
            0
        }
        Err(refusal) => {
            *slip = [0; 2];
            refusal.into()
        }
    }
}
