// What an export and a reading refuse, in the request's order.
ghost use Rattle.std.specs.Prelude.{◌≡◌, ◌≤◌, length};
ghost use Rattle.refusals.specs.Refusals.{refused_by};
ghost use Rattle.formats.specs.Settings.{settled_as, settings_of};
ghost use Rattle.sender.specs.Packing.{Unites};
ghost use Rattle.units.specs.Units.{runs_refused, values_refused, export_refusal, unit_refused, read_refusal};

use formats::{Format, Layout};
use refusals::Refusal;

// The bits that any sample has, and those that any ancillary number has: they are below a power of two just where all the numbers
// are.
#[derive(Clone, Copy, Debug, PartialEq, Eq, Hash)]
struct AllBits {
    samples: u64,
    ancillary: u8,
}

fn united(samples: &[u64], ancillary: &[u8]) -> AllBits
    requires { length ancillary.now ≡ length samples.now }
    ensures { Unites samples.now result.samples × Unites ancillary.now result.ancillary }
{
    let mut all = 0;
    let mut few = 0;
    for (i, sample) in samples.iter().enumerate() {
        all |= *sample;
        few |= ancillary[i];
    }
    AllBits {
        samples: all,
        ancillary: few,
    }
}

// Check 6.
#[tactic(auto, using(sender::proofs::Laws::samples_refused, sender::proofs::Laws::ancillary_refused), unfolding(crate::specs::Units::values_refused))]
fn values_refused(format: Format, samples: &[u64], ancillary: &[u8]) -> bool
    requires { (format.sample_bits ≤ 40) × (format.ancillary_bits ≤ 4) × (length ancillary.now ≡ length samples.now) }
    ensures { result ≡ values_refused format samples.now ancillary.now }
{
    let bits = united(samples, ancillary);
    1 << format.sample_bits <= bits.samples
        || 1 << format.ancillary_bits <= u64::from(bits.ancillary)
}

// Check 5 of an export: the runs are told by their lengths.
#[tactic(auto, unfolding(crate::specs::Units::runs_refused))]
fn runs_refused(channels: usize, samples: usize, ancillary: usize) -> bool
    requires { 1 ≤ channels }
    ensures { result ≡ runs_refused channels samples ancillary }
{
    ancillary != samples || samples % channels != 0
}

// All checks of an export, by the settings of its octet and C; `room` is how many octets are lent.
pub(crate) fn checked_export(
    octet: u32,
    channels: u32,
    set: Layout,
    size: usize,
    samples: &[u64],
    ancillary: &[u8],
    room: usize,
) -> Result<(), Refusal>
    requires { settled_as set ≡ settings_of octet channels 0 }
    ensures { refused_by result ≡ export_refusal octet channels size samples.now ancillary.now room }
{
    if runs_refused(set.channels, samples.len(), ancillary.len()) {
        return Err(Refusal::Length);
    }
    let format = set.format;
    if values_refused(format, samples, ancillary) {
        return Err(Refusal::Sample);
    }
    if format.overhead_bits != 0 {
        return Err(Refusal::Overhead);
    }
    if size < set.channels * format.width {
        return Err(Refusal::UnitSize);
    }
    if room < samples.len() * format.width {
        return Err(Refusal::UnitRoom);
    }
    Ok(())
}

// Check 5 of a reading.
#[tactic(auto, unfolding(crate::specs::Units::unit_refused))]
fn unit_refused(frame: usize, unit: usize, samples: usize, ancillary: usize) -> bool
    requires { 1 ≤ frame }
    ensures { result ≡ unit_refused frame unit samples ancillary }
{
    ancillary != samples || unit == 0 || unit % frame != 0
}

// All checks of a reading, by the settings of its octet and C; the unit and the runs are told by their lengths.
pub(crate) fn checked_read(
    octet: u32,
    channels: u32,
    set: Layout,
    unit: usize,
    samples: usize,
    ancillary: usize,
) -> Result<(), Refusal>
    requires { settled_as set ≡ settings_of octet channels 0 }
    ensures { refused_by result ≡ read_refusal octet channels unit samples ancillary }
{
    let format = set.format;
    if unit_refused(set.channels * format.width, unit, samples, ancillary) {
        return Err(Refusal::Length);
    }
    if format.overhead_bits != 0 {
        return Err(Refusal::Overhead);
    }
    if samples < unit / format.width {
        return Err(Refusal::UnitRoom);
    }
    Ok(())
}
