// Unpacking: the subframes of a unit, one after the other, each taken apart into its sample and its ancillary number.
ghost use Rattle.std.specs.Prelude.{◌≡◌, ◌+◌, ◌%◌, ◌^◌, ◌≤◌, ◌<◌, length, take, drop};
ghost use Rattle.runs.specs.Runs.{number_of};
ghost use Rattle.units.specs.Code.{Unpackable, Unpacks};

// The number of some octets, the highest first.
fn number_at(unit: &[u8], at: usize, width: usize) -> u64
    requires { (at + width ≤ length unit.now) × (width ≤ 6) }
    ensures { result ≡ number_of (take width (drop at unit.now)) }
{
    let mut number = 0;
    for octet in &unit[at..at + width] {
        number = number * 256 + u64::from(*octet);
    }
    number
}

// Reads each subframe and takes it apart.
fn enter(
    base: u64,
    width: usize,
    entries: usize,
    unit: &[u8],
    samples: &mut [u64],
    ancillary: &mut [u8],
)
    requires { Unpackable base width entries unit.now samples.old ancillary.old }
    ensures { Unpacks base width entries unit.now samples.old ancillary.old samples.new ancillary.new }
{
    for i in 0..entries {
        let number = number_at(unit, i * width, width);
        samples[i] = number / base;
        ancillary[i] = (number % base) as u8;
    }
}

// The same, by how many ancillary bits there are.
fn enter_by(
    bits: u64,
    width: usize,
    entries: usize,
    unit: &[u8],
    samples: &mut [u64],
    ancillary: &mut [u8],
)
    requires { (bits % 4 ≡ 0) × (bits ≤ 4) × Unpackable (2 ^ bits) width entries unit.now samples.old ancillary.old }
    ensures { Unpacks (2 ^ bits) width entries unit.now samples.old ancillary.old samples.new ancillary.new }
{
    if bits == 0 {
        enter(1, width, entries, unit, samples, ancillary);
    } else {
        enter(16, width, entries, unit, samples, ancillary);
    }
}

// The same, by how many octets a subframe has.
pub(crate) fn unpack(
    bits: u64,
    width: usize,
    entries: usize,
    unit: &[u8],
    samples: &mut [u64],
    ancillary: &mut [u8],
)
    requires { (bits % 4 ≡ 0) × (bits ≤ 4) × Unpackable (2 ^ bits) width entries unit.now samples.old ancillary.old }
    ensures { Unpacks (2 ^ bits) width entries unit.now samples.old ancillary.old samples.new ancillary.new }
{
    match width {
        1 => enter_by(bits, 1, entries, unit, samples, ancillary),
        2 => enter_by(bits, 2, entries, unit, samples, ancillary),
        3 => enter_by(bits, 3, entries, unit, samples, ancillary),
        4 => enter_by(bits, 4, entries, unit, samples, ancillary),
        _ => enter_by(bits, width, entries, unit, samples, ancillary),
    }
}
