// Data units for the other building's network (IEC 62379-5-2), for C, Rust and Python: each call puts the answer of the proved
// function into lent memory.
ghost use Rattle.rimesatchel.specs.Network.{ExportedUnits, ReadUnit};

// What the receiver wrote as data units: the refusal (0, or 1, 2, 5, 6, 26, 27, 28, and then nothing is written), and in `units` octets
// written, octets of a full unit, how many units; zeros where it is refused.
pub fn rime_units_export(
    format: u32,
    channels: u32,
    size: usize,
    samples: &[u64],
    ancillary: &[u8],
    out: &mut [u8],
    units: &mut [u64; 3],
) -> u8
    ensures { ExportedUnits format channels size samples.now ancillary.now out.old result out.new units.new }
{
    let left = units::export_units(format, channels, size, samples, ancillary, out);
    *units = [left.octets as u64, left.full as u64, left.units as u64];
    left.refusal
}

// One data unit read back: the refusal (0, or 1, 2, 5, 26, 28, and then nothing is written), and in `entries` how many the unit had; 0
// where it is refused.
pub fn rime_unit_read(
    format: u32,
    channels: u32,
    unit: &[u8],
    samples: &mut [u64],
    ancillary: &mut [u8],
    entries: &mut u64,
) -> u8
    ensures { ReadUnit format channels unit.now samples.old ancillary.old result samples.new ancillary.new entries.new }
{
    let left = units::read_unit(format, channels, unit, samples, ancillary);
    *entries = left.entries as u64;
    left.refusal
}
