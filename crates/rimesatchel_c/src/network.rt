// The calls of `rimesatchel::network` for C: each calls the function of its name, and states its clauses again.
ghost use Rattle.rimesatchel.specs.Network.{ExportedUnits, ReadUnit};

#[unsafe(no_mangle)]
pub extern "C" fn rime_units_export(
    format: u32,
    channels: u32,
    size: usize,
    samples: &[u64],
    ancillary: &[u8],
    out: &mut [u8],
    units: &mut [u64; 3],
) -> u8
    ensures { ExportedUnits format channels size samples.now ancillary.now out.old result out.new units.new }
{
    rimesatchel::network::rime_units_export(format, channels, size, samples, ancillary, out, units)
}

#[unsafe(no_mangle)]
pub extern "C" fn rime_unit_read(
    format: u32,
    channels: u32,
    unit: &[u8],
    samples: &mut [u64],
    ancillary: &mut [u8],
    entries: &mut u64,
) -> u8
    ensures { ReadUnit format channels unit.now samples.old ancillary.old result samples.new ancillary.new entries.new }
{
    rimesatchel::network::rime_unit_read(format, channels, unit, samples, ancillary, entries)
}
