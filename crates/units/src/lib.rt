#![tactic(auto)]
// Data units of IEC 62379-5-2 (source document 004, 7.3) with synchronisation information absent, request 13 of document 02. What the
// receiver wrote leaves as units of whole frames, and a unit that comes is read back. A frame is one subframe for each channel at one
// time. Only formats without overhead leave this way.
ghost use Rattle.std.specs.Prelude.{◌≡◌, ◌≤◌};
ghost use Rattle.units.specs.Units.{units_of, not_exported, Exports, Reads};

mod judge;
mod pack;
mod unpack;

// The refusal (0: none); octets written, octets of a full unit, how many units. All else is zero where the export is refused.
#[derive(Clone, Copy, Debug, PartialEq, Eq, Hash)]
pub struct Exported {
    pub refusal: u8,
    pub octets: usize,
    pub full: usize,
    pub units: usize,
}

// The refusal (0: none), and how many entries the unit had: 0 where it is refused.
#[derive(Clone, Copy, Debug, PartialEq, Eq, Hash)]
pub struct Entered {
    pub refusal: u8,
    pub entries: usize,
}

// How many units hold so many frames, `fit` in each but perhaps the last.
#[tactic(auto, unfolding(crate::specs::Units::units_of))]
fn units_of(frames: usize, fit: usize) -> usize
    requires { 1 ≤ fit }
    ensures { result ≡ units_of frames fit }
{
    frames.div_ceil(fit)
}

fn not_exported(refusal: u8) -> Exported
    ensures { result ≡ not_exported refusal }
{
    Exported {
        refusal,
        octets: 0,
        full: 0,
        units: 0,
    }
}

// Writes the data units of all frames, end to end, from the start of `out`; what stands past them stays. A unit holds as many frames
// as fit `size` octets, the last one perhaps fewer. The runs hold time after time, channels side by side. Marks don't leave: an entry
// of a missing cell goes out as the zeros that it is. Refused: 1, 2, 5, 6, 26, 27, 28, and then nothing is written.
pub fn export_units(
    octet: u32,
    channels: u32,
    size: usize,
    samples: &[u64],
    ancillary: &[u8],
    out: &mut [u8],
) -> Exported
    ensures { Exports octet channels size samples.now ancillary.now out.old result out.new }
{
    let set = match formats::settings(octet, channels, 0) {
        Ok(set) => set,
        Err(refusal) => return not_exported(refusal.into()),
    };
    if let Err(refusal) = judge::checked_export(
        octet,
        channels,
        set,
        size,
        samples,
        ancillary,
        out.len(),
    ) {
        return not_exported(refusal.into());
    }
    let width = set.format.width;
    let frame = set.channels * width;
    let fit = size / frame;
    let units = units_of(samples.len() / set.channels, fit);
    pack::pack(set.format.ancillary_bits, width, samples, ancillary, out);
    Exported {
        refusal: 0,
        octets: samples.len() * width,
        full: fit * frame,
        units,
    }
}

// Reads one data unit: its entries go into the two runs from their start; what stands past them stays. Ancillary is 0 where the
// format has none. Refused: 1, 2, 5, 26, 28, and then nothing is written.
pub fn read_unit(
    octet: u32,
    channels: u32,
    unit: &[u8],
    samples: &mut [u64],
    ancillary: &mut [u8],
) -> Entered
    ensures { Reads octet channels unit.now samples.old ancillary.old result samples.new ancillary.new }
{
    let set = match formats::settings(octet, channels, 0) {
        Ok(set) => set,
        Err(refusal) => {
            return Entered {
                refusal: refusal.into(),
                entries: 0,
            };
        }
    };
    if let Err(refusal) = judge::checked_read(
        octet,
        channels,
        set,
        unit.len(),
        samples.len(),
        ancillary.len(),
    ) {
        return Entered {
            refusal: refusal.into(),
            entries: 0,
        };
    }
    let width = set.format.width;
    let entries = unit.len() / width;
    unpack::unpack(
        set.format.ancillary_bits,
        width,
        entries,
        unit,
        samples,
        ancillary,
    );
    Entered {
        refusal: 0,
        entries,
    }
}
