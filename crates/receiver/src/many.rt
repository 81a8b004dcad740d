// The cells of records that lie one behind the other in a log, 49 octets each, unpacked one behind the other. Nothing is judged here.
ghost use Rattle.std.specs.Prelude.{true, false, ◌≡◌, ◌+◌, ◌*◌, ◌≤◌, length};
ghost use Rattle.formats.specs.Settings.{settled_as};
ghost use Rattle.formats.specs.Sound.{Limits};
ghost use Rattle.receiver.specs.Unpacking.{used_in, Room, straight};
ghost use Rattle.receiver.specs.Many.{FillsMany, fits_in, UnpacksMany};

use crate::{Receiver, entries, usual};
use formats::Layout;

// Writes `missing` entries of zero with mark 2 to the three runs, and the cells' own entries after them: 56 hex in order 0 with one
// channel or two.
fn usual_cells(
    octets: &[u8],
    place: usize,
    records: usize,
    missing: usize,
    samples: &mut [u64],
    ancillary: &mut [u8],
    marks: &mut [u8],
)
    requires { (place + 49 * records ≤ length octets.now) × Room missing (records * 12) samples.old ancillary.old marks.old }
    ensures { FillsMany straight octets.now place records missing samples.old ancillary.old marks.old samples.new ancillary.new marks.new }
{
    entries::missing_entries(missing, samples, ancillary, marks);
    for k in 0..records {
        let start = place + 49 * k + 1;
        let cell = &octets[start..start + 48];
        usual::own_entries(cell, missing + k * 12, samples, ancillary, marks);
    }
}

// The same whatever the settings.
fn any_cells(
    set: Layout,
    octets: &[u8],
    place: usize,
    records: usize,
    missing: usize,
    samples: &mut [u64],
    ancillary: &mut [u8],
    marks: &mut [u8],
)
    requires { Limits (settled_as set) × (place + 49 * records ≤ length octets.now)
        × Room missing (records * used_in (settled_as set)) samples.old ancillary.old marks.old }
    ensures { FillsMany (settled_as set) octets.now place records missing samples.old ancillary.old marks.old samples.new ancillary.new marks.new }
{
    let used = set.channels * set.times;
    let format = set.format;
    entries::cleared(format, missing, records * used, samples, ancillary, marks);
    for k in 0..records {
        let start = place + 49 * k + 1;
        let cell = &octets[start..start + 48];
        entries::own_entries(set, cell, missing + k * used, samples, ancillary, marks);
    }
}

// Whether there are octets for so many records from a place on, and room for their entries and those of missing cells. The octets and
// the runs are told by their lengths.
#[tactic(auto, unfolding(crate::specs::Many::fits_in))]
fn fits(
    used: usize,
    octets: usize,
    place: usize,
    records: usize,
    missing: u8,
    samples: usize,
    ancillary: usize,
    marks: usize,
) -> bool
    requires { 1 ≤ used }
    ensures { result ≡ fits_in used octets place records missing samples ancillary marks }
{
    place <= octets
        && records <= (octets - place) / 49
        && ancillary == samples
        && marks == samples
        && records + missing as usize <= samples / used
}

// Writes the entries of the cells of so many records from a place of the octets on to the three runs, from their start: before them
// C×T entries of zero with mark 2 for each missing cell. What stands past these stays. Answers no, and writes nothing, where the
// state's settings are refused, the records aren't there or the runs are too short or unequally long.
pub fn unpack(
    state: Receiver,
    octets: &[u8],
    place: usize,
    records: usize,
    missing: u8,
    samples: &mut [u64],
    ancillary: &mut [u8],
    marks: &mut [u8],
) -> bool
    ensures { UnpacksMany state octets.now place records missing samples.old ancillary.old marks.old result samples.new ancillary.new marks.new }
{
    let Ok(set) = formats::settings(
        state.format as u32,
        state.channels as u32,
        state.order as u32,
    ) else {
        return false;
    };
    let used = set.channels * set.times;
    if !fits(
        used,
        octets.len(),
        place,
        records,
        missing,
        samples.len(),
        ancillary.len(),
        marks.len(),
    ) {
        return false;
    }
    let lost = missing as usize * used;
    if formats::is_usual(state.format, state.channels, state.order) {
        usual_cells(octets, place, records, lost, samples, ancillary, marks);
        return true;
    }
    any_cells(set, octets, place, records, lost, samples, ancillary, marks);
    true
}
