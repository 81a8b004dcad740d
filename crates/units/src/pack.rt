// Packing: the subframes of all entries, one after the other. They stand so in frames and units, whatever the size of a unit.
//
// One loop serves all formats. It is called with a format's numbers as constants, so that the compiler makes a loop of each without
// a width that varies.
ghost use Rattle.std.specs.Prelude.{◌++◌, ◌≡◌, ◌+◌, ◌*◌, ◌%◌, ◌^◌, ◌≤◌, length, take, drop};
ghost use Rattle.runs.specs.Runs.{octets_of};
ghost use Rattle.units.specs.Code.{packed, Packable};

// Writes a number's octets, the highest first. One by one: copied from `to_be_bytes` those of a format of two octets or four take up to
// a sixth more instructions.
fn put(out: &mut [u8], at: usize, width: usize, number: u64)
    requires { (at + width ≤ length out.old) × (width ≤ 6) }
    ensures { out.new ≡ take at out.old ++ octets_of width number ++ drop (at + width) out.old }
{
    for i in 0..width {
        out[at + i] = ((number >> (8 * (width - 1 - i))) % 256) as u8;
    }
}

// Writes the subframe of each entry.
fn fill(base: u64, width: usize, samples: &[u64], ancillary: &[u8], out: &mut [u8])
    requires { Packable base width samples.now ancillary.now out.old }
    ensures { out.new ≡ packed base width samples.now ancillary.now out.old }
{
    for (i, sample) in samples.iter().enumerate() {
        let number = *sample * base + u64::from(ancillary[i]);
        put(out, i * width, width, number);
    }
}

// The same, by how many ancillary bits there are.
fn fill_by(bits: u64, width: usize, samples: &[u64], ancillary: &[u8], out: &mut [u8])
    requires { (bits % 4 ≡ 0) × (bits ≤ 4) × Packable (2 ^ bits) width samples.now ancillary.now out.old }
    ensures { out.new ≡ packed (2 ^ bits) width samples.now ancillary.now out.old }
{
    if bits == 0 {
        fill(1, width, samples, ancillary, out);
    } else {
        fill(16, width, samples, ancillary, out);
    }
}

// The same, by how many octets a subframe has.
pub(crate) fn pack(bits: u64, width: usize, samples: &[u64], ancillary: &[u8], out: &mut [u8])
    requires { (bits % 4 ≡ 0) × (bits ≤ 4) × Packable (2 ^ bits) width samples.now ancillary.now out.old }
    ensures { out.new ≡ packed (2 ^ bits) width samples.now ancillary.now out.old }
{
    match width {
        1 => fill_by(bits, 1, samples, ancillary, out),
        2 => fill_by(bits, 2, samples, ancillary, out),
        3 => fill_by(bits, 3, samples, ancillary, out),
        4 => fill_by(bits, 4, samples, ancillary, out),
        _ => fill_by(bits, width, samples, ancillary, out),
    }
}
