// Reading octets: numbers of one to six octets, most significant octet first, and the subframe of a slot.
ghost use Rattle.std.specs.Prelude.{◌≡◌, ◌+◌, ◌*◌, ◌≤◌, ◌<◌, length, get_or};
ghost use Rattle.formats.specs.Sound.{Sound};
ghost use Rattle.cells.specs.Cells.{subframe_at};
ghost use Rattle.cells.specs.Code.{turned_two, turned_four};
ghost use Rattle.receiver.specs.Unpacking.{two_at};

use formats::Format;

// Two octets, the first as the lowest. This and turning round are functions of their own, so that the compiler reads the octets by
// one load. In one function, or with the highest first, it reads them one by one.
fn low2(octets: &[u8], at: usize) -> u64
    requires { at + 2 ≤ length octets.now }
    ensures { turned_two result ≡ two_at octets.now at }
{
    octets[at] as u64 + octets[at + 1] as u64 * 256
}

fn in2(octets: &[u8], at: usize) -> u64
    requires { at + 2 ≤ length octets.now }
    ensures { (result ≡ two_at octets.now at) × (result < 65536) }
{
    cells::turned_two(low2(octets, at))
}

fn in3(octets: &[u8], at: usize) -> u64
    requires { at + 3 ≤ length octets.now }
    ensures { result ≡ two_at octets.now at * 256 + get_or octets.now (at + 2) 0 }
{
    in2(octets, at) * 256 + octets[at + 2] as u64
}

fn low4(octets: &[u8], at: usize) -> u64
    requires { at + 4 ≤ length octets.now }
    ensures { turned_four result ≡ two_at octets.now at * 65536 + two_at octets.now (at + 2) }
{
    octets[at] as u64
        + octets[at + 1] as u64 * 256
        + octets[at + 2] as u64 * 65536
        + octets[at + 3] as u64 * 16777216
}

pub(crate) fn in4(octets: &[u8], at: usize) -> u64
    requires { at + 4 ≤ length octets.now }
    ensures { (result ≡ two_at octets.now at * 65536 + two_at octets.now (at + 2)) × (result < 4294967296) }
{
    cells::turned_four(low4(octets, at))
}

fn in6(octets: &[u8], at: usize) -> u64
    requires { at + 6 ≤ length octets.now }
    ensures { result ≡ (two_at octets.now at * 65536 + two_at octets.now (at + 2)) * 65536 + two_at octets.now (at + 4) }
{
    in4(octets, at) * 65536 + in2(octets, at + 4)
}

// The subframe of a slot. The compiler makes a loop over slots once for each width, because these are ifs and no match.
pub(crate) fn subframe_in(format: Format, cell: &[u8], slot: usize) -> u64
    requires { Sound format × (length cell.now ≡ 48) × (slot < format.slots) }
    ensures { result ≡ subframe_at format cell.now slot }
{
    let width = format.width;
    if width == 4 {
        return in4(cell, slot * 4);
    }
    if width == 3 {
        return in3(cell, slot * 3);
    }
    if width == 2 {
        return in2(cell, slot * 2);
    }
    if width == 6 {
        return in6(cell, slot * 6);
    }
    cell[slot] as u64
}

// The subframe of a slot where it has three octets and one more stands behind it: all four by one load.
pub(crate) fn three_in(format: Format, cell: &[u8], slot: usize) -> u64
    requires { Sound format × (format.width ≡ 3) × (length cell.now ≡ 48) × (slot + 1 < format.slots) }
    ensures { result ≡ subframe_at format cell.now slot }
{
    in4(cell, slot * 3) / 256
}
