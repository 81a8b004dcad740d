// Writing a number's octets into a cell, the highest first.
ghost use Rattle.std.specs.Prelude.{◌≡◌, ◌+◌, ◌≤◌, ◌++◌, length, take, drop};
ghost use Rattle.runs.specs.Runs.{octets_of};

// Writes the last octets of a number's eight.
fn put_last(cell: &mut [u8], at: usize, width: usize, number: u64)
    requires { (at + width ≤ length cell.old) × (width ≤ 6) }
    ensures { cell.new ≡ take at cell.old ++ octets_of width number ++ drop (at + width) cell.old }
{
    cell[at..at + width].copy_from_slice(&number.to_be_bytes()[8 - width..]);
}

// Writes two octets by one store.
fn put_two(cell: &mut [u8], at: usize, number: u64)
    requires { at + 2 ≤ length cell.old }
    ensures { cell.new ≡ take at cell.old ++ octets_of 2 number ++ drop (at + 2) cell.old }
{
    cell[at..at + 2].copy_from_slice(&((number % 65536) as u16).to_be_bytes());
}

// Writes four octets by one store.
pub(crate) fn put_four(cell: &mut [u8], at: usize, number: u64)
    requires { at + 4 ≤ length cell.old }
    ensures { cell.new ≡ take at cell.old ++ octets_of 4 number ++ drop (at + 4) cell.old }
{
    cell[at..at + 4].copy_from_slice(&((number % 4294967296) as u32).to_be_bytes());
}

// Writes a subframe's octets. Where the width is a constant no test of it is left.
pub(crate) fn put(cell: &mut [u8], at: usize, width: usize, number: u64)
    requires { (at + width ≤ length cell.old) × (width ≤ 6) }
    ensures { cell.new ≡ take at cell.old ++ octets_of width number ++ drop (at + width) cell.old }
{
    match width {
        1 => put_last(cell, at, 1, number),
        2 => put_two(cell, at, number),
        3 => put_last(cell, at, 3, number),
        4 => put_four(cell, at, number),
        6 => put_last(cell, at, 6, number),
        _ => put_last(cell, at, width, number),
    }
}
