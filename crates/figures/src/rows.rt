// The ten numbers of a row.
ghost use Rattle.std.specs.Prelude.{◌≡◌, ◌+◌, ◌%◌, ◌≤◌, length, take};
ghost use Rattle.runs.specs.Runs.{written};
ghost use Rattle.figures.specs.Code.{held_row};
ghost use Rattle.figures.specs.Figures.{per_million};

use crate::Counts;

// The missing cells per million of sound and missing ones.
fn per_million(sound: u64, missing: u64) -> u64
    requires { (sound ≤ 4294967296) × (missing ≤ 4294967296) }
    ensures { result ≡ per_million sound missing }
{
    let sum = sound + missing;
    if sum == 0 {
        return 0;
    }
    missing * 1000000 / sum
}

// A number in 32 bits.
fn low(n: u64) -> u32
    ensures { result ≡ n % 4294967296 }
{
    (n % 4294967296) as u32
}

pub(crate) fn row_of(c: Counts) -> [u32; 10]
    requires { (c.sound ≤ 4294967296) × (c.missing ≤ 4294967296) }
    ensures { result ≡ held_row c }
{
    [
        c.sound,
        c.missing,
        c.refused_8,
        c.refused_9,
        c.refused_15,
        c.refused_20,
        c.marked_0,
        c.marked_1,
        c.marked_2,
        per_million(c.sound, c.missing),
    ]
    .map(low)
}

// Writes a row from a place on.
pub(crate) fn put(rows: &mut [u32], at: usize, row: [u32; 10])
    requires { (at + 10 ≤ length rows.old) × (length row ≡ 10) }
    ensures { rows.new ≡ written rows.old at row }
{
    rows[at..at + 10].copy_from_slice(&row);
}

// Fills a run from the start of another.
pub(crate) fn copy(rows: &mut [u32], held: &[u32])
    requires { length rows.old ≤ length held.now }
    ensures { rows.new ≡ take (length rows.old) held.now }
{
    let end = rows.len();
    rows.copy_from_slice(&held[..end]);
}
