#![tactic(auto)]
// Protection of a sample, document 01: the three bits as a table. tools/tables.py prints its numbers.
ghost use Rattle.std.specs.Prelude.{◌≡◌, ◌%◌};
ghost use Rattle.guards.specs.Guards.{ten_guard};
ghost use Rattle.guards.specs.Code.{seven_guards};

// Entry n: the protection bits of the number n. Nine sample bits and V are ten bits; those ten have the protection bits of the seven
// that are left when the top three are added to the low ones without carries.
static SEVENS: [u8; 128] = [
    7, 4, 1, 2, 0, 3, 6, 5, 2, 1, 4, 7, 5, 6, 3, 0, 6, 5, 0, 3, 1, 2, 7, 4, 3, 0, 5, 6, 4, 7, 2, 1,
    5, 6, 3, 0, 2, 1, 4, 7, 0, 3, 6, 5, 7, 4, 1, 2, 4, 7, 2, 1, 3, 0, 5, 6, 1, 2, 7, 4, 6, 5, 0, 3,
    3, 0, 5, 6, 4, 7, 2, 1, 6, 5, 0, 3, 1, 2, 7, 4, 2, 1, 4, 7, 5, 6, 3, 0, 7, 4, 1, 2, 0, 3, 6, 5,
    1, 2, 7, 4, 6, 5, 0, 3, 4, 7, 2, 1, 3, 0, 5, 6, 0, 3, 6, 5, 7, 4, 1, 2, 5, 6, 3, 0, 2, 1, 4, 7,
];

// The protection bits of ten bits, read at the seven that they are folded to; of a number above 1,023 those of its ten low bits.
pub fn of_ten(number: u64) -> u64
    ensures { result ≡ ten_guard (number % 1024) }
{
    let ten = number % 1024;
    u64::from(SEVENS[((ten ^ (ten >> 7)) % 128) as usize])
}

// The table, by value: a caller fetches it once for all slots of a cell, and reads it at `(ten ^ (ten >> 7)) % 128`.
pub fn sevens() -> [u8; 128]
    ensures { result ≡ seven_guards }
{
    SEVENS
}
