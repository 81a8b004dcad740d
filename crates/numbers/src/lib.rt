#![tactic(auto)]
// The sequencing word, document 01: the cell number and its protection, the second number, and the difference of numbers.
ghost use Rattle.std.specs.Prelude.{◌≡◌, ◌*◌, ◌%◌};
ghost use Rattle.runs.specs.Division.{remainder};
ghost use Rattle.numbers.specs.Numbers.{turned, entry_of, Finds, difference_of, indication_refused};
ghost use Rattle.numbers.specs.Code.{sequence_of};

// Four bits, the others not looked at, in the opposite order.
fn turned_round(bits: u8) -> u8
    ensures { result ≡ turned bits }
{
    bits % 2 * 8 + bits / 2 % 2 * 4 + bits / 4 % 2 * 2 + bits / 8 % 2
}

// What is left when x^3 times the four bits of a number is divided, modulo 2, by x^3 + x + 1.
//
// It is long division as on paper. Each line looks at one term, from x^6 down to x^3. Where the term is there, the divisor is taken
// off (modulo 2 that is an exclusive or), moved so that its own highest term meets this one, and the term is gone. The rest has
// terms below x^3 only.
//
// Bits stand as they are sent, the first one lowest: bit 0 is the term x^6, bit 6 the term 1. So the divisor, which is 1011 from
// x^3 down, is written 1101 here, and moves up by one bit from line to line. The rest stands in bits 4 to 6, where the cell has it.
fn remainder_of(number: u64) -> u64
    ensures { result ≡ turned (remainder 3 0b1011 7 (turned (number % 16) * 8) * 2) * 16 }
{
    let from_six = number % 16;
    let from_five = from_six ^ (from_six % 2 * 0b1101);
    let from_four = from_five ^ (from_five / 2 % 2 * 0b11010);
    let from_three = from_four ^ (from_four / 4 % 2 * 0b110100);
    from_three ^ (from_three / 8 % 2 * 0b1101000)
}

// The first eight sequencing bits of a cell with this number, taken modulo 16, the first bit sent lowest: the number's four bits, the
// remainder's three complemented, and the bit that makes the count of ones even.
fn first_eight(number: u8) -> u8
    ensures { result ≡ sequence_of (entry_of (number % 16)) 0 }
{
    let four = (number % 16) as u64;
    let seven = ((four + (remainder_of(four) ^ 0b111_0000)) % 256) as u8;
    seven + (u8::count_ones(seven) % 2) as u8 * 128
}

// The entry of a number, which is taken modulo 16: its first eight sequencing bits, the first bit sent being the top one.
pub fn entry_of(number: u8) -> u8
    ensures { result ≡ entry_of (number % 16) }
{
    let eight = first_eight(number);
    turned_round(eight) * 16 + turned_round(eight / 16)
}

// The number that eight sequencing bits are, or nothing where they equal no entry of the table. A cell number is accepted only if all
// eight bits are those that belong to it. The first four are the number's own bits; it is the other four that are worked out and compared.
pub fn number_of(word: u8) -> Option<u8>
    ensures { Finds word result }
{
    let number = turned_round(word / 16);
    if first_eight(number) / 16 == turned_round(word) {
        Some(number)
    } else {
        None
    }
}

// The sequencing bits of all slots for a cell with this number, taken modulo 16, and this second number, slot k's worth 2^k.
pub fn sequence_of(number: u8, second: u8) -> u64
    ensures { result ≡ sequence_of (entry_of (number % 16)) second }
{
    first_eight(number) as u64 + second as u64 * 256
}

// The difference of two numbers modulo 16.
#[tactic(auto, unfolding(crate::specs::Numbers::difference_of))]
pub fn difference(number: u8, last: u8) -> u8
    ensures { result ≡ difference_of number last }
{
    number.wrapping_sub(last) % 16
}

// Whether the indication is 1 where the number isn't a multiple of 8.
#[tactic(auto, unfolding(crate::specs::Numbers::indication_refused))]
pub fn indication_refused(number: u8, indication: bool) -> bool
    ensures { result ≡ indication_refused number indication }
{
    indication && number % 8 != 0
}
