#![tactic(auto)]
// Cells, document 01: one subframe, placement, and a whole cell there and back. Packing stands with the sender and unpacking with
// the receiver. Here are the laws that both share, and the few steps of the code that both take.
ghost use Rattle.std.specs.Prelude.{◌≡◌, ◌%◌, ◌^◌, ◌<◌};
ghost use Rattle.cells.specs.Code.{step_on, turned_two, turned_four};

// The next place in order 1, of `used` places: `step` further on, or past the last one back to where the next row begins. Sums wrap
// modulo 2^64, which no place in a cell comes near.
pub fn next_place(step: usize, used: usize, at: usize) -> usize
    ensures { result ≡ step_on step used at % 2 ^ 64 }
{
    if at < used.saturating_sub(step) {
        return at + step;
    }
    at.wrapping_add(step).wrapping_sub(used.saturating_sub(1))
}

// A number's two lowest octets in the opposite order.
pub fn turned_two(x: u64) -> u64
    ensures { (result ≡ turned_two x) × (result < 65536) }
{
    x % 256 * 256 + x / 256 % 256
}

// A number's four lowest octets in the opposite order.
pub fn turned_four(x: u64) -> u64
    ensures { (result ≡ turned_four x) × (result < 4294967296) }
{
    x % 256 * 16777216 + x / 256 % 256 * 65536 + x / 65536 % 256 * 256 + x / 16777216 % 256
}
