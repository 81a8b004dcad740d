// The check character of a block: long division modulo 2, as Appendix 2 of source document 002 has it.
ghost use Rattle.std.specs.Prelude.{◌≡◌, ◌<◌};
ghost use Rattle.runs.specs.Division.{taken_down};
ghost use Rattle.status.specs.Check.{check_character, generator, turned_of};
ghost use Rattle.status.specs.Eight.{divided_octet, octet_down};

// x^8 + x^4 + x^3 + x^2 + 1
const GENERATOR: u64 = 0b1_0001_1101;

// One step of long division: takes the next coefficient down, and takes the generator off where x^8 comes up.
#[tactic(auto, using(crate::proofs::Laws::xor_low), unfolding(runs::specs::Division::taken_down))]
fn taken_down(rest: u64, coefficient: u64) -> u64
    requires { (rest < 256) × (coefficient < 2) }
    ensures { (result ≡ taken_down 8 generator rest coefficient) × (result < 256) }
{
    let taken = rest * 2 + coefficient;
    if taken < 256 {
        taken
    } else {
        taken ^ GENERATOR
    }
}

// The octet whose bits, the lowest first, are the eight coefficients from place 8k on of what is divided.
#[tactic(auto, unfolding(crate::specs::Eight::divided_octet))]
fn divided_octet(octet: u8, k: usize) -> u64
    ensures { (result ≡ divided_octet octet k) × (result < 256) × (octet < 256) }
{
    if k == 0 {
        255 - u64::from(octet)
    } else if k < 23 {
        u64::from(octet)
    } else {
        0
    }
}

// Eight steps of long division, by the bits of an octet, the lowest first.
#[tactic(auto, using(crate::proofs::Laws::divided_snoc), unfolding(crate::specs::Eight::octet_down, runs::specs::Division::divided, runs::specs::Runs::tab))]
fn octet_down(rest: u64, octet: u64) -> u64
    requires { (rest < 256) × (octet < 256) }
    ensures { (result ≡ octet_down rest octet) × (result < 256) }
{
    let mut now = rest;
    for j in 0..8u32 {
        now = taken_down(now, (octet >> j) % 2);
    }
    now
}

// The remainder as an octet, its highest coefficient as the lowest bit.
fn turned(rest: u64) -> u8
    requires { rest < 256 }
    ensures { result ≡ turned_of rest }
{
    let low = rest / 128 % 2 + rest / 64 % 2 * 2 + rest / 32 % 2 * 4 + rest / 16 % 2 * 8;
    let high = rest / 8 % 2 * 16 + rest / 4 % 2 * 32 + rest / 2 % 2 * 64 + rest % 2 * 128;
    (low + high) as u8
}

// Takes a block of 24 octets and gives the check character of octets 0 to 22. Octet 23 isn't read.
#[tactic(auto, using(crate::proofs::Octets::octet_more), unfolding(runs::specs::Division::divided, runs::specs::Runs::tab))]
pub fn check_character(block: [u8; 24]) -> u8
    ensures { result ≡ check_character block }
{
    let mut rest = 0;
    for (k, octet) in block.iter().enumerate() {
        rest = octet_down(rest, divided_octet(*octet, k));
    }
    turned(rest)
}
