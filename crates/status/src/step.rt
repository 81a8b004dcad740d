// One step of a channel's status, by value.
ghost use Rattle.std.specs.Prelude.{◌≡◌, ◌<◌, ◌%◌, ◌^◌};
ghost use Rattle.status.specs.Answers.{number_of_fit, answered_step};
ghost use Rattle.status.specs.Bits.{octet_with, with_bit};
ghost use Rattle.status.specs.Step.{step_of, fit_of, unfinished, finished, is_refused};

use crate::check::check_character;
use refusals::Refusal;

// A block under assembly: how many bits of it have come, and its octets.
#[derive(Clone, Copy, Debug, PartialEq, Eq, Hash)]
pub struct Block {
    pub bits: u8,
    pub octets: [u8; 24],
}

// What is answered of a finished block's check character.
#[derive(Clone, Copy, Debug, PartialEq, Eq, Hash)]
pub enum Fit {
    // octet 23 is another
    Differs = 1,
    // octet 23 is the check character of octets 0 to 22
    Fits = 2,
    // a block of consumer use carries none
    NoneCarried = 3,
}

impl From<Fit> for u8 {
    ghost from_gives = { λ fit number. number ≡ number_of_fit fit };

    #[tactic(auto, unfolding(crate::specs::Answers::number_of_fit))]
    fn from(fit: Fit) -> u8 {
        fit as u8
    }
}

// A finished block of 192 bits.
#[derive(Clone, Copy, Debug, PartialEq, Eq, Hash)]
pub struct Finished {
    pub fit: Fit,
    pub octets: [u8; 24],
}

// The block under assembly past a step, and the block that the step finished.
#[derive(Clone, Copy, Debug, PartialEq, Eq, Hash)]
pub struct Stepped {
    pub block: Block,
    pub handed: Option<Finished>,
}

// A block of no bits.
const NO_BLOCK: Block = Block {
    bits: 0,
    octets: [0; 24],
};

pub(crate) fn unfinished_with(block: Block) -> Stepped
    ensures { answered_step block (Ok result) ≡ unfinished 0 block }
{
    Stepped {
        block,
        handed: None,
    }
}

// What is answered of a finished block. A block of consumer use, whose first bit is 0, carries no check character.
#[tactic(auto, unfolding(crate::specs::Step::fit_of, crate::specs::Bits::bit_of, crate::specs::Answers::number_of_fit))]
fn answer_of(octets: [u8; 24]) -> Fit
    ensures { number_of_fit result ≡ fit_of octets }
{
    if octets[0] % 2 == 0 {
        return Fit::NoneCarried;
    }
    if octets[23] == check_character(octets) {
        return Fit::Fits;
    }
    Fit::Differs
}

pub(crate) fn finished_with(octets: [u8; 24]) -> Stepped
    ensures { (block : Block) → answered_step block (Ok result) ≡ finished octets }
{
    let finished = Finished {
        fit: answer_of(octets),
        octets,
    };
    Stepped {
        block: NO_BLOCK,
        handed: Some(finished),
    }
}

#[tactic(auto, unfolding(crate::specs::Step::is_refused))]
fn refused(bits: u8, ancillary: u8, mark: u8) -> bool
    ensures { result ≡ is_refused bits ancillary mark }
{
    2 < mark || (15 < ancillary || 191 < bits)
}

// What bit k is worth in its octet.
fn worth_of(k: u8) -> u8
    ensures { result ≡ 2 ^ (k % 8) }
{
    1u8 << (k % 8)
}

// The octet that bit k of a block is in, with that bit made c.
#[tactic(auto, using(crate::proofs::Laws::old_le, crate::proofs::Laws::new_lt, crate::proofs::Laws::put_lt), unfolding(crate::specs::Bits::octet_with))]
fn octet_with(octet: u8, k: u8, c: u8) -> u8
    requires { c < 2 }
    ensures { result ≡ octet_with octet (k % 8) c }
{
    let worth = worth_of(k);
    let old = octet / worth % 2 * worth;
    let new = c * worth;
    octet - old + new
}

// The octets with bit k made c, the other bits as they were.
#[tactic(auto, unfolding(crate::specs::Bits::with_bit))]
fn with_bit(mut octets: [u8; 24], k: u8, c: u8) -> [u8; 24]
    requires { (k < 192) × (c < 2) }
    ensures { result ≡ with_bit octets k c }
{
    let at = usize::from(k / 8);
    octets[at] = octet_with(octets[at], k, c);
    octets
}

// Takes the block under assembly, an ancillary number and its mark; gives the block brought forward, and the block that is finished.
// Refused (14) where the mark is above 2, the ancillary number above 15 or the block has more than 191 bits: the block is then
// as it was, and none goes out.
#[tactic(auto, unfolding(crate::specs::Step::step_of, crate::specs::Step::added_to, crate::specs::Step::is_refused, refusals::specs::Refusals::number_of))]
#[inline(always)]
pub fn step(block: Block, ancillary: u8, mark: u8) -> Result<Stepped, Refusal>
    ensures { answered_step block result ≡ step_of block ancillary mark }
{
    if refused(block.bits, ancillary, mark) {
        return Err(Refusal::Status);
    }
    if mark == 2 {
        return Ok(unfinished_with(NO_BLOCK));
    }
    let c = ancillary / 4 % 2;
    if ancillary / 8 == 1 {
        let first = with_bit([0; 24], 0, c);
        return Ok(unfinished_with(Block {
            bits: 1,
            octets: first,
        }));
    }
    if block.bits == 0 {
        return Ok(unfinished_with(block));
    }
    let octets = with_bit(block.octets, block.bits, c);
    if block.bits < 191 {
        let bits = block.bits + 1;
        return Ok(unfinished_with(Block { bits, octets }));
    }
    Ok(finished_with(octets))
}
