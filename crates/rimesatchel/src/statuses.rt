// Channel status for C, Rust and Python: 25 octets are a block (bits begun, then the 24 octets under assembly), or what goes
// out (answer 0 neither, 1 doesn't fit, 2 fits, 3 none carried, then the 24 octets handed out).
ghost use Rattle.std.specs.Prelude.{◌∷◌, ◌≡◌, drop};
ghost use Rattle.status.specs.Answers.{answered_handed};
ghost use Rattle.status.specs.Check.{check_character};
ghost use Rattle.rimesatchel.specs.Statuses.{block_of, handed_octets, SteppedOctets, RanOctets};

use status::assembler::brought_forward;
use status::check::check_character;
use status::run::run;
use status::step::{Block, Finished};

fn after_first(octets: [u8; 25]) -> [u8; 24]
    ensures { result ≡ drop 1 octets }
{
    let mut rest = [0; 24];
    rest.copy_from_slice(&octets[1..]);
    rest
}

fn with_first(first: u8, rest: [u8; 24]) -> [u8; 25]
    ensures { result ≡ first ∷ rest }
{
    let mut octets = [first; 25];
    octets[1..].copy_from_slice(&rest);
    octets
}

fn block_of(octets: [u8; 25]) -> Block
    ensures { result ≡ block_of octets }
{
    Block {
        bits: octets[0],
        octets: after_first(octets),
    }
}

fn octets_of(block: Block) -> [u8; 25]
    ensures { result ≡ block.bits ∷ block.octets }
{
    with_first(block.bits, block.octets)
}

// What goes out.
fn handed_octets(handed: Option<Finished>) -> [u8; 25]
    ensures { result ≡ handed_octets (answered_handed (Ok handed)) }
{
    match handed {
        Some(finished) => with_first(finished.fit.into(), finished.octets),
        None => [0; 25],
    }
}

// Brings the block forward by an ancillary number and its mark, writes what goes out, and gives the refusal: 0, or 14 where
// the block is left as it was and `out` is zeros.
pub fn rime_status_step(block: &mut [u8; 25], ancillary: u8, mark: u8, out: &mut [u8; 25]) -> u8
    ensures { SteppedOctets block.old ancillary mark result block.new out.new }
{
    match brought_forward(block_of(*block), ancillary, mark) {
        Ok(stepped) => {
            *block = octets_of(stepped.block);
            *out = handed_octets(stepped.handed);
            0
        }
        Err(refusal) => {
            *out = [0; 25];
            refusal.into()
        }
    }
}

// Brings the block forward by the entries of two runs from one on, every so many-th, until one hands out a block or the runs end.
// Writes what goes out and the entry after the last one used, and gives the refusal: 0, or 5 or 14, where the block is left as it was,
// `out` is zeros and the next entry 0.
pub fn rime_status_run(
    block: &mut [u8; 25],
    ancillary: &[u8],
    marks: &[u8],
    from: u64,
    step: u64,
    out: &mut [u8; 25],
    next: &mut u64,
) -> u8
    ensures { RanOctets block.old ancillary.now marks.now from step result block.new
        out.new next.new }
{
    match run(
        block_of(*block),
        ancillary,
        marks,
        from as usize,
        step as usize,
    ) {
        Ok(ran) => {
            *block = octets_of(ran.stepped.block);
            *out = handed_octets(ran.stepped.handed);
            *next = ran.next as u64;
            0
        }
        Err(refusal) => {
            *out = [0; 25];
            *next = 0;
            refusal.into()
        }
    }
}

// The check character of octets 0 to 22; octet 23 isn't read.
pub fn rime_check_character(block: &[u8; 24]) -> u8
    ensures { result ≡ check_character block.now }
{
    check_character(*block)
}
