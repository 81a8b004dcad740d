// Many steps of a channel's status in one call.
ghost use Rattle.std.specs.Prelude.{true, ◌≡◌, ◌+◌, ◌*◌, ◌/◌, ◌%◌, ◌≤◌, ◌<◌, length, get_or, IfSome};
ghost use Rattle.status.specs.Answers.{answered_run};
ghost use Rattle.status.specs.Run.{ran_of, ran_from, as_whole};
ghost use Rattle.status.specs.Eight.{Eight, Eights, with_eight};

use crate::step::{Block, Stepped, finished_with, step, unfinished_with};
use refusals::Refusal;

// What a run of steps leaves and hands out, and the entry that comes next.
#[derive(Clone, Copy, Debug, PartialEq, Eq, Hash)]
pub struct Ran {
    pub stepped: Stepped,
    pub next: usize,
}

// The C bits of eight entries as an octet, that of the first one lowest. Each is to add a bit alone, but the first may begin a
// block: none where one of them does anything else.
#[tactic(auto, using(crate::proofs::Eights::turn_begun, crate::proofs::Eights::turn_place, crate::proofs::Eights::turn_done))]
fn octet_at(ancillary: &[u8], marks: &[u8], at: usize, step: usize) -> Option<u8>
    requires { (at + 7 * step < length ancillary.now) × (length marks.now ≡ length ancillary.now) }
    ensures { IfSome result (Eight ancillary.now marks.now at step) }
{
    let first = ancillary[at];
    if 15 < first || 1 < marks[at] {
        return None;
    }
    let mut octet = first / 4 % 2;
    let mut place = at;
    for j in 1..8u32 {
        place += step;
        let number = ancillary[place];
        if 7 < number || 1 < marks[place] {
            return None;
        }
        octet += (number / 4) << j;
    }
    Some(octet)
}

// Whether a block of so many bits can take eight entries at once, by the first of them: it begins a block, or no block has begun, or
// whole octets have come.
fn takes_eight(bits: u8, first: u8) -> bool
    ensures { result ≡ true → (bits ≤ 191) × (first ≤ 7 → bits % 8 ≡ 0) }
{
    bits <= 191 && (7 < first || bits % 8 == 0)
}

// The octet where the eight entries are there, the last one so far from the first, and can be taken at once.
fn eight_at(
    bits: u8,
    ancillary: &[u8],
    marks: &[u8],
    at: usize,
    step: usize,
    span: usize,
) -> Option<u8>
    requires { (at < length ancillary.now) × (length marks.now ≡ length ancillary.now) × (span < length ancillary.now → span ≡ 7 * step) }
    ensures { IfSome result (Eights bits ancillary.now marks.now at step span) }
{
    if ancillary.len() - at <= span || !takes_eight(bits, ancillary[at]) {
        return None;
    }
    octet_at(ancillary, marks, at, step)
}

// The block past eight entries that were found so. With 192 bits it is finished.
#[tactic(auto, unfolding(crate::specs::Eight::with_eight))]
fn with_eight(mut block: Block, begins: bool, octet: u8) -> Block
    requires { block.bits ≤ 191 }
    ensures { (result ≡ with_eight block begins octet) × (length block.octets ≡ 24) × (get_or block.octets (block.bits / 8) 0 < 256) }
{
    if begins {
        block.octets = [0; 24];
        block.octets[0] = octet;
        block.bits = 8;
    } else if block.bits != 0 {
        block.octets[usize::from(block.bits / 8)] = octet;
        block.bits += 8;
    }
    block
}

// How far the eighth entry is from the first, or as many as there are where that is further than they go.
fn span_of(entries: usize, step: usize) -> usize
    ensures { result < entries → (result ≡ 7 * step) × (8 * step ≤ entries) }
{
    if entries / 8 < step {
        entries
    } else {
        7 * step
    }
}

// Takes the block under assembly and two runs; gives the block brought forward by the entries from one on, every so many-th,
// until one hands out a block or the run ends, what goes out, and the entry after the last one used. Refused 5 where the runs aren't
// equally long or the steps are of no entry, and 14 as by `step`, at any entry that is used: the block is then as it was.
#[tactic(auto, unfolding(crate::specs::Run::ran_of, refusals::specs::Refusals::number_of))]
pub fn run(
    block: Block,
    ancillary: &[u8],
    marks: &[u8],
    from: usize,
    on: usize,
) -> Result<Ran, Refusal>
    ensures { answered_run block result ≡ ran_of block ancillary.now marks.now from on }
{
    if ancillary.len() != marks.len() || on == 0 {
        return Err(Refusal::Length);
    }
    steps(block, ancillary, marks, from, on)
}

// The steps, eight at a time where they fill an octet. A `while`: no range says whether a turn goes on by one entry or by eight.
fn steps(
    block: Block,
    ancillary: &[u8],
    marks: &[u8],
    from: usize,
    on: usize,
) -> Result<Ran, Refusal>
    requires { (1 ≤ on) × (length marks.now ≡ length ancillary.now) }
    ensures { answered_run block result ≡ as_whole block (ran_from on ancillary.now marks.now (length ancillary.now) block from) }
{
    let span = span_of(ancillary.len(), on);
    let mut now = block;
    let mut at = from;
    while at < ancillary.len() {
        if let Some(octet) = eight_at(now.bits, ancillary, marks, at, on, span) {
            now = with_eight(now, 7 < ancillary[at], octet);
            at += span + on;
            if now.bits == 192 {
                return Ok(Ran {
                    stepped: finished_with(now.octets),
                    next: at,
                });
            }
        } else {
            let stepped = step(now, ancillary[at], marks[at])?;
            at = at.saturating_add(on);
            if stepped.handed.is_some() {
                return Ok(Ran { stepped, next: at });
            }
            now = stepped.block;
        }
    }
    Ok(Ran {
        stepped: unfinished_with(now),
        next: at,
    })
}
