// The block under assembly, lent to the step (document 01: "The block under assembly is lent to the step, which brings it
// forward").
ghost use Rattle.std.specs.Prelude.{◌≡◌};
ghost use Rattle.status.specs.Answers.{answered_handed, answered_step};
ghost use Rattle.status.specs.Step.{step_of};

use crate::step::{Block, Finished, Stepped, step};
use refusals::Refusal;

// Brings the lent block forward by an ancillary number and its mark, and gives what goes out. Refused (14) as by `step`: the
// block is then as it was lent, and none goes out.
#[inline(always)]
pub fn bring_forward(
    block: &mut Block,
    ancillary: u8,
    mark: u8,
) -> Result<Option<Finished>, Refusal>
    ensures { (answered_handed result ≡ (step_of block.old ancillary mark).handed)
        × (block.new ≡ (step_of block.old ancillary mark).block) }
{
    let stepped = step(*block, ancillary, mark)?;
    *block = stepped.block;
    Ok(stepped.handed)
}

// Brings a block forward that is passed and returned by value. It is for callers that can't lend a struct.
#[inline(always)]
pub fn brought_forward(block: Block, ancillary: u8, mark: u8) -> Result<Stepped, Refusal>
    ensures { answered_step block result ≡ step_of block ancillary mark }
{
    let mut lent = block;
    let handed = bring_forward(&mut lent, ancillary, mark)?;
    Ok(Stepped {
        block: lent,
        handed,
    })
}
