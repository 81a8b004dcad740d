// What a program does behind a read. The four programs read in one loop, `while turn.goes_on(..) { turn = read(..); .. }`, and what
// makes it end, and whether it ended well, is here.
ghost use Rattle.std.specs.Prelude.{◌&&◌, ◌≡◌, eqb, ltb, length};
ghost use Rattle.source.specs.Turns.{first_turn, without, turn_of, clamp_len, Reads};
ghost use Rattle.source.specs.Numbered.{number_of, turned};

use std::io;
use std::io::Read;

// What to do behind a read.
#[derive(Clone, Copy, Debug, PartialEq, Eq, Hash)]
pub enum Next {
    // go on
    On = 1,
    // finish, since the input ends
    End,
    // say that the read failed
    Failed,
    // say that more octets came than can be counted
    Uncounted,
}

// Its number, as the definitions have it.
impl From<Next> for u8 {
    ghost from_gives = { λ next number. number ≡ number_of next };

    fn from(next: Next) -> u8 {
        next as u8
    }
}

// What to do, how many octets came, which lie at the start of the buffer, and how many may still come.
#[derive(Clone, Copy, Debug, PartialEq, Eq, Hash)]
pub struct Turn {
    pub what: Next,
    pub octets: usize,
    pub left: u64,
}

// Before the first read.
pub fn first() -> Turn
    ensures { turned result ≡ first_turn }
{
    Turn {
        what: Next::On,
        octets: 0,
        left: u64::MAX,
    }
}

// No octets came, and this is to be done.
fn without(what: Next, left: u64) -> Turn
    ensures { turned result ≡ without (number_of what) left }
{
    Turn {
        what,
        octets: 0,
        left,
    }
}

// What is to be done when a read into this buffer answered `got`: a number, as the definition `turn_of` has it.
#[tactic(auto, unfolding(crate::specs::Turns::turn_of, crate::specs::Turns::came_of))]
pub fn answered(got: isize, buffer: &[u8], left: u64) -> Turn
    ensures { turned result ≡ turn_of got (length buffer.now) left }
{
    if got < 0 {
        return without(Next::Failed, left);
    }
    let octets = count(got, buffer);
    if octets == 0 {
        return without(Next::End, left);
    }
    if left < octets as u64 {
        return without(Next::Uncounted, left);
    }
    Turn {
        what: Next::On,
        octets,
        left: left - octets as u64,
    }
}

// How many octets of a buffer came, where a read answered so many: never more than there are.
fn count(got: isize, buffer: &[u8]) -> usize
    ensures { result ≡ clamp_len got (length buffer.now) }
{
    if 0 < got {
        (got as usize).min(buffer.len())
    } else {
        0
    }
}

// What a read answered, as a number: how many octets came, or -1 where it failed.
fn number_of(outcome: &io::Result<usize>) -> isize {
    match outcome {
        Ok(octets) => isize::try_from(*octets).unwrap_or(isize::MAX),
        Err(_) => -1,
    }
}

// Reads once. Where that fails, it says so, in the system's words.
pub fn read<R: Read>(
    rt: &HostRuntime,
    program: &[u8],
    name: &[u8],
    from: &mut R,
    buffer: &mut [u8],
    left: u64,
) -> Turn
    ensures { Reads left (length buffer.new) (turned result) }
{
    let outcome = from.read(buffer);
    let got = number_of(&outcome);
    let turn = answered(got, buffer, left);
    match turn.what {
        Next::On | Next::End => {}
        Next::Failed => say_failure(rt, program, name, outcome),
        Next::Uncounted => crate::said(
            rt,
            program,
            name,
            b"more octets than can be counted\n",
            true,
        ),
    }
    turn
}

// Says why a read failed.
fn say_failure(rt: &HostRuntime, program: &[u8], name: &[u8], outcome: io::Result<usize>) {
    if let Err(why) = outcome {
        crate::told(rt, program, name, &why);
    }
}

// Whether to read on, by the number of what is to be done: where the last read brought octets, and the caller wants more.
pub fn goes_on(what: u8, wanted: bool) -> bool
    ensures { result ≡ (eqb what 1 && wanted) }
{
    what == 1 && wanted
}

// Whether no read failed, by that number: what was read may be answered for.
pub fn well(what: u8) -> bool
    ensures { result ≡ ltb what 3 }
{
    what < 3
}

impl Turn {
    pub fn goes_on(self, wanted: bool) -> bool
        ensures { result ≡ (eqb (number_of self.what) 1 && wanted) }
    {
        goes_on(self.what.into(), wanted)
    }

    pub fn well(self) -> bool
        ensures { result ≡ ltb (number_of self.what) 3 }
    {
        well(self.what.into())
    }
}
