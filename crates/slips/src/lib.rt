#![tactic(auto)]
// Slips, told by second numbers: cells that are missing beside those that the receiver tells missing.
ghost use Rattle.std.specs.Prelude.{ℕ, [], ◌∷◌, ◌≡◌, ◌≤◌, not, MatchOption, IfOk};
ghost use Rattle.refusals.specs.Refusals.{refused_by};
ghost use Rattle.slips.specs.Slips.{starts_of, behind_of};
ghost use Rattle.slips.specs.Watch.{
  watch_refused,
  in_step_of,
  out_of_step,
  may_after,
  sure_step,
  taken_step,
  step_refusal,
  step_of,
};
ghost use Rattle.slips.specs.Known.{known_of, what_of, cells_of, leaves_and_tells, stepped_of, stepped_from, watch_in, octets_in, Reads};

use numbers::difference;
use refusals::Refusal;

// What is known of the cells before, every number modulo 16.
#[derive(Clone, Copy, Debug, PartialEq, Eq, Hash)]
pub enum Watch {
    // no cell was taken yet
    New,
    // the first cell, or one that didn't agree with the one before it: the next one decides
    Begun {
        number: u8,
        second: u8,
    },
    // the last cell's second number is sure
    InStep {
        number: u8,
        second: u8,
    },
    // the last cell has another second number than it should by `second`, the last one that was in step, where up to `may` blocks
    // started since: the next one decides
    OutOfStep {
        number: u8,
        second: u8,
        may: u8,
        other: u8,
    },
}

// What a step tells.
#[derive(Clone, Copy, Debug, PartialEq, Eq, Hash)]
pub enum Slip {
    Nothing,
    // at least so many cells more are missing before the cell taken before this one
    Missing(u8),
    // the cell taken before this one was out of step alone
    Alone,
    // this cell is out of step, by at least so many cells, and the next one decides
    Undecided(u8),
}

// How many of the numbers after the last one, counted on past 15, are multiples of 8.
#[tactic(auto, unfolding(crate::specs::Slips::starts_of))]
fn starts(last: u8, steps: u8) -> u8
    requires { (last ≤ 15) × (steps ≤ 15) }
    ensures { (result ≡ starts_of last steps) × (result ≤ 2) }
{
    (last + steps) / 8 - last / 8
}

// At least so many cells are missing beside those told, where second numbers went up by this and may have gone up by that.
#[tactic(auto, unfolding(crate::specs::Slips::behind_of))]
fn behind(told: u8, may: u8) -> u8
    requires { told ≤ 15 }
    ensures { result ≡ behind_of told may }
{
    if told <= may {
        0
    } else {
        (told - may + 1) / 2 * 16
    }
}

#[tactic(auto, unfolding(crate::specs::Watch::may_after))]
fn may_after(may: u8, by: u8) -> u8
    requires { (may ≤ 15) × (by ≤ 2) }
    ensures { result ≡ may_after may by }
{
    (may + by).min(15)
}

impl Watch {
    // The number of the cell taken last.
    fn number(self) -> Option<u8>
        ensures { MatchOption result ((known_of self).started ≡ 0) (λ n. ((known_of self).started ≡ 1) × (n ≡ (known_of self).number)) }
    {
        match self {
            Watch::New => None,
            Watch::Begun { number, .. }
            | Watch::InStep { number, .. }
            | Watch::OutOfStep { number, .. } => Some(number),
        }
    }

    // Whether every number in it is below 16.
    #[tactic(auto, unfolding(crate::proofs::Unfolded::watches))]
    fn is_sound(self) -> bool
        ensures { result ≡ not (watch_refused (known_of self)) }
    {
        match self {
            Watch::New => true,
            Watch::Begun { number, second } | Watch::InStep { number, second } => number <= 15
                && second <= 15,
            Watch::OutOfStep {
                number,
                second,
                may,
                other,
            } => number <= 15 && second <= 15 && may <= 15 && other <= 15,
        }
    }

    // A watch with a number above 15, then a report that can't follow.
    #[tactic(auto, unfolding(crate::proofs::Unfolded::refusals))]
    fn checked(self, missing: u8, number: u8, second: u8) -> Result<(), Refusal>
        ensures { refused_by result ≡ step_refusal (known_of self) missing number second }
    {
        if !self.is_sound() {
            return Err(Refusal::State);
        }
        let follows = match self.number() {
            None => missing == 0,
            Some(last) => missing <= 14 && missing + 1 == difference(number, last),
        };
        if 15 < number || 15 < second || !follows {
            return Err(Refusal::Report);
        }
        Ok(())
    }

    // The watch brought forward by a report that follows, and what it tells.
    #[tactic(auto, using(crate::proofs::Laws::follows), unfolding(crate::proofs::Unfolded::steps))]
    fn forward(self, missing: u8, number: u8, second: u8) -> (Watch, Slip)
        requires { step_refusal (known_of self) missing number second ≡ 0 }
        ensures { leaves_and_tells result.0 result.1 ≡ taken_step (known_of self) missing number second }
    {
        match self {
            Watch::New => (Watch::Begun { number, second }, Slip::Nothing),
            Watch::Begun {
                number: last,
                second: other,
            } => {
                if difference(second, other) == starts(last, missing + 1) {
                    (Watch::InStep { number, second }, Slip::Nothing)
                } else {
                    (Watch::Begun { number, second }, Slip::Nothing)
                }
            }
            Watch::InStep {
                number: last,
                second: kept,
            } => in_step(kept, number, second, starts(last, missing + 1)),
            Watch::OutOfStep {
                number: last,
                second: kept,
                may,
                other,
            } => out_of_step(kept, may, other, number, second, starts(last, missing + 1)),
        }
    }

    // Takes what the receiver reported of the next cell that it took, and tells what it means. Refused, State for a watch that can't be
    // or Report for a report that can't follow, the watch stays as it was.
    pub fn step(&mut self, missing: u8, number: u8, second: u8) -> Result<Slip, Refusal>
        ensures { stepped_of result self.new ≡ step_of (known_of self.old) missing number second }
    {
        self.checked(missing, number, second)?;
        let (after, slip) = self.forward(missing, number, second);
        *self = after;
        Ok(slip)
    }

    // The watch as seven octets.
    pub fn octets(self) -> [u8; 7]
        ensures { result ≡ octets_in (known_of self) }
    {
        match self {
            Watch::New => [0; 7],
            Watch::Begun { number, second } => [1, number, 0, 0, 0, 1, second],
            Watch::InStep { number, second } => [1, number, 1, second, 0, 0, 0],
            Watch::OutOfStep {
                number,
                second,
                may,
                other,
            } => [1, number, 1, second, may, 1, other],
        }
    }
}

impl Slip {
    // What is told, and how many cells, as two octets.
    pub fn octets(self) -> [u8; 2]
        ensures { result ≡ what_of self ∷ cells_of self ∷ [] }
    {
        match self {
            Slip::Nothing => [0, 0],
            Slip::Missing(cells) => [1, cells],
            Slip::Alone => [2, 0],
            Slip::Undecided(cells) => [3, cells],
        }
    }
}

// A step where the cell taken last was in step: `by` blocks start up to this one.
#[tactic(auto, using(crate::proofs::Laws::difference_to), unfolding(crate::proofs::Unfolded::sure_steps))]
fn in_step(kept: u8, number: u8, second: u8, by: u8) -> (Watch, Slip)
    requires { by ≤ 2 }
    ensures { (last : ℕ) → leaves_and_tells result.0 result.1 ≡ sure_step (in_step_of last kept) number second by }
{
    let up = difference(second, kept);
    if up == by {
        return (Watch::InStep { number, second }, Slip::Nothing);
    }
    let after = Watch::OutOfStep {
        number,
        second: kept,
        may: by,
        other: second,
    };
    (after, Slip::Undecided(behind(up, by)))
}

// A step where the cell taken last was out of step.
#[tactic(auto, using(crate::proofs::Laws::difference_to), unfolding(crate::proofs::Unfolded::sure_steps))]
fn out_of_step(kept: u8, may: u8, other: u8, number: u8, second: u8, by: u8) -> (Watch, Slip)
    requires { (may ≤ 15) × (by ≤ 2) }
    ensures { (last : ℕ) → leaves_and_tells result.0 result.1 ≡ sure_step (out_of_step last kept may other) number second by }
{
    let may_now = may_after(may, by);
    let up = difference(second, kept);
    if up == may_now {
        return (Watch::InStep { number, second }, Slip::Alone);
    }
    if difference(second, other) == by {
        let slip = match behind(difference(other, kept), may) {
            0 => Slip::Nothing,
            cells => Slip::Missing(cells),
        };
        return (Watch::InStep { number, second }, slip);
    }
    let after = Watch::OutOfStep {
        number,
        second: kept,
        may: may_now,
        other: second,
    };
    (after, Slip::Undecided(behind(up, may_now)))
}

// Seven octets as a watch: refused where it can't be.
impl TryFrom<[u8; 7]> for Watch {
    type Error = Refusal;

    ghost try_from_gives = { Reads };

    #[tactic(auto, unfolding(crate::proofs::Unfolded::watches))]
    fn try_from(octets: [u8; 7]) -> Result<Watch, Refusal> {
        let watch = match octets {
            [0, 0, 0, 0, 0, 0, 0] => Watch::New,
            [1, number, 0, 0, 0, 1, second] => Watch::Begun { number, second },
            [1, number, 1, second, 0, 0, 0] => Watch::InStep { number, second },
            [1, number, 1, second, may, 1, other] => Watch::OutOfStep {
                number,
                second,
                may,
                other,
            },
            _ => return Err(Refusal::State),
        };
        if watch.is_sound() {
            Ok(watch)
        } else {
            Err(Refusal::State)
        }
    }
}

// A step of a watch that is kept as seven octets, by value: the octets to go on with, and what is told. Refused, State for octets that
// can't be a watch or Report for a report that can't follow.
pub fn step(watch: [u8; 7], missing: u8, number: u8, second: u8) -> Result<([u8; 7], Slip), Refusal>
    ensures step { stepped_from watch result ≡ step_of (watch_in watch) missing number second }
    ensures octets { IfOk result (λ r. r.0 ≡ octets_in (watch_in r.0)) }
{
    let mut seen = Watch::try_from(watch)?;
    let slip = seen.step(missing, number, second)?;
    Ok((seen.octets(), slip))
}
