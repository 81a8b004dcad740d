// Sharing channels out over circuits for C, Rust and Python: the checker's verdict as numbers, and the planner.
ghost use Rattle.std.specs.Prelude.{[], ◌∷◌, ◌≡◌};
ghost use Rattle.circuits.specs.Circuits.{answer_of, circuit_of, Plans};
ghost use Rattle.circuits.specs.Answered.{verdict_of};
ghost use Rattle.rimesatchel.specs.Plans.{CheckedPlan};

use circuits::Verdict;

// The answer's number, and the circuit that it names.
fn answer_of(verdict: Verdict) -> [u32; 2]
    ensures { result ≡ answer_of (verdict_of verdict) ∷ circuit_of (verdict_of verdict) ∷ [] }
{
    match verdict {
        Verdict::Yes => [1, 0],
        Verdict::Share(circuit) => [2, circuit],
        Verdict::Allowance(circuit) => [3, circuit],
        Verdict::Sum => [4, 0],
    }
}

// Judges a plan: the refusal (0, or 1, 5, 22, 23), and the answer (1 yes, 2 a share, 3 an allowance, 4 the sum) with the circuit that 2
// or 3 names; zeros where it is refused.
pub fn rime_circuits_check(
    format: u32,
    channels: u32,
    frequency: u32,
    shares: &[u32],
    allowances: &[u32],
    answer: &mut [u32; 2],
) -> u8
    ensures { CheckedPlan format channels frequency shares.now allowances.now result answer.new }
{
    match circuits::check(format, channels, frequency, shares, allowances) {
        Ok(verdict) => {
            *answer = answer_of(verdict);
            0
        }
        Err(refusal) => {
            *answer = [0; 2];
            refusal.into()
        }
    }
}

// Fills circuits in the given order as far as S allows: the refusal (0, or 1, 22, 30), and then the shares are as they were.
pub fn rime_circuits_plan(format: u32, channels: u32, shares: &mut [u32]) -> u8
    ensures { Plans format channels shares.old result shares.new }
{
    refusals::number(circuits::plan(format, channels, shares))
}
