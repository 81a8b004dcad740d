#![tactic(auto)]
// Sharing channels out over circuits, request 11 of document 02: a checker of anyone's plan, and a plain planner. A plan is a run of
// shares, the channels that each circuit carries; all circuits have one format.
ghost use Rattle.std.specs.Prelude.{◌≡◌, ◌≤◌, length};
ghost use Rattle.refusals.specs.Refusals.{refused_by};
ghost use Rattle.circuits.specs.Circuits.{fits_slots, cells_per_second, judged_from, is_too_many, check_refusal, checked_of, planned_of, plan_refusal, Plans};
ghost use Rattle.circuits.specs.Answered.{verdict_of, check_answered};

use refusals::Refusal;

// What the checker says of a plan; a circuit is counted from 0.
#[derive(Clone, Copy, Debug, PartialEq, Eq, Hash)]
pub enum Verdict {
    Yes,
    // the first fault is this circuit's share, which isn't 1 to S
    Share(u32),
    // the first fault is this circuit's allowance, which is below its cells per second
    Allowance(u32),
    // the shares don't add up to the channels asked for
    Sum,
}

// Whether a share is 1 to S.
#[tactic(auto, unfolding(crate::specs::Circuits::fits_slots))]
fn fits_slots(slots: u32, share: u32) -> bool
    ensures { result ≡ fits_slots slots share }
{
    1 <= share && share <= slots
}

// The frequency divided by T, rounded up.
#[tactic(auto, using(crate::proofs::Laws::cells_rounded_up))]
fn cells_per_second(slots: u32, share: u32, frequency: u32) -> u32
    requires { (1 ≤ share) × (share ≤ slots) × (slots ≤ 48) }
    ensures { result ≡ cells_per_second slots share frequency }
{
    frequency.div_ceil(slots / share)
}

// Circuit by circuit the share, then the allowance; the sum last.
fn judge(slots: u32, channels: u32, frequency: u32, shares: &[u32], allowances: &[u32]) -> Verdict
    requires { (slots ≤ 48) × (length shares.now ≤ 64) × (length allowances.now ≡ length shares.now) }
    ensures { verdict_of result ≡ judged_from slots channels frequency 0 0 shares.now allowances.now }
{
    let mut carried = 0;
    // by a range: a `zip` hands out an `Option` of references, and the page's library, which is this code with addresses of 32 bits,
    // would take a wrong one out of it
    for i in 0..shares.len() {
        let share = shares[i];
        if !fits_slots(slots, share) {
            return Verdict::Share(i as u32);
        }
        if allowances[i] < cells_per_second(slots, share, frequency) {
            return Verdict::Allowance(i as u32);
        }
        carried += share;
    }
    if carried == channels {
        Verdict::Yes
    } else {
        Verdict::Sum
    }
}

// Whether there are more than 64 circuits or 1,024 channels.
fn is_too_many(circuits: usize, channels: u32) -> bool
    ensures { result ≡ is_too_many circuits channels }
{
    64 < circuits || 1024 < channels
}

// Unequal runs, then more than 64 circuits or 1,024 channels, then a frequency of 0 or above 1,000,000.
#[tactic(auto, unfolding(crate::proofs::Unfolded::refusals))]
fn check_checked(
    channels: u32,
    frequency: u32,
    circuits: usize,
    allowances: usize,
) -> Result<(), Refusal>
    ensures { refused_by result ≡ check_refusal 0 channels frequency circuits allowances }
{
    if allowances != circuits {
        return Err(Refusal::Length);
    }
    if is_too_many(circuits, channels) {
        return Err(Refusal::Plan);
    }
    if frequency < 1 || 1000000 < frequency {
        return Err(Refusal::Frequency);
    }
    Ok(())
}

// Judges a plan: so many channels asked for at a sampling frequency, the circuits' shares, and the cells per second that each may carry.
// The octet's own refusal comes first.
pub fn check(
    octet: u32,
    channels: u32,
    frequency: u32,
    shares: &[u32],
    allowances: &[u32],
) -> Result<Verdict, Refusal>
    ensures { check_answered result ≡ checked_of octet channels frequency shares.now allowances.now }
{
    let slots = formats::settings(octet, 1, 0)?.format.slots;
    check_checked(channels, frequency, shares.len(), allowances.len())?;
    Ok(judge(slots as u32, channels, frequency, shares, allowances))
}

// More than 64 circuits or 1,024 channels, then S times the circuits below the channels.
#[tactic(auto, unfolding(crate::proofs::Unfolded::refusals))]
fn plan_checked(slots: usize, channels: u32, circuits: usize) -> Result<(), Refusal>
    requires { slots ≤ 48 }
    ensures { refused_by result ≡ plan_refusal 0 slots channels circuits }
{
    if is_too_many(circuits, channels) {
        return Err(Refusal::Plan);
    }
    if slots * circuits < channels as usize {
        return Err(Refusal::Circuits);
    }
    Ok(())
}

fn fill(slots: u32, channels: u32, shares: &mut [u32])
    ensures { shares.new ≡ planned_of slots channels (length shares.old) }
{
    let mut left = channels;
    for share in shares.iter_mut() {
        *share = slots.min(left);
        left -= *share;
    }
}

// Fills circuits in the given order as far as S allows, allowances left aside; circuits left over get 0. Where it is refused, nothing is
// written.
pub fn plan(octet: u32, channels: u32, shares: &mut [u32]) -> Result<(), Refusal>
    ensures { Plans octet channels shares.old (refused_by result) shares.new }
{
    let slots = formats::settings(octet, 1, 0)?.format.slots;
    plan_checked(slots, channels, shares.len())?;
    fill(slots as u32, channels, shares);
    Ok(())
}
