// What the sender refuses, in the table's order, and which second number it writes.
ghost use Rattle.std.specs.Prelude.{◌≡◌, ◌≤◌, length};
ghost use Rattle.formats.specs.Settings.{settled_as, settings_of};
ghost use Rattle.sender.specs.Sender.{
  open_state,
  state_refusal,
  send_refusal,
  second_now,
};
ghost use Rattle.sender.specs.Packing.{
  numbers_refused_by,
  lengths_refused_by,
  values_refused_by,
  Unites,
};

use crate::Sender;
use formats::{Format, Layout};

// Check 4, of numbers as they stand.
#[tactic(auto, unfolding(crate::specs::Packing::numbers_refused_by))]
pub(crate) fn numbers(format: Format, number: u32, wanted: bool, second: u32) -> bool
    ensures { result ≡ numbers_refused_by format number wanted second }
{
    let refused = if wanted {
        15 < second || format.overhead_bits == 0 || format.slots == 8
    } else {
        second != 0
    };
    15 < number || refused
}

// Checks 1 to 4.
pub(crate) fn state_refusal(
    octet: u32,
    channels: u32,
    order: u32,
    number: u32,
    wanted: bool,
    second: u32,
) -> u8
    ensures { result ≡ state_refusal (open_state octet channels order number wanted second) }
{
    let set = match formats::settings(octet, channels, order) {
        Ok(set) => set,
        Err(refusal) => return refusal.into(),
    };
    let format = set.format;
    if numbers(format, number, wanted, second) {
        return 4;
    }
    0
}

// The bits that any sample has, and those that any ancillary number has. They are below a power of two just where all the numbers
// are.
#[derive(Clone, Copy, Debug, PartialEq, Eq, Hash)]
struct AllBits {
    samples: u64,
    ancillary: u8,
}

fn united(samples: &[u64], ancillary: &[u8]) -> AllBits
    requires { length ancillary.now ≡ length samples.now }
    ensures { Unites samples.now result.samples × Unites ancillary.now result.ancillary }
{
    let mut all = 0;
    let mut few = 0;
    // By index: with `zip` a call takes 30 instructions more, and with a `fold` of each run 20.
    for i in 0..samples.len() {
        all |= samples[i];
        few |= ancillary[i];
    }
    AllBits {
        samples: all,
        ancillary: few,
    }
}

// Check 5.
#[tactic(auto, unfolding(crate::specs::Packing::lengths_refused_by))]
fn lengths_refused(used: usize, samples: &[u64], ancillary: &[u8], room: usize) -> bool
    ensures { result ≡ lengths_refused_by used samples.now ancillary.now room }
{
    room != 48 || samples.len() != used || ancillary.len() != used
}

// Check 6.
pub(crate) fn values_refused(format: Format, samples: &[u64], ancillary: &[u8]) -> bool
    requires { (format.sample_bits ≤ 40) × (format.ancillary_bits ≤ 4) × (length ancillary.now ≡ length samples.now) }
    ensures { result ≡ values_refused_by format samples.now ancillary.now }
{
    let bits = united(samples, ancillary);
    1 << format.sample_bits <= bits.samples
        || 1 << format.ancillary_bits <= u64::from(bits.ancillary)
}

// Checks 1 to 7 of a call of `send`, by the settings of its state.
pub(crate) fn send_refusal(
    set: Layout,
    state: Sender,
    indication: bool,
    samples: &[u64],
    ancillary: &[u8],
    room: usize,
) -> u8
    requires { settled_as set ≡ settings_of state.format state.channels state.order }
    ensures { result ≡ send_refusal state indication samples.now ancillary.now room }
{
    let format = set.format;
    if numbers(
        format,
        state.number as u32,
        state.wanted,
        state.second as u32,
    ) {
        return 4;
    }
    if lengths_refused(set.channels * set.times, samples, ancillary, room) {
        return 5;
    }
    if values_refused(format, samples, ancillary) {
        return 6;
    }
    if numbers::indication_refused(state.number, indication) {
        return 7;
    }
    0
}

// The second number of the next cell.
#[tactic(auto, unfolding(crate::specs::Sender::second_now))]
pub(crate) fn second_now(state: Sender, indication: bool) -> u8
    ensures { result ≡ second_now state indication }
{
    if state.wanted && indication && state.sent {
        return state.second.wrapping_add(1) % 16;
    }
    state.second
}
