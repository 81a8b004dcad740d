#![tactic(auto)]
// Subframe formats, document 01: what the subframe octet says, and checks 1 to 3 (octet, C, order) in the paper's order.
ghost use Rattle.std.specs.Prelude.{cond, ◌≡◌, ◌≢◌, ◌/◌, ◌≤◌};
ghost use Rattle.refusals.specs.Refusals.{refused_by};
ghost use Rattle.formats.specs.Formats.{sample_bits, format_of};
ghost use Rattle.formats.specs.Settings.{settled_as, answered, settings_of};
ghost use Rattle.formats.specs.Code.{found_format, refusal_by, is_usual, usual_with};

use refusals::Refusal;

// One subframe in bits, and how many octets wide it is; S, the slots in a cell.
#[derive(Clone, Copy, Debug, PartialEq, Eq, Hash)]
pub struct Format {
    pub sample_bits: u64,
    pub ancillary_bits: u64,
    pub overhead_bits: u64,
    pub width: usize,
    pub slots: usize,
}

// What an octet, C and an order settle: the format, C, T, and whether the order is 1.
#[derive(Clone, Copy, Debug, PartialEq, Eq, Hash)]
pub struct Layout {
    pub format: Format,
    pub channels: usize,
    pub times: usize,
    pub by_channel: bool,
}

// The sample bits that the low four bits of an octet mean; 0 for a reserved code.
fn sample_bits(octet: u32) -> u32
    ensures { result ≡ sample_bits octet }
{
    let code = octet % 16;
    match code {
        0..=1 => 0,
        2..=8 => 4 * code,
        9 => 0,
        10 => 40,
        11..=15 => 0,
        _ => 0,
    }
}

// S, the slots in a cell, for an octet with these sample bits: 0 where it is none of the fourteen formats. The number isn't cut
// to an octet before. It goes by the rules of the paper's first paragraph and not by a table; the two are proved to agree.
fn slots_of(octet: u32, sample: u32) -> usize
    requires { sample ≡ sample_bits octet }
    ensures { result ≡ (format_of octet).slots }
{
    let ancillary = octet / 64;
    if 1 < ancillary {
        return 0;
    }
    let overhead = octet / 16 % 4;
    if 1 < overhead {
        return 0;
    }
    if sample == 0 {
        return 0;
    }
    let bits = sample + 4 * ancillary + 4 * overhead;
    match bits {
        8 => 48,
        16 => 24,
        24 => 16,
        32 => 12,
        48 => 8,
        _ => 0,
    }
}

// The format of one of the fourteen octets, and none for any other number.
fn format_of(octet: u32) -> Option<Format>
    ensures { result ≡ found_format octet }
{
    let sample = sample_bits(octet);
    let slots = slots_of(octet, sample);
    if slots == 0 {
        return None;
    }
    let ancillary = octet / 64 * 4;
    let overhead = octet / 16 % 4 * 4;
    let width = (sample + ancillary + overhead) / 8;
    Some(Format {
        sample_bits: sample as u64,
        ancillary_bits: ancillary as u64,
        overhead_bits: overhead as u64,
        width: width as usize,
        slots,
    })
}

// T; no division, the dearest step of all, for one channel or two.
fn times_of(slots: usize, channels: usize) -> usize
    requires { 1 ≤ channels }
    ensures { result ≡ slots / channels }
{
    if channels == 1 {
        return slots;
    }
    if channels == 2 {
        return slots / 2;
    }
    slots / channels
}

// Checks 2 and 3 on numbers as they stand, never cut before, by the slots of the octet's format.
#[tactic(auto, unfolding(refusals::specs::Refusals::refused_by, refusals::specs::Refusals::number_of))]
fn checked(slots: usize, channels: u32, order: u32) -> Result<(), Refusal>
    requires { slots ≢ 0 }
    ensures { refused_by result ≡ refusal_by slots channels order }
{
    if channels == 0 || slots < channels as usize {
        return Err(Refusal::Channels);
    }
    if 1 < order {
        return Err(Refusal::Order);
    }
    Ok(())
}

// Checks 1 to 3: the refusal, or what they settle.
#[inline(always)]
pub fn settings(octet: u32, channels: u32, order: u32) -> Result<Layout, Refusal>
    ensures { answered result ≡ settings_of octet channels order }
{
    let Some(format) = format_of(octet) else {
        return Err(Refusal::Format);
    };
    checked(format.slots, channels, order)?;
    let wanted = channels as usize;
    let times = times_of(format.slots, wanted);
    Ok(Layout {
        format,
        channels: wanted,
        times,
        by_channel: order == 1,
    })
}

// Whether these are the usual settings: 56 hex in order 0 with one channel or two, as most readings are sent.
#[tactic(auto, unfolding(crate::specs::Code::is_usual))]
pub fn is_usual(octet: u8, channels: u8, order: u8) -> bool
    ensures { result ≡ is_usual octet channels order }
{
    octet == 0x56 && order == 0 && (1..3).contains(&channels)
}

// What the usual settings settle, at once.
pub fn usual(stereo: bool) -> Layout
    ensures { settled_as result ≡ settings_of 0x56 (cond stereo 2 1) 0 }
{
    if stereo {
        return usual_with(2, 6);
    }
    usual_with(1, 12)
}

fn usual_with(channels: usize, times: usize) -> Layout
    ensures { settled_as result ≡ usual_with channels times }
{
    Layout {
        format: Format {
            sample_bits: 24,
            ancillary_bits: 4,
            overhead_bits: 4,
            width: 4,
            slots: 12,
        },
        channels,
        times,
        by_channel: false,
    }
}
