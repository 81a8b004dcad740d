// The codes of a port's status, and the status message for what is asked.
ghost use Rattle.std.specs.Prelude.{◌≡◌, ◌≤◌, ◌≢◌, length, IfSome, unwrap_or};
ghost use Rattle.runs.specs.Runs.{over};
ghost use Rattle.management.specs.Status.{
  configured,
  recognised,
  status_for,
  status_message,
};
ghost use Rattle.management.specs.Code.{found_fit, Inside, Replies, status_head, status_length};

use crate::octets::{put, put_both};
use crate::ports::{Enquiry, Fit, best_fit, unsupported};

// A code with which octets 4 to 6 indicate how the port is currently configured.
#[tactic(auto, unfolding(crate::specs::Status::configured))]
pub(crate) fn configured(subsystem_code: u8, status: u8) -> bool
    ensures { result ≡ configured subsystem_code status }
{
    matches!(status, 0x40 | 0xC0 | 0xE0) || subsystem_code == 1 && status == 0x60
}

// A code of the table: those, 00, and 81 to 87.
#[tactic(auto, unfolding(crate::specs::Status::recognised))]
pub(crate) fn recognised(subsystem_code: u8, status: u8) -> bool
    ensures { result ≡ recognised subsystem_code status }
{
    configured(subsystem_code, status) || matches!(status, 0 | 0x81..=0x87)
}

// Octet 3 of the status message for what is asked, by the port that fits best.
#[tactic(auto, unfolding(crate::specs::Status::status_for, crate::specs::Status::unsupported))]
fn status_for(ports: &[u8], asked: Enquiry, fit: Option<Fit>) -> u8
    requires { IfSome fit (Inside ports.now) }
    ensures { result ≡ status_for ports.now asked (found_fit fit) }
{
    match fit {
        None => 0,
        Some(Fit { misfits: 0, port }) => ports[port * 28 + 2],
        Some(Fit { port, .. }) => 0x80 + unsupported(ports, port, asked),
    }
}

// Octets 0 to 6 of a status message for what is asked.
fn status_head(asked: Enquiry, status: u8) -> [u8; 7]
    ensures { result ≡ status_head asked status }
{
    [
        129,
        asked.subsystem_code,
        asked.selector,
        status,
        asked.subframe_format,
        asked.packing,
        asked.sampling_frequency,
    ]
}

// Writes the input port status message for what is asked.
fn write_input_status(ports: &[u8], asked: Enquiry, answer: &mut [u8])
    requires { (asked.subsystem_code ≡ 0) × (9 ≤ length answer.old) }
    ensures { answer.new ≡ over (status_message ports.now asked) answer.old }
{
    let fit = best_fit(ports, asked);
    let status = status_for(ports, asked, fit);
    let head = status_head(asked, status);
    match fit {
        None => put_both(answer, 0, &head, &[0; 2]),
        Some(fit) => {
            let from = fit.port * 28 + 6;
            put_both(answer, 0, &head, &ports[from..from + 2]);
        }
    }
}

// Writes the output port status message for what is asked.
fn write_output_status(ports: &[u8], asked: Enquiry, answer: &mut [u8])
    requires { (asked.subsystem_code ≡ 1) × (29 ≤ length answer.old) }
    ensures { answer.new ≡ over (status_message ports.now asked) answer.old }
{
    let fit = best_fit(ports, asked);
    let status = status_for(ports, asked, fit);
    let head = status_head(asked, status);
    match fit {
        Some(fit) if status == 0xE0 => {
            let from = fit.port * 28 + 6;
            put_both(answer, 0, &head, &ports[from..from + 22]);
        }
        _ => put_both(answer, 0, &head, &[0; 22]),
    }
}

#[tactic(auto, unfolding(crate::specs::Code::status_length))]
fn status_length(subsystem_code: u8) -> usize
    ensures { (result ≡ status_length subsystem_code) × (2 ≤ result) }
{
    match subsystem_code {
        0 => 9,
        1 => 29,
        _ => 2,
    }
}

// Writes the status message for what is asked, and gives its length; none where the answer has no room for it, and then nothing is
// written.
pub(crate) fn write_status(ports: &[u8], asked: Enquiry, answer: &mut [u8]) -> Option<u64>
    ensures replies { Replies (status_message ports.now asked) answer.old (unwrap_or result 0) answer.new }
    ensures some { IfSome result (λ octets. octets ≢ 0) }
{
    let length = status_length(asked.subsystem_code);
    if answer.len() < length {
        return None;
    }
    // No `match`: tried, and the proof of its last arm didn't close.
    if asked.subsystem_code == 0 {
        write_input_status(ports, asked, answer);
    } else if asked.subsystem_code == 1 {
        write_output_status(ports, asked, answer);
    } else {
        put(answer, 0, &[129, asked.subsystem_code]);
    }
    Some(length as u64)
}
