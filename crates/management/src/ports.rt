// The records of the ports, 28 octets each, end to end, and which port a message is about.
ghost use Rattle.std.specs.Prelude.{◌≡◌, ◌+◌, ◌*◌, ◌≤◌, ◌<◌, ltb, IfSome, unwrap_or};
ghost use Rattle.management.specs.Ports.{
  port_count,
  differs,
  aspect_f,
  aspect_p,
  aspect_r,
  misfits,
  best_fit,
  first_reference,
  serves,
  identified,
};
ghost use Rattle.management.specs.Code.{found_fit, Inside};

use crate::octets::number;

// What a status enquiry asks for, and so each message: a port by its subsystem code and its selector, in a format.
#[derive(Clone, Copy, Debug, PartialEq, Eq, Hash)]
pub(crate) struct Enquiry {
    pub subsystem_code: u8,
    pub selector: u8,
    pub subframe_format: u8,
    pub packing: u8,
    pub sampling_frequency: u8,
}

// The port that fits best: how many aspects of the format asked for it doesn't support, and its place among the ports.
#[derive(Clone, Copy, Debug, PartialEq, Eq, Hash)]
pub(crate) struct Fit {
    pub misfits: u8,
    pub port: usize,
}

fn differs(here: u8, asked: u8) -> u8
    ensures { (result ≡ differs here asked) × (result ≤ 1) }
{
    u8::from(here != asked)
}

// F, P and R of 8.4.2.1.1 as one number, 4F + 2P + R.
pub(crate) fn unsupported(ports: &[u8], port: usize, asked: Enquiry) -> u8
    requires { port < port_count ports.now }
    ensures { (result ≡ aspect_f ports.now asked port * 4 + aspect_p ports.now asked port * 2
        + aspect_r ports.now asked port) × (result ≤ 7) }
{
    let at = port * 28;
    let format = differs(ports[at + 3], asked.subframe_format);
    let packing = differs(ports[at + 4], asked.packing);
    let frequency = differs(ports[at + 5], asked.sampling_frequency);
    format * 4 + packing * 2 + frequency
}

#[tactic(auto, unfolding(crate::specs::Ports::misfits))]
// How many of the three a port of that subsystem code and selector doesn't support; none for any other port.
fn misfits(ports: &[u8], port: usize, asked: Enquiry) -> Option<u8>
    requires { port < port_count ports.now }
    ensures number { unwrap_or result 4 ≡ misfits ports.now asked port }
    ensures few { IfSome result (λ misfits. misfits ≤ 3) }
{
    let at = port * 28;
    if ports[at] != asked.subsystem_code || ports[at + 1] != asked.selector {
        return None;
    }
    let format = differs(ports[at + 3], asked.subframe_format);
    let packing = differs(ports[at + 4], asked.packing);
    let frequency = differs(ports[at + 5], asked.sampling_frequency);
    Some(format + packing + frequency)
}

// The port that best fits what is asked, of several the first; none where no port has that subsystem code and selector.
pub(crate) fn best_fit(ports: &[u8], asked: Enquiry) -> Option<Fit>
    ensures fits { found_fit result ≡ best_fit ports.now asked }
    ensures inside { IfSome result (Inside ports.now) }
{
    // as two numbers: an `Option` of a fit in the loop takes two thirds more
    let mut fewest = 4;
    let mut best = 0;
    for port in 0..ports.len() / 28 {
        let here = misfits(ports, port, asked).unwrap_or(4);
        if here < fewest {
            fewest = here;
            best = port;
        }
    }
    if fewest == 4 {
        None
    } else {
        Some(Fit {
            misfits: fewest,
            port: best,
        })
    }
}

// A port's first endpoint reference.
pub(crate) fn first_reference(ports: &[u8], port: usize) -> u64
    requires { port < port_count ports.now }
    ensures { result ≡ first_reference ports.now port }
{
    let at = port * 28;
    number([ports[at + 6], ports[at + 7]])
}

// A port in the format asked for that is the source of a call or, where `can_be` says so, can be.
#[tactic(auto, unfolding(crate::specs::Ports::serves))]
fn serves(ports: &[u8], port: usize, asked: Enquiry, can_be: bool) -> bool
    requires { port < port_count ports.now }
    ensures { result ≡ serves ports.now asked can_be port }
{
    misfits(ports, port, asked) == Some(0)
        && (first_reference(ports, port) != 0
            || can_be && matches!(ports[port * 28 + 2], 0xC0 | 0xE0))
}

// The first port that serves.
pub(crate) fn identified(ports: &[u8], asked: Enquiry, can_be: bool) -> Option<usize>
    ensures first { unwrap_or result (port_count ports.now) ≡ identified ports.now asked can_be }
    ensures inside { IfSome result (λ port. port < port_count ports.now) }
{
    for port in 0..ports.len() / 28 {
        if serves(ports, port, asked, can_be) {
            return Some(port);
        }
    }
    None
}
