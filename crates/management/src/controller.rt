// The controlling entity's side (8.4.2): what a status message tells goes to the record of the port that it is about.
ghost use Rattle.std.specs.Prelude.{◌∷◌, ◌≡◌, ◌≤◌, ◌<◌, length};
ghost use Rattle.management.specs.Ports.{port_count};
ghost use Rattle.management.specs.Controller.{configuration, status_taken, Takes};
ghost use Rattle.management.specs.Code.{told_by, taken_to};

use crate::equipment::Refused;
use crate::octets::{brought, put_both};
use crate::ports::{Enquiry, best_fit};
use crate::status::{configured, recognised};

// A port's status and its format, as octets 2 to 5 of its record take them.
#[tactic(auto, unfolding(crate::specs::Controller::configuration))]
fn status_and_format(ports: &[u8], told: Enquiry, status: u8, port: usize) -> [u8; 4]
    requires { port < port_count ports.now }
    ensures { result ≡ status ∷ configuration ports.now told status port }
{
    if configured(told.subsystem_code, status) {
        return [
            status,
            told.subframe_format,
            told.packing,
            told.sampling_frequency,
        ];
    }
    let at = port * 28;
    [status, ports[at + 3], ports[at + 4], ports[at + 5]]
}

// Notes what a status message tells of a port in that port's record.
#[tactic(auto, unfolding(crate::specs::Controller::status_taken, crate::specs::Controller::noted))]
fn note(ports: &mut [u8], told: Enquiry, status: u8, rest: &[u8])
    requires { length rest.now ≤ 22 }
    ensures { ports.new ≡ status_taken ports.old told status rest.now }
{
    if !recognised(told.subsystem_code, status) {
        return;
    }
    let Some(fit) = best_fit(ports, told) else {
        return;
    };
    let head = status_and_format(ports, told, status, fit.port);
    put_both(ports, fit.port * 28 + 2, &head, rest);
}

// The port that a status message is about.
#[tactic(auto, unfolding(crate::specs::Code::told_by))]
fn told_by(message: [u8; 29]) -> Enquiry
    ensures { result ≡ told_by message }
{
    Enquiry {
        subsystem_code: message[1],
        selector: message[2],
        subframe_format: message[4],
        packing: message[5],
        sampling_frequency: message[6],
    }
}

// Where the octets of a status message end that go to the record: past 8 of an input port's; of an output port's past 28 with E0, and else
// past 6.
#[tactic(auto, unfolding(crate::specs::Code::taken_to))]
fn taken_to(subsystem_code: u8, status: u8) -> usize
    ensures { (result ≡ taken_to subsystem_code status) × (7 ≤ result) × (result ≤ 29) }
{
    if subsystem_code == 0 {
        9
    } else if status == 0xE0 {
        29
    } else {
        7
    }
}

// A number is the C interface.
// Takes a message as the controlling entity: the refusal (0 or 24, and then nothing is written).
pub fn rime_controller(ports: &mut [u8], message: &[u8]) -> u8
    ensures { Takes ports.old message.now result ports.new }
{
    if message.is_empty() {
        return Refused::Empty.into();
    }
    let octets = brought(message);
    if octets[0] == 129 && octets[1] <= 1 {
        let status = octets[3];
        let to = taken_to(octets[1], status);
        note(ports, told_by(octets), status, &octets[7..to]);
    }
    0
}
