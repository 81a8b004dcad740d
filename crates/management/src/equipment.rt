// The equipment's side (8.4.1): a status enquiry, an audio connection request, an audio disconnection request.
ghost use Rattle.std.specs.Prelude.{[], ◌∷◌, ◌≡◌, ◌≤◌, ◌<◌, length};
ghost use Rattle.management.specs.Ports.{port_count};
ghost use Rattle.management.specs.Equipment.{
  Leaves,
  replied,
  connected_to,
  connected,
  disconnected_from,
  disconnected,
  equipment_of,
};
ghost use Rattle.management.specs.Code.{
  Asks,
  Answers,
  asked_at,
  number_of_network,
  number_of_refused,
  report_octets,
};

use crate::octets::{number, octet, put};
use crate::ports::{Enquiry, first_reference, identified};
use crate::status::write_status;

// What the network is to be sent.
#[derive(Clone, Copy, Debug, PartialEq, Eq, Hash)]
pub(crate) enum Network {
    Nothing = 0,
    Setup = 1,
    AddParty = 2,
    Release = 3,
    DropParty = 4,
}

// What a message comes to: how many octets the answer has, and what the network is to be sent, for which port, with which endpoint
// reference.
#[derive(Clone, Copy, Debug, PartialEq, Eq, Hash)]
pub(crate) struct Report {
    pub octets: u64,
    pub network: Network,
    pub port: usize,
    pub reference: u64,
}

const NOTHING: Report = Report {
    octets: 0,
    network: Network::Nothing,
    port: 0,
    reference: 0,
};

impl From<Report> for [u64; 4] {
    ghost from_gives = { λ report numbers. numbers ≡ report_octets report };

    fn from(report: Report) -> [u64; 4] {
        [
            report.octets,
            report.network as u64,
            report.port as u64,
            report.reference,
        ]
    }
}

// Why a message comes to nothing.
#[derive(Clone, Copy, Debug, PartialEq, Eq, Hash)]
pub(crate) enum Refused {
    // a message of no octets
    Empty = 24,
    // an answer buffer too short
    Room = 25,
}

impl From<Refused> for u8 {
    ghost from_gives = { λ refused number. number ≡ number_of_refused refused };

    fn from(refused: Refused) -> u8 {
        refused as u8
    }
}

// What is asked for answered by its status message: a status enquiry, or a request whose port isn't there.
#[tactic(auto, unfolding(crate::specs::Equipment::replied))]
fn reply(ports: &[u8], asked: Enquiry, answer: &mut [u8]) -> Result<Report, Refused>
    ensures { Answers (replied ports.now asked (length answer.old)) answer.old result ports.now answer.new }
{
    match write_status(ports, asked, answer) {
        Some(octets) => Ok(Report { octets, ..NOTHING }),
        None => Err(Refused::Room),
    }
}

// Steps b and c of an audio connection request (8.4.1.2.3): an ADD PARTY or a SETUP is asked for.
#[tactic(auto, unfolding(crate::specs::Equipment::connected_to))]
fn connect_to(ports: &mut [u8], port: usize, reference: [u8; 2]) -> Report
    requires { port < port_count ports.old }
    ensures { Asks (connected_to ports.old reference port) ports.new (report_octets result) }
{
    if first_reference(ports, port) != 0 {
        return Report {
            network: Network::AddParty,
            port,
            reference: number(reference),
            ..NOTHING
        };
    }
    put(ports, port * 28 + 6, &reference);
    Report {
        network: Network::Setup,
        port,
        ..NOTHING
    }
}

// An audio connection request.
#[tactic(auto, unfolding(crate::specs::Equipment::connected))]
fn connect(
    ports: &mut [u8],
    asked: Enquiry,
    reference: [u8; 2],
    answer: &mut [u8],
) -> Result<Report, Refused>
    ensures { Answers (connected ports.old asked reference (length answer.old)) answer.old result ports.new answer.new }
{
    if number(reference) == 0 {
        return reply(ports, asked, answer);
    }
    let Some(port) = identified(ports, asked, true) else {
        return reply(ports, asked, answer);
    };
    Ok(connect_to(ports, port, reference))
}

// Step b of an audio disconnection request (8.4.1.3.2): a RELEASE or a DROP PARTY is asked for.
#[tactic(auto, unfolding(crate::specs::Equipment::disconnected_from))]
fn disconnect_from(ports: &mut [u8], port: usize, reference: [u8; 2]) -> Report
    requires { port < port_count ports.old }
    ensures { Asks (disconnected_from ports.old reference port) ports.new (report_octets result) }
{
    let reference = number(reference);
    if reference == 0xFFFF {
        put(ports, port * 28 + 6, &[0; 2]);
        return Report {
            network: Network::Release,
            port,
            ..NOTHING
        };
    }
    let is_first = reference == first_reference(ports, port);
    Report {
        network: Network::DropParty,
        port,
        reference: if is_first { 0 } else { reference },
        ..NOTHING
    }
}

// An audio disconnection request.
#[tactic(auto, unfolding(crate::specs::Equipment::disconnected))]
fn disconnect(
    ports: &mut [u8],
    asked: Enquiry,
    reference: [u8; 2],
    answer: &mut [u8],
) -> Result<Report, Refused>
    ensures { Answers (disconnected ports.old asked reference (length answer.old)) answer.old result ports.new answer.new }
{
    let Some(port) = identified(ports, asked, false) else {
        return reply(ports, asked, answer);
    };
    Ok(disconnect_from(ports, port, reference))
}

// What four octets of a message ask for: a selector and a format.
#[tactic(auto, unfolding(crate::specs::Code::asked_at))]
fn asked_at(message: &[u8], subsystem_code: u8, from: usize) -> Enquiry
    requires { from ≤ 2 }
    ensures { result ≡ asked_at message.now subsystem_code from }
{
    Enquiry {
        subsystem_code,
        selector: octet(message, from),
        subframe_format: octet(message, from + 1),
        packing: octet(message, from + 2),
        sampling_frequency: octet(message, from + 3),
    }
}

// What the equipment does with a message.
fn answered(ports: &mut [u8], message: &[u8], answer: &mut [u8]) -> Result<Report, Refused>
    ensures { Answers (equipment_of ports.old message.now (length answer.old)) answer.old result ports.new answer.new }
{
    if message.is_empty() {
        return Err(Refused::Empty);
    }
    let message_type = message[0];
    if message_type == 1 {
        return reply(ports, asked_at(message, octet(message, 1), 2), answer);
    }
    let asked = asked_at(message, 0, 1);
    let reference = [octet(message, 5), octet(message, 6)];
    if message_type == 2 {
        return connect(ports, asked, reference, answer);
    }
    if message_type == 3 {
        return disconnect(ports, asked, reference, answer);
    }
    Ok(NOTHING)
}

// Numbers and lent arrays are the C interface.
// Takes a message as the equipment: the refusal (0, 24 or 25, and then nothing is written but zeros to the report).
pub fn rime_equipment(
    ports: &mut [u8],
    message: &[u8],
    answer: &mut [u8],
    report: &mut [u64; 4],
) -> u8
    ensures { Leaves (equipment_of ports.old message.now (length answer.old)) answer.old result
        ports.new answer.new report.new }
{
    match answered(ports, message, answer) {
        Ok(told) => {
            *report = told.into();
            0
        }
        Err(refused) => {
            *report = [0; 4];
            refused.into()
        }
    }
}
