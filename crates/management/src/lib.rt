#![tactic(auto)]
// The management port, clause 8 of IEC 62365: what the equipment does with a message from the controlling entity, and what the
// controlling entity does with a status message. It has its own archive, of the crate management_c; include/rime_management.h is its face.
pub mod controller; // controller.rt: status messages taken
pub mod equipment; // equipment.rt: enquiries answered, connections and disconnections asked for
mod octets; // octets.rt: a message brought to its length, octets put into a lent run
pub mod packing; // packing.rt: a port's format and packing octets, and what a box is opened with
mod ports; // ports.rt: the records of the ports, and which port a message is about
mod status; // status.rt: the codes of a port's status, and the status message
