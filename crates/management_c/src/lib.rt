#![tactic(auto)]
// The face for C, as an archive: an export for each public call of the library `management`, under the same name and the same clauses.
mod controller; // controller.rt: `management::controller`
mod equipment; // equipment.rt: `management::equipment`
mod packing; // packing.rt: `management::packing`
