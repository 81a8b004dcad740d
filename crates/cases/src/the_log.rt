// Document 01, "The log": 128 is 80 01; 80 00 is refused 11; an empty log is refused 11.
use super::refused;

pub(crate) fn cases(rt: &impl Print) {
    let mut run = [0u8; 2];
    let _ = cell_log::keep::write_number(&mut run, 0, 128);
    let first = run[0];
    let second = run[1];
    let _ = println!(rt; "log number 128: {first:02x} {second:02x}");
    let long = [128u8, 0];
    refused(
        rt,
        "log number 80 00: refused ",
        cell_log::read_number(&long, 0),
    );
    let empty: [u8; 0] = [];
    refused(rt, "empty log: refused ", cell_log::read_header(&empty));
}
