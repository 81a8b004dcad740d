// Document 01, "Subframe formats" and "Placement": how many channels a format takes.
use super::refused;

fn settled(rt: &impl Print, what: &str, octet: u32, channels: u32) {
    refused(rt, what, formats::settings(octet, channels, 0));
}

pub(crate) fn cases(rt: &impl Print) {
    settled(rt, "56 hex, C = 12: refused ", 0x56, 12);
    settled(rt, "56 hex, C = 13: refused ", 0x56, 13);
    settled(rt, "02 hex, C = 48: refused ", 0x02, 48);
    settled(rt, "02 hex, C = 49: refused ", 0x02, 49);
}
