#![tactic(auto)]
// The log, document 01: its numbers, its header and its records, read from a lent log. A place is a count of octets from the
// log's start.
ghost use Rattle.std.specs.Prelude.{◌≡◌, ◌<◌, ◌≤◌};
ghost use Rattle.cell_log.specs.Code.{number_within, behind, from};
ghost use Rattle.cell_log.specs.Numbers.{number, number_at};
ghost use Rattle.cell_log.specs.Records.{header_of, record_at, place_after, cell_at};
ghost use Rattle.cell_log.specs.Answered.{number_answered, header_answered, record_answered};

use refusals::Refusal;

pub mod keep; // keep.rt: writing a log
pub mod reader; // reader.rt: the reader that holds a lent log and a place

// A log number: its value and the place after it.
#[derive(Clone, Copy, Debug, PartialEq, Eq, Hash)]
pub struct Number {
    pub value: u32,
    pub next: usize,
}

// A log's header: the place after it, and its three numbers.
#[derive(Clone, Copy, Debug, PartialEq, Eq, Hash)]
pub struct Header {
    pub place: usize,
    pub format: u32,
    pub channels: u32,
    pub order: u32,
}

// A cell's record: its indication, where its 48 octets start, and the next place.
#[derive(Clone, Copy, Debug, PartialEq, Eq, Hash)]
pub struct Record {
    pub indication: bool,
    pub start: usize,
    pub next: usize,
}

// Joins a group and the number that the groups behind it hold: 11 where that is 0, so that the form is not the shortest.
fn behind(group: u32, more: Number) -> Result<Number, Refusal>
    requires { more.value < 16384 }
    ensures { number_answered result ≡ behind group (number more.value more.next) }
{
    if more.value == 0 {
        return Err(Refusal::LogNumber);
    }
    Ok(Number {
        value: group % 128 + more.value * 128,
        next: more.next,
    })
}

// Reads the number at a place, which may have at most `groups` groups.
fn number_in(log: &[u8], place: usize, groups: u8) -> Result<Number, Refusal>
    requires { groups ≤ 3 }
    ensures { number_answered result ≡ number_within groups log.now place }
{
    if groups == 0 || log.len() <= place {
        return Err(Refusal::LogNumber);
    }
    let group = u32::from(log[place]);
    let next = place + 1;
    if group < 128 {
        return Ok(Number { value: group, next });
    }
    behind(group, number_in(log, next, groups - 1)?)
}

// The log number at a place: 11 where it is not shortest, over three groups or cut.
pub fn read_number(log: &[u8], place: usize) -> Result<Number, Refusal>
    ensures { number_answered result ≡ number_at log.now place }
{
    number_in(log, place, 3)
}

// A log's header: 11 as met in its three numbers, then 1 to 3.
pub fn read_header(log: &[u8]) -> Result<Header, Refusal>
    ensures { header_answered result ≡ header_of log.now }
{
    let format = read_number(log, 0)?;
    let channels = read_number(log, format.next)?;
    let order = read_number(log, channels.next)?;
    formats::settings(format.value, channels.value, order.value)?;
    Ok(Header {
        place: order.next,
        format: format.value,
        channels: channels.value,
        order: order.value,
    })
}

// The numbers of the header that octets begin with: all zero where it is refused.
pub fn header_numbers(log: &[u8]) -> Header
    ensures { header_answered (Ok result) ≡ record (header_of log.now) { refusal = 0 } }
{
    read_header(log).unwrap_or(Header {
        place: 0,
        format: 0,
        channels: 0,
        order: 0,
    })
}

// The record at a place, none at the log's end: 11 for an indication above 1, 12 where it is cut. A place at the log's end or past
// it, however large, answers the end.
pub fn read_record(log: &[u8], place: usize) -> Result<Option<Record>, Refusal>
    ensures { record_answered place result ≡ record_at log.now place }
{
    if log.len() <= place {
        return Ok(None);
    }
    let indication = log[place];
    if 1 < indication {
        return Err(Refusal::LogNumber);
    }
    if log.len() - place < 49 {
        return Err(Refusal::LogRecord);
    }
    let start = place + 1;
    Ok(Some(Record {
        indication: indication == 1,
        start,
        next: place + 49,
    }))
}

// The place after the record at a place; the place itself where there is no cell, at the end or by a refusal.
pub fn next_place(log: &[u8], place: usize) -> usize
    ensures { result ≡ place_after log.now place }
{
    match read_record(log, place) {
        Ok(Some(record)) => record.next,
        Ok(None) => place,
        Err(_) => place,
    }
}

// The indication of the record at a place: no where no cell is there.
pub fn read_indication(log: &[u8], place: usize) -> bool
    ensures { result ≡ (record_at log.now place).indication }
{
    match read_record(log, place) {
        Ok(Some(record)) => record.indication,
        Ok(None) => false,
        Err(_) => false,
    }
}

// The 48 octets of the cell at a place, as that part of the log itself; an empty part, at the log's start, where no cell is there.
pub fn read_cell<'a>(log: &'a [u8], place: usize) -> &'a [u8]
    ensures { (result.now ≡ cell_at log.now place)
        × (result.ref_ptr ≡ from log.entry.ref_ptr (record_at log.now place).start) }
{
    match read_record(log, place) {
        Ok(Some(record)) => &log[record.start..record.start + 48],
        Ok(None) => &log[..0],
        Err(_) => &log[..0],
    }
}
