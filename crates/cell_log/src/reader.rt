// A reader over a lent log. Document 01: it "holds the octets and a place only". Its methods call the functions of lib.rt with the
// slice and the place that it holds. A caller that has the log as a slice uses `read`.
ghost use Rattle.std.specs.Prelude.{◌≡◌};
ghost use Rattle.cell_log.specs.Code.{from};
ghost use Rattle.cell_log.specs.Records.{record_at, place_after, cell_at};
ghost use Rattle.cell_log.specs.Answered.{record_answered};

use crate::Record;
use refusals::Refusal;

#[derive(Clone, Copy, Debug, PartialEq, Eq, Hash)]
pub struct Reader<'a> {
    pub log: &'a [u8],
    pub place: usize,
}

impl<'a> Reader<'a> {
    // A reader at a place of a lent log.
    pub fn new(log: &'a [u8], place: usize) -> Reader<'a>
        ensures { (result.log ≡ log.entry) × (result.place ≡ place) }
    {
        Reader { log, place }
    }

    // The record where the reader stands.
    pub fn record_here(self) -> Result<Option<Record>, Refusal>
        ensures { record_answered self.entry.place result ≡ record_at self.entry.log.now self.entry.place }
    {
        crate::read_record(self.log, self.place)
    }

    // The cell where the reader stands, as that part of the log itself; an empty part where there is none.
    pub fn cell(self) -> &'a [u8]
        ensures { (result.now ≡ cell_at self.entry.log.now self.entry.place)
            × (result.ref_ptr ≡ from self.entry.log.ref_ptr (record_at self.entry.log.now self.entry.place).start) }
    {
        crate::read_cell(self.log, self.place)
    }

    // The reader past the record where it stands; where there is no cell, its place stays as given.
    pub fn past_record(self) -> Reader<'a>
        ensures { (result.log ≡ self.entry.log) × (result.place ≡ place_after self.entry.log.now self.entry.place) }
    {
        Reader {
            place: crate::next_place(self.log, self.place),
            ..self
        }
    }
}

// The record at a place of a log.
pub fn read(log: &[u8], place: usize) -> Result<Option<Record>, Refusal>
    ensures { record_answered place result ≡ record_at log.now place }
{
    Reader::new(log, place).record_here()
}
