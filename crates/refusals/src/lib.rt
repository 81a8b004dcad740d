#![tactic(auto)]
// Refusals, documents 01 and 02: each way in which a call says no, with the number that the papers give it. 24 and 25 are the
// management port's, which has them for itself.
ghost use Rattle.std.specs.Prelude.{◌≡◌};
ghost use Rattle.refusals.specs.Refusals.{number_of, refused_by};

#[derive(Clone, Copy, Debug, PartialEq, Eq, Hash)]
pub enum Refusal {
    // the octet is none of the fourteen formats
    Format = 1,
    // C is 0 or above S
    Channels = 2,
    // an order above 1
    Order = 3,
    // a number in a state, or a start number, that can't be
    State = 4,
    // a cell not of 48 octets, or runs of a wrong or unequal length
    Length = 5,
    // a sample or an ancillary number too large for the format
    Sample = 6,
    // sending indication 1 where the number isn't a multiple of 8
    Indication = 7,
    // the cell's eight number bits aren't in the table
    Number = 8,
    // the cell has the number of the last one
    Repeat = 9,
    // the runs are too short for the missing cells and this one
    Room = 10,
    // a log number not in its shortest form, too long or cut; an indication above 1
    LogNumber = 11,
    // a record cut before its 48 octets end
    LogRecord = 12,
    // a list of a log that is too long
    LogLength = 13,
    // a channel status input that can't be
    Status = 14,
    // a cell that comes with indication 1 where its number isn't a multiple of 8
    Indicated = 15,
    // the preambles of a frame aren't X then Y, or Z then Y
    Preambles = 16,
    // odd parity in either half of a frame
    Parity = 17,
    // a sheet over more than 4,096 logs
    Logs = 18,
    // a sheet with a total above 4,294,967,295
    Total = 19,
    // the count of cells placed would pass 4,294,967,295
    Count = 20,
    // an output that is shorter than what can go into it
    Output = 21,
    // more than 64 circuits or 1,024 channels
    Plan = 22,
    // a sampling frequency of 0 or above 1,000,000
    Frequency = 23,
    // data units: a format with overhead
    Overhead = 26,
    // data units: a size below one frame
    UnitSize = 27,
    // data units: too little room
    UnitRoom = 28,
    // the B bits of a frame's halves differ
    Blocks = 29,
    // S times the circuits is below the channels
    Circuits = 30,
    // a report that can't follow the cells that the watch has seen
    Report = 31,
}

impl From<Refusal> for u8 {
    ghost from_gives = { λ refusal number. number ≡ number_of refusal };

    #[tactic(auto, unfolding(crate::specs::Refusals::number_of))]
    fn from(refusal: Refusal) -> u8 {
        refusal as u8
    }
}

// An answer as the papers tell it: 0 where nothing is refused.
#[tactic(auto, unfolding(crate::specs::Refusals::refused_by))]
pub fn number(answer: Result<(), Refusal>) -> u8
    ensures { result ≡ refused_by answer }
{
    match answer {
        Ok(()) => 0,
        Err(refusal) => refusal.into(),
    }
}
