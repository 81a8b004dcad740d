// Writes a log into a lent run: its numbers, its header and its records (document 01, "The log").
ghost use Rattle.std.specs.Prelude.{◌≡◌, ◌+◌, ◌≤◌, length};
ghost use Rattle.cell_log.specs.Numbers.{groups_of};
ghost use Rattle.cell_log.specs.Written.{Keeps, number_refusal, header_refused_of, header_octets, record_refusal, record_octets};
ghost use Rattle.cell_log.specs.Answered.{kept_answered};

use refusals::Refusal;

// How many groups the shortest form of a number has.
fn group_count(value: u32) -> usize
    requires { value ≤ 2097151 }
    ensures { (result ≡ length (groups_of 3 value)) × (result ≤ 3) }
{
    if value < 128 {
        1
    } else if value < 16384 {
        2
    } else {
        3
    }
}

// Writes a number's shortest form at a place of a lent log: 11 where it has more than three groups, or the log's end would cut it.
pub fn write_number(log: &mut [u8], place: usize, value: u32) -> Result<usize, Refusal>
    ensures { Keeps (number_refusal log.old place value) place (groups_of 3 value) log.old (kept_answered result)
        log.new }
{
    if value > 2097151 || log.len().saturating_sub(place) < group_count(value) {
        return Err(Refusal::LogNumber);
    }
    if value < 128 {
        log[place] = value as u8;
        return Ok(place + 1);
    }
    log[place] = (128 + value % 128) as u8;
    if value < 16384 {
        log[place + 1] = (value / 128) as u8;
        return Ok(place + 2);
    }
    log[place + 1] = (128 + value / 128 % 128) as u8;
    log[place + 2] = (value / 128 / 128) as u8;
    Ok(place + 3)
}

// Writes a header at the start of a lent log: 1 to 3 as an opening has them, 11 where the log's end would cut it.
pub fn write_header(
    log: &mut [u8],
    format: u32,
    channels: u32,
    order: u32,
) -> Result<usize, Refusal>
    ensures { Keeps (header_refused_of log.old format channels order) 0 (header_octets format channels order)
        log.old (kept_answered result) log.new }
{
    formats::settings(format, channels, order)?;
    if log.len() < 3 {
        return Err(Refusal::LogNumber);
    }
    log[0] = format as u8;
    log[1] = channels as u8;
    log[2] = order as u8;
    Ok(3)
}

// Writes a record at a place of a lent log: 5 where the cell has not 48 octets, 12 where the log's end would cut it.
pub fn write_record(
    log: &mut [u8],
    place: usize,
    indication: bool,
    cell: &[u8],
) -> Result<usize, Refusal>
    ensures { Keeps (record_refusal log.old place cell.now) place
        (record_octets indication cell.now) log.old (kept_answered result) log.new }
{
    if cell.len() != 48 {
        return Err(Refusal::Length);
    }
    if log.len().saturating_sub(place) < 49 {
        return Err(Refusal::LogRecord);
    }
    let next = place + 49;
    log[place] = u8::from(indication);
    log[place + 1..next].copy_from_slice(cell);
    Ok(next)
}
