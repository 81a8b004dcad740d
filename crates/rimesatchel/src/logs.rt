// A log for C, Rust and Python: the header and the records. Each call puts the answer of the proved function into a lent array.
ghost use Rattle.std.specs.Prelude.{◌≡◌};
ghost use Rattle.cell_log.specs.Records.{header_of, record_at};
ghost use Rattle.rimesatchel.specs.Logs.{header_numbers, record_numbers};

// The header of a log. Returns the refusal, 0 where there is none, and writes the place after it, the format octet, channels and
// order; four zeros where it is refused.
pub fn rime_log_header(log: &[u8], header: &mut [u32; 4]) -> u8
    ensures { (result ≡ (header_of log.now).refusal) × (header.new ≡ header_numbers (header_of log.now)) }
{
    match cell_log::read_header(log) {
        Ok(found) => {
            *header = [
                found.place as u32,
                found.format,
                found.channels,
                found.order,
            ];
            0
        }
        Err(refusal) => {
            *header = [0; 4];
            refusal.into()
        }
    }
}

// The record at a place of a log. Returns the refusal, 0 where there is none, and writes what is there (0 the end, 1 a cell), the
// indication, where the cell's 48 octets start and the next place; four zeros where it is refused.
pub fn rime_log_record(log: &[u8], place: usize, answer: &mut [u64; 4]) -> u8
    ensures { (result ≡ (record_at log.now place).refusal) × (answer.new ≡ record_numbers (record_at log.now place)) }
{
    match cell_log::reader::read(log, place) {
        Ok(Some(found)) => {
            *answer = [
                1,
                u64::from(found.indication),
                found.start as u64,
                found.next as u64,
            ];
            0
        }
        Ok(None) => {
            *answer = [0, 0, 0, place as u64];
            0
        }
        Err(refusal) => {
            *answer = [0; 4];
            refusal.into()
        }
    }
}
