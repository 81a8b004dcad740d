// The salvage of a log for C, Rust and Python: it puts the counts of the proved function into a lent array.
ghost use Rattle.rimesatchel.specs.Salvages.{SalvagedLog};

// Writes the new log into `out` and the list of the records left out into `list`. Returns the refusal (0, or 11, 1, 2, 3, 21, and
// then both are as they were), and writes the octets of the new log, the records left out and the octets cut; three zeros where
// it is refused.
pub fn rime_salvage(log: &[u8], out: &mut [u8], list: &mut [u64], counts: &mut [u64; 3]) -> u8
    ensures { SalvagedLog log.now out.old list.old result
        out.new list.new counts.new }
{
    let saved = saving::salvage(log, out, list);
    *counts = [saved.octets as u64, saved.left_out as u64, saved.cut as u64];
    saved.refusal
}
