// What a log holds, for C, Rust and Python: the answer of the proved function goes into a lent array.
ghost use Rattle.std.specs.Prelude.{◌≡◌};
ghost use Rattle.presence.specs.Presence.{presence_of};
ghost use Rattle.rimesatchel.specs.Contents.{presence_numbers};

// Is there a sample marked 0 in a log that isn't zero? Returns the refusal of the header, 0 where there is none, and writes yes or
// no, and for a yes the first such record, counted from 0, for a no how many whole records were read; zeros where it is refused.
pub fn rime_anything(log: &[u8], answer: &mut [u64; 2]) -> u8
    ensures { (result ≡ (presence_of log.now).refusal) × (answer.new ≡ presence_numbers (presence_of log.now)) }
{
    let found = presence::anything(log);
    *answer = [found.found as u64, found.number as u64];
    found.refusal
}
