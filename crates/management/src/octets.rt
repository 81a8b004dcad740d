// A message brought to its length (8.3.5), and octets put into a lent run.
ghost use Rattle.std.specs.Prelude.{[], ◌∷◌, ◌++◌, ◌≡◌, ◌+◌, ◌≤◌, ◌<◌, length, get_or};
ghost use Rattle.runs.specs.Runs.{number_of, written};
ghost use Rattle.management.specs.Tables.{brought_to};

// An octet of a message; 0 past its end.
pub(crate) fn octet(message: &[u8], at: usize) -> u8
    ensures { result ≡ get_or message.now at 0 }
{
    if at < message.len() { message[at] } else { 0 }
}

// The first 29 octets of a message, zeros added where it is shorter. No table has more.
pub(crate) fn brought(message: &[u8]) -> [u8; 29]
    ensures { result ≡ brought_to 29 message.now }
{
    // by a loop: for the slice's `copy_from_slice` the archive for C would need `memset` from outside
    let mut octets = [0; 29];
    for i in 0..29 {
        octets[i] = octet(message, i);
    }
    octets
}

// The number that two octets make, the highest first.
#[tactic(auto, unfolding(runs::specs::Runs::read_on))]
pub(crate) fn number(octets: [u8; 2]) -> u64
    ensures { result ≡ number_of octets }
{
    u64::from(u16::from_be_bytes(octets))
}

// Writes octets into a lent run from a place on.
pub(crate) fn put(run: &mut [u8], place: usize, octets: &[u8])
    requires { place + length octets.now ≤ length run.old }
    ensures { run.new ≡ written run.old place octets.now }
{
    run[place..place + octets.len()].copy_from_slice(octets);
}

// Writes octets, and others behind them.
pub(crate) fn put_both(run: &mut [u8], place: usize, head: &[u8], tail: &[u8])
    requires { place + length head.now + length tail.now ≤ length run.old }
    ensures { run.new ≡ written run.old place (head.now ++ tail.now) }
{
    put(run, place, head);
    put(run, place + head.len(), tail);
}
