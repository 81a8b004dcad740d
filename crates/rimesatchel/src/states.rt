// The state of a log that is taken in pieces, as numbers of 64 bits in lent memory: where the log stands, and the receiver's state. No
// state is refused: a number is taken modulo its width, and of a yes or no 0 is no and any other number yes.
ghost use Rattle.std.specs.Prelude.{◌≡◌, ◌+◌, ◌*◌, ◌/◌, ◌%◌, ◌<◌, ◌≤◌, leb, length};
ghost use Rattle.rimesatchel.specs.States.{standing_in, receiver_in, with_numbers, Within};

use pieces::Standing;
use receiver::Receiver;

pub(crate) fn low(n: u64) -> u8
    ensures { result ≡ n % 256 }
{
    (n % 256) as u8
}

// Where the log stands, by a state's first five numbers.
pub(crate) fn standing_in(s: &[u64]) -> Standing
    requires { 11 ≤ length s.now }
    ensures { result ≡ standing_in s.now }
{
    Standing {
        stage: low(s[0]),
        fault: low(s[1]),
        count: s[2] as usize,
        left: s[3],
        records: s[4],
    }
}

// The receiver's state, by the six numbers behind them.
pub(crate) fn receiver_in(s: &[u64]) -> Receiver
    requires { 11 ≤ length s.now }
    ensures { result ≡ receiver_in s.now }
{
    Receiver {
        format: low(s[5]),
        channels: low(s[6]),
        order: low(s[7]),
        started: s[8] != 0,
        last: low(s[9]),
        count: (s[10] % 4294967296) as u32,
    }
}

// Writes these eleven numbers before those that are a state's own. They are within their widths.
pub(crate) fn put_numbers(standing: Standing, receiver: Receiver, own: &[u64], numbers: &mut [u64])
    requires { length numbers.old ≡ 11 + length own.now }
    ensures { (numbers.new ≡ with_numbers standing receiver own.now) × Within standing receiver }
{
    numbers[..11].copy_from_slice(&[
        standing.stage as u64,
        standing.fault as u64,
        standing.count as u64,
        standing.left,
        standing.records,
        receiver.format as u64,
        receiver.channels as u64,
        receiver.order as u64,
        receiver.started as u64,
        receiver.last as u64,
        receiver.count as u64,
    ]);
    numbers[11..].copy_from_slice(own);
}

// Whether a run is long enough for what a piece can make: `first` octets, and `each` for every record that it can make whole. The
// sum can pass 64 bits, so it is compared by division.
pub(crate) fn has_room(first: usize, each: usize, piece: usize, run: usize) -> bool
    requires { 0 < each }
    ensures { result ≡ leb (first + each * (piece / 49 + 1)) run }
{
    first <= run && piece / 49 < (run - first) / each
}
