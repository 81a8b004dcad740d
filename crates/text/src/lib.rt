#![tactic(auto)]
// Text for programs: words and decimal numbers put one after the other into a lent run, as far as it goes. What no longer fits is left
// out, and the answer says so.
ghost use Rattle.std.specs.Prelude.{[], ◌∷◌, ◌++◌, ◌≡◌, ◌+◌, ◌%◌, ◌≤◌, length, take};
ghost use Rattle.runs.specs.Runs.{written};
ghost use Rattle.text.specs.Put.{Puts};
ghost use Rattle.text.specs.Text.{decimal, item};

// How many octets were put into a run from its start, and whether they are all that were to be put.
#[derive(Clone, Copy, Debug, PartialEq, Eq, Hash)]
pub struct Put {
    pub octets: usize,
    pub whole: bool,
}

fn put_one(run: &mut [u8], at: Put, octet: u8) -> Put
    ensures { Puts run.old at run.new result (octet ∷ []) }
{
    let place = at.octets;
    if place < run.len() {
        run[place] = octet;
        return Put {
            octets: place + 1,
            ..at
        };
    }
    Put { whole: false, ..at }
}

// Copies the first `count` octets into a run from a place on, by a loop: for the slice's `copy_from_slice` the archive for C would need
// `memmove` from outside.
fn copied(run: &mut [u8], place: usize, octets: &[u8], count: usize)
    requires { (place + count ≤ length run.old) × (count ≤ length octets.now) }
    ensures { run.new ≡ written run.old place (take count octets.now) }
{
    for i in 0..count {
        run[place + i] = octets[i];
    }
}

// Puts octets behind those that are put already. The room is asked once for all of them.
pub fn put_all(run: &mut [u8], at: Put, octets: &[u8]) -> Put
    ensures { Puts run.old at run.new result octets.now }
{
    let place = at.octets;
    let end = run.len();
    let count = octets.len();
    if end < place {
        if count == 0 {
            return at;
        }
        return Put { whole: false, ..at };
    }
    let room = end - place;
    if count <= room {
        copied(run, place, octets, count);
        return Put {
            octets: place + count,
            ..at
        };
    }
    copied(run, place, octets, room);
    Put {
        octets: end,
        whole: false,
    }
}

fn digit(n: usize) -> u8
    ensures { result ≡ 48 + n % 10 }
{
    (48 + n % 10) as u8
}

// Puts a number in decimal. Most numbers of a list have one digit.
pub fn put_number(run: &mut [u8], at: Put, n: usize) -> Put
    ensures { Puts run.old at run.new result (decimal n) }
{
    if n < 10 {
        return put_one(run, at, digit(n));
    }
    let mut digits = [0u8; 20];
    let mut first = 19;
    let mut left = n;
    while 10 <= left {
        digits[first] = digit(left);
        left /= 10;
        first -= 1;
    }
    digits[first] = digit(left);
    put_all(run, at, &digits[first..])
}

// Puts words, and a number behind them.
pub fn put_item(run: &mut [u8], at: Put, words: &[u8], n: usize) -> Put
    ensures { Puts run.old at run.new result (item words.now n) }
{
    let past = put_all(run, at, words);
    put_number(run, past, n)
}

// Puts words, a number behind them, and the line's end.
pub fn put_line(run: &mut [u8], at: Put, words: &[u8], n: usize) -> Put
    ensures { Puts run.old at run.new result (item words.now n ++ (10 ∷ [])) }
{
    let past = put_item(run, at, words, n);
    put_all(run, past, b"\n")
}
