#![tactic(auto)]
// Where a log stopped, and why: what `anything` and `sheet` say on standard error of a log that is refused or broken.
ghost use Rattle.std.specs.Prelude.{◌≡◌};
ghost use Rattle.stops.specs.Kept.{kept_with, kept_at};
ghost use Rattle.stops.specs.Stops.{stop_of, Writes};

use pieces::Standing;
use text::Put;

mod lines; // lines.rt: the words of a line

// What stopped it: 0 nothing, it ended well; 1 its header is refused; 2 a record is broken. Then the refusal, and how many whole
// records are before it, which is the broken one's number. Numbers, since `kept_at` gives back whatever numbers a lent run holds.
#[derive(Clone, Copy, Debug, PartialEq, Eq, Hash)]
pub struct Stop {
    pub what: u8,
    pub refusal: u8,
    pub number: u64,
}

fn stop_of(what: u8, refusal: u8, number: u64) -> Stop
    ensures { result ≡ record { what = what; refusal = refusal; number = number } }
{
    Stop {
        what,
        refusal,
        number,
    }
}

// Where a log that ends here stopped.
pub fn of(standing: Standing, held: [u8; 49]) -> Stop
    ensures { result ≡ stop_of standing held }
{
    let number = standing.records;
    if standing.stage == 2 {
        return stop_of(1, standing.fault, number);
    }
    if standing.stage == 3 {
        return stop_of(2, standing.fault, number);
    }
    let refusal = pieces::end(standing, held);
    if refusal == 0 {
        return stop_of(0, 0, number);
    }
    if standing.stage == 0 {
        return stop_of(1, refusal, number);
    }
    stop_of(2, refusal, number)
}

// Writes the line into the run, from its start, as far as it goes: nothing where the log ended well. What is past it stays.
pub fn put_line(stop: Stop, run: &mut [u8]) -> Put
    ensures { Writes stop run.old result run.new }
{
    let start = Put {
        octets: 0,
        whole: true,
    };
    if stop.what == 0 {
        return start;
    }
    let begun = lines::put_begin(run, start, stop);
    let reasoned = text::put_all(run, begun, lines::reason(stop.refusal));
    text::put_all(run, reasoned, b"\n")
}

// Keeps where a log stopped at its place in a run of three numbers a log, where the run goes so far.
pub fn keep(run: &mut [u64], log: usize, stop: Stop)
    ensures { run.new ≡ kept_with run.old log stop }
{
    if run.len() / 3 <= log {
        return;
    }
    let at = 3 * log;
    run[at] = stop.what as u64;
    run[at + 1] = stop.refusal as u64;
    run[at + 2] = stop.number;
}

// Where the log at a place of such a run stopped. One past it ended well.
pub fn kept(run: &[u64], log: usize) -> Stop
    ensures { result ≡ kept_at run.now log }
{
    if run.len() / 3 <= log {
        return stop_of(0, 0, 0);
    }
    let at = 3 * log;
    stop_of(
        (run[at] % 256) as u8,
        (run[at + 1] % 256) as u8,
        run[at + 2],
    )
}
