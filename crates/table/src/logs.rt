// Logs on standard input, each after its length: what the next octets belong to.
ghost use Rattle.std.specs.Prelude.{◌≡◌};
ghost use Rattle.table.specs.Taking.{
  between_of,
  first_of,
  next_input,
  read_of,
  begins_of,
  goes_on_of,
  length_step,
  log_step,
  step_of,
  last_of,
};

use crate::Input;

// What the octets ahead are: how many belong to the log that is read, how many are used, whether the log is whole behind them, and
// the input there.
#[derive(Clone, Copy, Debug, PartialEq, Eq, Hash)]
pub(crate) struct Step {
    pub input: Input,
    pub octets: usize,
    pub used: usize,
    pub whole: bool,
}

// Between two logs, so many of them whole, with this refusal.
fn between(refusal: u8, logs: usize) -> Input
    ensures { result ≡ between_of refusal logs }
{
    Input {
        refusal,
        logs,
        left: 0,
        digits: 0,
        number: 0,
    }
}

// Before the first log of so many files: 18 for more than 4,096.
#[tactic(auto, unfolding(crate::specs::Taking::first_of))]
pub(crate) fn first(files: usize) -> Input
    ensures { result ≡ first_of files }
{
    if 4096 < files {
        return between(18, 0);
    }
    between(0, 0)
}

// Behind a log that ends here: 18 where it isn't one of the first 4,096.
#[tactic(auto, unfolding(crate::specs::Taking::next_input))]
pub(crate) fn next(input: Input) -> Input
    ensures { result ≡ next_input input }
{
    let logs = input.logs;
    if 4095 < logs {
        return between(18, logs);
    }
    between(input.refusal, logs + 1)
}

// An octet of a length, with the input behind it.
fn read(input: Input) -> Step
    ensures { result ≡ read_of input }
{
    Step {
        input,
        octets: 0,
        used: 1,
        whole: false,
    }
}

// An octet behind which the input is refused.
fn stopped(refusal: u8, logs: usize) -> Step
    ensures { result ≡ read_of (between_of refusal logs) }
{
    read(between(refusal, logs))
}

// Whether an octet is the next digit of a length: of at most ten, and of at most 4,294,967,295.
#[tactic(auto, unfolding(crate::specs::Taking::goes_on_of))]
fn goes_on(digits: u8, number: u64, octet: u8) -> bool
    ensures { result ≡ goes_on_of digits number octet }
{
    octet.is_ascii_digit()
        && digits <= 9
        && number <= 429496729
        && 10 * number + (octet - b'0') as u64 <= 4294967295
}

// Behind a length: a log of so many octets begins. One of none is whole at once.
fn begins(logs: usize, octets: u64) -> Step
    ensures { result ≡ begins_of logs octets }
{
    Step {
        whole: octets == 0,
        ..read(Input {
            left: octets,
            ..between(0, logs)
        })
    }
}

// An octet between two logs belongs to a length: 18 behind the 4,096th log, 5 where it is no length.
#[tactic(auto, unfolding(crate::specs::Taking::length_step, crate::specs::Taking::goes_on_of))]
fn length_step(input: Input, octet: u8) -> Step
    ensures { result ≡ length_step input octet }
{
    let logs = input.logs;
    if 4095 < logs {
        return stopped(18, logs);
    }
    if octet == b'\n' {
        if input.digits == 0 {
            return stopped(5, logs);
        }
        return begins(logs, input.number);
    }
    if !goes_on(input.digits, input.number, octet) {
        return stopped(5, logs);
    }
    read(Input {
        digits: input.digits + 1,
        number: 10 * input.number + (octet - b'0') as u64,
        ..between(0, logs)
    })
}

// So many octets ahead within a log: as many as are left of it, or all of them.
#[tactic(auto, unfolding(crate::specs::Taking::log_step))]
fn log_step(input: Input, room: usize) -> Step
    ensures { result ≡ log_step input room }
{
    let left = input.left;
    let wide = room as u64;
    let octets = left.min(wide) as usize;
    Step {
        input: Input {
            left: left.saturating_sub(wide),
            ..input
        },
        octets,
        used: octets,
        whole: left <= wide,
    }
}

// What so many octets ahead are, the first of which is given. Behind a refusal none is read.
#[tactic(auto, unfolding(crate::specs::Taking::step_of))]
pub(crate) fn ahead(input: Input, octet: u8, room: usize) -> Step
    ensures { result ≡ step_of input octet room }
{
    if input.refusal != 0 {
        return Step {
            input,
            octets: 0,
            used: room,
            whole: false,
        };
    }
    if input.left == 0 {
        return length_step(input, octet);
    }
    log_step(input, room)
}

// The refusal of an input that ends here: 5 within a log or within a length.
#[tactic(auto, unfolding(crate::specs::Taking::last_of))]
pub(crate) fn last(input: Input) -> u8
    ensures { result ≡ last_of input }
{
    if input.refusal != 0 {
        return input.refusal;
    }
    if input.left != 0 || input.digits != 0 {
        return 5;
    }
    0
}
