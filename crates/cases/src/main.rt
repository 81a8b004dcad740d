#![tactic(auto)]
// The paper's cases that aren't proved, and Appendix 2's examples: a file for each section. What they write is compared with
// the file `stdout`.
mod channel_status;
mod missing_cells;
mod subframe_formats;
mod the_log;

use refusals::Refusal;

// A line: what is told, and a number.
fn say(rt: &impl Print, what: &str, number: u8) {
    let _ = println!(rt; "{what}{number}");
}

// A line: what is told, and the number of what is refused (0: none).
fn refused<T: Copy>(rt: &impl Print, what: &str, answer: Result<T, Refusal>) {
    let number = match answer {
        Ok(_) => 0,
        Err(refusal) => refusal.into(),
    };
    say(rt, what, number);
}

fn main(rt: HostRuntime) {
    subframe_formats::cases(&rt);
    missing_cells::cases(&rt);
    channel_status::cases(&rt);
    the_log::cases(&rt);
}
