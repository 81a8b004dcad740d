#![tactic(auto)]
// `anything`, request 7: prints whether there is anything on a log at all, from the file that its argument names or from standard
// input. Everything that matters is in `presence`; here the log is read piece by piece, and the answer's line is written.
ghost use Rattle.std.specs.Prelude.{true, ◌≡◌, ◌≤◌, length, take};
ghost use Rattle.presence.specs.Taking.{Takes};

use presence::Search;
use source::{Reader, Turn};
use std::io;

// Says what failed, and the system's reason.
fn told(rt: &HostRuntime, what: &[u8], why: &io::Error) {
    source::told(rt, b"anything", what, why);
}

// Writes the line to standard output. It asks that the line is whole, and its caller proves that.
fn print(rt: &HostRuntime, line: &[u8], whole: bool)
    requires { whole ≡ true }
{
    if let Err(why) = rt.stdout().write_all(line) {
        told(rt, b"standard output", &why);
    }
}

// Hands the search just what a read delivered: the first octets of the buffer, as many as came.
fn take_read(search: Search, held: &mut [u8; 49], buffer: &[u8], turn: Turn) -> Search
    requires { turn.octets ≤ length buffer.now }
    ensures { Takes search held.old (take turn.octets buffer.now) result held.new }
{
    presence::take(search, held, &buffer[..turn.octets])
}

// Writes the answer of a log that ends here, or behind a yes or a fault. Where no record says yes, it says where the log stopped: a yes
// stays a yes whatever is behind it.
fn finish(rt: &HostRuntime, name: &[u8], search: Search, held: [u8; 49]) {
    let answer = presence::end(search, held);
    let mut text = [0u8; 64];
    let line = presence::put_line(answer, &mut text);
    print(rt, &text[..line.octets], line.whole);
    if !answer.found {
        source::stopped(rt, b"anything", name, stops::of(search.standing, held));
    }
}

// Reads a log piece by piece, up to the first record that says yes. `name` is what a failed read is told of.
fn find(rt: &HostRuntime, from: &mut Reader, name: &[u8], held: &mut [u8; 49], buffer: &mut [u8]) {
    let mut search = presence::start();
    let mut turn = source::first();
    while turn.goes_on(presence::reads_on(search)) {
        turn = source::read(rt, b"anything", name, from, buffer, turn.left);
        search = take_read(search, held, buffer, turn);
    }
    if turn.well() {
        finish(rt, name, search, *held);
    }
}

fn find_from(rt: &HostRuntime, from: &mut Reader, name: &[u8]) {
    let mut held = [0u8; 49];
    let mut buffer = [0u8; 65536];
    find(rt, from, name, &mut held, &mut buffer);
}

// Answers for the log that the one argument names, or the one on standard input.
fn main(rt: HostRuntime) {
    let mut name = [0u8; 4096];
    let mut source = source::chosen(&rt, b"anything", b"[FILE]", &mut name);
    if source.is_nothing() {
        return;
    }
    let length = source.length;
    find_from(&rt, &mut source.from, &name[..length]);
    source::done(source);
}
