#![tactic(auto)]
// `linelist`, document 01, "The log", and request 14: prints the list of a log as it reads it, from the file that its argument
// names or from standard input. Everything that matters is in `listing`; here the log is read piece by piece, and its lines are
// written.
ghost use Rattle.std.specs.Prelude.{true, ◌≡◌, ◌≤◌, length, take};
ghost use Rattle.listing.specs.Taking.{Takes};

use listing::{Listing, Printed};
use source::{Reader, Turn};
use std::io;

// Says what failed, and the system's reason.
fn told(rt: &HostRuntime, what: &[u8], why: &io::Error) {
    source::told(rt, b"linelist", what, why);
}

// Writes lines to standard output, and answers whether it could. It asks that they are whole, and its callers prove that.
fn print(rt: &HostRuntime, lines: &[u8], whole: bool) -> bool
    requires { whole ≡ true }
{
    match rt.stdout().write_all(lines) {
        Ok(()) => true,
        Err(why) => {
            told(rt, b"standard output", &why);
            false
        }
    }
}

// Hands the list just what a read delivered: the first octets of the buffer, as many as came. The lines of so many are whole in the
// text.
fn take_read(
    listing: Listing,
    held: &mut [u8; 49],
    buffer: &[u8],
    turn: Turn,
    text: &mut [u8],
) -> Printed
    requires { (turn.octets ≤ length buffer.now) × (length buffer.now ≤ 65536) × (131072 ≤ length text.old) }
    ensures { Takes listing held.old (take turn.octets buffer.now)
        text.old result held.new text.new
        × (result.listed.whole ≡ true) × (result.listed.octets ≤ length text.new) }
{
    listing::take(listing, held, &buffer[..turn.octets], text)
}

// Writes what ends the list.
fn finish(rt: &HostRuntime, listing: Listing, held: [u8; 49], text: &mut [u8])
    requires { 131072 ≤ length text.old }
{
    let listed = listing::end(listing, held, text);
    print(rt, &text[..listed.octets], listed.whole);
}

// Reads a log piece by piece, and writes its lines as it goes. `name` is what a failed read is told of.
fn list(
    rt: &HostRuntime,
    from: &mut Reader,
    name: &[u8],
    held: &mut [u8; 49],
    buffer: &mut [u8],
    text: &mut [u8],
)
    requires { (length buffer.old ≤ 65536) × (131072 ≤ length text.old) }
{
    let mut listing = listing::start_longest();
    let mut turn = source::first();
    while turn.goes_on(listing::reads_on(listing)) {
        turn = source::read(rt, b"linelist", name, from, buffer, turn.left);
        let printed = take_read(listing, held, buffer, turn, text);
        let listed = printed.listed;
        if !print(rt, &text[..listed.octets], listed.whole) {
            return;
        }
        listing = printed.listing;
    }
    if turn.well() {
        finish(rt, listing, *held, text);
    }
}

fn list_from(rt: &HostRuntime, from: &mut Reader, name: &[u8]) {
    let mut held = [0u8; 49];
    let mut buffer = [0u8; 65536];
    let mut text = [0u8; 131072];
    list(rt, from, name, &mut held, &mut buffer, &mut text);
}

// Lists the log that the one argument names, or the one on standard input.
fn main(rt: HostRuntime) {
    let mut name = [0u8; 4096];
    let mut source = source::chosen(&rt, b"linelist", b"[FILE]", &mut name);
    if source.is_nothing() {
        return;
    }
    let length = source.length;
    list_from(&rt, &mut source.from, &name[..length]);
    source::done(source);
}
