#![tactic(auto)]
// `salvage`, request 9: reads a log from the file that its argument names or from standard input, writes the new log to standard
// output, and to standard error a line for each record left out and the counts. Everything that matters is in `salvaging`; here
// the log is read piece by piece, to its end, and what is made of it is written.
ghost use Rattle.std.specs.Prelude.{true, ◌≡◌, ◌≤◌, length, take};
ghost use Rattle.salvaging.specs.Taking.{Takes};
ghost use Rattle.salvage.specs.Whole.{Whole};

use salvaging::{Salvaging, Wrote};
use source::{Reader, Turn};
use std::io;
use text::Put;

// Says what failed, and the system's reason.
fn told(rt: &HostRuntime, what: &[u8], why: &io::Error) {
    source::told(rt, b"salvage", what, why);
}

// Writes octets, and answers whether it could. It asks that they are whole, and its callers prove that.
fn print(rt: &HostRuntime, to: &impl Print, name: &[u8], octets: &[u8], whole: bool) -> bool
    requires { whole ≡ true }
{
    match to.write_all(octets) {
        Ok(()) => true,
        Err(why) => {
            told(rt, name, &why);
            false
        }
    }
}

// Writes what a piece made, the new log first, and answers whether it could.
fn print_both(rt: &HostRuntime, out: &[u8], saved: Put, notes: &[u8], noted: Put) -> bool
    requires { Whole saved (length out.now) × Whole noted (length notes.now) }
{
    let octets = saved.octets;
    if !print(
        rt,
        &rt.stdout(),
        b"standard output",
        &out[..octets],
        saved.whole,
    ) {
        return false;
    }
    let lines = noted.octets;
    print(
        rt,
        &rt.stderr(),
        b"standard error",
        &notes[..lines],
        noted.whole,
    )
}

// Hands the salvage just what a read delivered: the first octets of the buffer, as many as came. What so many make is whole in the
// two runs.
fn take_read(
    salvaging: Salvaging,
    held: &mut [u8; 49],
    buffer: &[u8],
    turn: Turn,
    out: &mut [u8],
    notes: &mut [u8],
) -> Wrote
    requires { (turn.octets ≤ length buffer.now) × (length buffer.now ≤ 65536) × (131072 ≤ length out.old)
        × (131072 ≤ length notes.old) }
    ensures { Takes salvaging held.old (take turn.octets buffer.now)
        out.old notes.old result held.new out.new notes.new
        × Whole result.saved (length out.new) × Whole result.noted (length notes.new) }
{
    salvaging::take(salvaging, held, &buffer[..turn.octets], out, notes)
}

// Writes what is said last.
fn finish(rt: &HostRuntime, salvaging: Salvaging, held: [u8; 49], notes: &mut [u8])
    requires { 131072 ≤ length notes.old }
{
    let noted = salvaging::end(salvaging, held, notes);
    let octets = noted.octets;
    print(
        rt,
        &rt.stderr(),
        b"standard error",
        &notes[..octets],
        noted.whole,
    );
}

// Reads a log piece by piece to its end, and writes what comes of it as it goes. `name` is what a failed read is told of.
fn save(
    rt: &HostRuntime,
    from: &mut Reader,
    name: &[u8],
    held: &mut [u8; 49],
    buffer: &mut [u8],
    out: &mut [u8],
    notes: &mut [u8],
)
    requires { (length buffer.old ≤ 65536) × (131072 ≤ length out.old) × (131072 ≤ length notes.old) }
{
    let mut salvaging = salvaging::start();
    let mut turn = source::first();
    while turn.goes_on(true) {
        turn = source::read(rt, b"salvage", name, from, buffer, turn.left);
        let wrote = take_read(salvaging, held, buffer, turn, out, notes);
        if !print_both(rt, out, wrote.saved, notes, wrote.noted) {
            return;
        }
        salvaging = wrote.salvaging;
    }
    if turn.well() {
        finish(rt, salvaging, *held, notes);
    }
}

fn save_from(rt: &HostRuntime, from: &mut Reader, name: &[u8]) {
    let mut held = [0u8; 49];
    let mut buffer = [0u8; 65536];
    let mut out = [0u8; 131072];
    let mut notes = [0u8; 131072];
    save(rt, from, name, &mut held, &mut buffer, &mut out, &mut notes);
}

// Salvages the log that the one argument names, or the one on standard input.
fn main(rt: HostRuntime) {
    let mut name = [0u8; 4096];
    let mut source = source::chosen(&rt, b"salvage", b"[FILE]", &mut name);
    if source.is_nothing() {
        return;
    }
    let length = source.length;
    save_from(&rt, &mut source.from, &name[..length]);
    source::done(source);
}
