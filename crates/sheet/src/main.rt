#![tactic(auto)]
// `sheet`, request 3: prints one table over many logs, from the files that its arguments name or from standard input, where each
// log stands after its length. Everything that matters is in `table`; here the logs are read piece by piece, and the lines are
// written when all are read.
ghost use Rattle.std.specs.Prelude.{◌≡◌, ◌<◌, ◌≤◌, true, length, take};
ghost use Rattle.table.specs.Taking.{Takes};

use source::{Argument, Reader, Source, Turn};
use std::io;
use stops::Stop;
use table::{Ended, Sheet};

// The numbers of the rows of 4,096 logs, ten each, and of where they stopped, three each.
const ROWS: usize = 40960;

const KEPT: usize = 12288;

// What is lent to `table`: the octets of a record that isn't whole yet, each log's row, and where each log stopped. And the buffer
// of a read.
#[derive(Drop)]
struct Room {
    held: [u8; 49],
    buffer: [u8; 65536],
    rows: [u32; ROWS],
    kept: [u64; KEPT],
}

// Says what failed, and the system's reason.
fn told(rt: &HostRuntime, what: &[u8], why: &io::Error) {
    source::told(rt, b"sheet", what, why);
}

// Writes a line to standard output, and answers whether it could. It asks that the line is whole, and its callers prove that.
fn print(rt: &HostRuntime, line: &[u8], whole: bool) -> bool
    requires { whole ≡ true }
{
    match rt.stdout().write_all(line) {
        Ok(()) => true,
        Err(why) => {
            told(rt, b"standard output", &why);
            false
        }
    }
}

// Writes a line of a sheet. The row of all logs together has ten numbers.
fn print_line(rt: &HostRuntime, ended: Ended, rows: &[u32], index: usize) -> bool
    requires { 10 ≡ length ended.totals }
{
    let mut text = [0u8; 512];
    let line = table::line(&mut text, ended, rows, index);
    let octets = line.octets;
    print(rt, &text[..octets], line.whole)
}

// Writes the lines of a sheet that ends here.
fn print_sheet(rt: &HostRuntime, sheet: Sheet, rows: &[u32]) {
    let ended = table::end(sheet);
    for i in 0..ended.lines {
        if !print_line(rt, ended, rows, i) {
            return;
        }
    }
}

// Takes just what a read delivered: the first octets of the buffer, as many as came.
fn take_read(sheet: Sheet, room: &mut Room, turn: Turn) -> Sheet
    requires { turn.octets ≤ length room.old.buffer }
    ensures { Takes sheet room.old.held room.old.rows room.old.kept (take turn.octets room.old.buffer)
        result room.new.held room.new.rows room.new.kept }
{
    let n = turn.octets;
    table::take(
        sheet,
        &mut room.held,
        &mut room.rows,
        &mut room.kept,
        &room.buffer[..n],
    )
}

// Reads to the end, or to a refusal. `name` is what a failed read is told of; there is no sheet then.
fn read_all(
    rt: &HostRuntime,
    start: Sheet,
    from: &mut Reader,
    name: &[u8],
    room: &mut Room,
) -> Option<Sheet> {
    let mut sheet = start;
    let mut turn = source::first();
    while turn.goes_on(table::reads_on(sheet)) {
        turn = source::read(rt, b"sheet", name, from, &mut room.buffer, turn.left);
        sheet = take_read(sheet, room, turn);
    }
    turn.well().then_some(sheet)
}

// The file that an argument names; argument 0 is standard input.
fn opened(rt: &HostRuntime, index: usize, name: &mut [u8]) -> Source
    ensures { result.length ≤ length name.new }
{
    if index == 0 {
        return source::input(rt, b"sheet", b"[FILE..]", name);
    }
    source::named(rt, b"sheet", b"[FILE..]", index, name)
}

// Reads what an argument names. Where that fails there is no sheet.
fn read_source(rt: &HostRuntime, sheet: Sheet, index: usize, room: &mut Room) -> Option<Sheet> {
    let mut name = [0u8; 4096];
    let mut source = opened(rt, index, &mut name);
    if source.is_nothing() {
        return None;
    }
    let length = source.length;
    let behind = read_all(rt, sheet, &mut source.from, &name[..length], room);
    source::done(source);
    behind
}

// How a log is called: by its number, where it came on standard input, or by its file's name.
fn log_name(rt: &HostRuntime, log: usize, files: usize, name: &mut [u8]) -> usize
    ensures { result ≤ length name.new }
{
    if files == 0 {
        return source::numbered(log, name);
    }
    source::name_of(rt, log.wrapping_add(1), name)
}

// Says where a log stopped that didn't end well.
fn say_stop(rt: &HostRuntime, log: usize, files: usize, stop: Stop) {
    if stop.what == 0 {
        return;
    }
    let mut name = [0u8; 4096];
    let length = log_name(rt, log, files, &mut name);
    source::stopped(rt, b"sheet", &name[..length], stop);
}

fn say_stops(rt: &HostRuntime, sheet: Sheet, files: usize, kept: &[u64]) {
    for log in 0..sheet.input.logs {
        say_stop(rt, log, files, stops::kept(kept, log));
    }
}

// Makes the sheet of the logs on standard input.
fn from_input(rt: &HostRuntime, room: &mut Room) {
    if let Some(sheet) = read_source(rt, table::start(0), 0, room) {
        say_stops(rt, sheet, 0, &room.kept);
        print_sheet(rt, sheet, &room.rows);
    }
}

// Reads the log in the file that an argument names.
fn read_file(rt: &HostRuntime, sheet: Sheet, index: usize, room: &mut Room) -> Option<Sheet> {
    let behind = read_source(rt, table::open_log(sheet), index, room)?;
    Some(table::next_log(behind, room.held, &mut room.rows, &mut room.kept))
}

// Makes the sheet of so many files. Where one can't be read, there is none.
fn from_files(rt: &HostRuntime, files: usize, room: &mut Room) {
    let mut sheet = table::start(files);
    if table::reads_on(sheet) {
        for index in 1..=files {
            let Some(behind) = read_file(rt, sheet, index, room) else {
                return;
            };
            sheet = behind;
        }
    }
    say_stops(rt, sheet, files, &room.kept);
    print_sheet(rt, sheet, &room.rows);
}

// How many files the arguments name. 0: standard input is to be read, since there is no argument, or `-` alone.
fn files_named(rt: &HostRuntime) -> usize {
    let count = source::count(rt);
    if count != 1 {
        return count;
    }
    let mut name = [0u8; 4096];
    let length = source::word(rt, 1, &mut name).unwrap_or(0);
    if source::kind(&name[..length]) == Argument::Standard {
        return 0;
    }
    1
}

// Makes the sheet of the logs on standard input or of the files that the arguments name.
fn make_sheet(rt: &HostRuntime, room: &mut Room) {
    let files = files_named(rt);
    if files == 0 {
        from_input(rt, room);
    } else {
        from_files(rt, files, room);
    }
}

fn main(rt: HostRuntime) {
    let mut room = Room {
        held: [0; 49],
        buffer: [0; 65536],
        rows: [0; ROWS],
        kept: [0; KEPT],
    };
    make_sheet(&rt, &mut room);
}
