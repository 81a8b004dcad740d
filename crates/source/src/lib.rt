#![tactic(auto)]
// Where a program reads a log from: the file that a word of its command line names, or standard input; and what it says where that
// fails. What the system does is as its library's contracts assume.
ghost use Rattle.std.specs.Prelude.{true, ◌≡◌, ◌≤◌, ◌↔◌, IsTrue, length};
ghost use Rattle.source.specs.Kinds.{kind_of};
ghost use Rattle.source.specs.Arguments.{number_of};

use std::fmt::InlineText;
use std::fs::File;
use std::io;
use std::io::{IsTerminal, Read, Stdin};
use stops::Stop;
use text::Put;

mod reasons; // reasons.rt: why something failed, in the system's words
mod turns; // turns.rt: what a program does behind a read
mod words; // words.rt: the words of the command line

pub use turns::{Next, Turn, answered, first, goes_on, read, well};
pub use words::{count, word};

// What is read: standard input, or a file that was opened, and is closed where this is dropped. Or nothing, and why is said already.
#[derive(Drop)]
pub enum Reader {
    Nothing,
    Standard(Stdin),
    Opened(File),
}

impl Read for Reader {
    fn read(&mut self, buf: &mut [u8]) -> io::Result<usize> {
        match self {
            Reader::Nothing => Ok(0),
            Reader::Standard(input) => input.read(buf),
            Reader::Opened(file) => file.read(buf),
        }
    }
}

// What to read from, and how many octets of a lent name say what is read.
#[derive(Drop)]
pub struct Source {
    pub from: Reader,
    pub length: usize,
}

impl Source {
    // Whether there is nothing to read. Why is said already.
    pub fn is_nothing(&self) -> bool
        ensures { IsTrue result ↔ (self.now.from ≡ Reader.Nothing) }
    {
        matches!(self.from, Reader::Nothing)
    }
}

// What a word of the command line is.
#[derive(Clone, Copy, Debug, PartialEq, Eq, Hash)]
pub enum Argument {
    // a file's name
    File,
    // `-`, which is standard input
    Standard,
    // another word that begins with `-`
    Other,
}

#[tactic(auto, unfolding(crate::specs::Kinds::kind_of))]
pub fn kind(word: &[u8]) -> Argument
    ensures { number_of result ≡ kind_of word.now }
{
    match word {
        [b'-'] => Argument::Standard,
        [b'-', ..] => Argument::Other,
        _ => Argument::File,
    }
}

// Writes octets to standard error. Where that fails there is nobody left to tell.
fn say(rt: &HostRuntime, octets: &[u8]) {
    let _ = rt.stderr().write_all(octets);
}

// Says how a program is called.
fn usage(rt: &HostRuntime, program: &[u8], words: &[u8]) {
    say(rt, b"usage: ");
    say(rt, program);
    say(rt, b" ");
    say(rt, words);
    say(rt, b"\n");
}

// Says what failed, and the system's reason, on standard error. It answers nothing and changes nothing lent, so it has no promise.
pub fn told(rt: &HostRuntime, program: &[u8], what: &[u8], why: &io::Error) {
    let line = InlineText::<300>::of(why);
    let reason = reasons::words_of(line.as_str());
    say(rt, program);
    say(rt, b": ");
    say(rt, what);
    say(rt, b": ");
    say(rt, reason.as_bytes());
    say(rt, b"\n");
}

// Says a line of what is read, on standard error. It asks that the line is whole, and its callers prove that.
pub(crate) fn said(rt: &HostRuntime, program: &[u8], name: &[u8], line: &[u8], whole: bool)
    requires { whole ≡ true }
{
    if !whole {
        return;
    }
    say(rt, program);
    say(rt, b": ");
    say(rt, name);
    say(rt, b": ");
    say(rt, line);
}

// Says where a log stopped, and why; nothing where it ended well. It answers nothing and changes nothing lent, so it has no promise.
pub fn stopped(rt: &HostRuntime, program: &[u8], name: &[u8], stop: Stop) {
    if stop.what == 0 {
        return;
    }
    let mut text = [0u8; 128];
    let line = stops::put_line(stop, &mut text);
    let octets = line.octets;
    said(rt, program, name, &text[..octets], line.whole);
}

fn nothing() -> Source
    ensures { (result.from ≡ Reader.Nothing) × (result.length ≡ 0) }
{
    Source {
        from: Reader::Nothing,
        length: 0,
    }
}

// Puts words into a name, and answers how many octets of it they are.
fn words_in(name: &mut [u8], words: &[u8]) -> usize
    ensures { result ≤ length name.new }
{
    let start = Put {
        octets: 0,
        whole: true,
    };
    let put = text::put_all(name, start, words);
    put.octets
}

// The name of a log that has none: its number.
pub fn numbered(log: usize, name: &mut [u8]) -> usize
    ensures { result ≤ length name.new }
{
    let start = Put {
        octets: 0,
        whole: true,
    };
    let put = text::put_item(name, start, b"log ", log);
    put.octets
}

// The name of the file, or of standard input, that a word of the command line names.
pub fn name_of(rt: &HostRuntime, index: usize, name: &mut [u8]) -> usize
    ensures { result ≤ length name.new }
{
    let length = word(rt, index, name).unwrap_or(0);
    if kind(&name[..length]) == Argument::Standard {
        return words_in(name, b"standard input");
    }
    length
}

// Standard input, unless it is a terminal: who types no name is told how the program is called.
pub fn input(rt: &HostRuntime, program: &[u8], words: &[u8], name: &mut [u8]) -> Source
    ensures { result.length ≤ length name.new }
{
    let input = rt.stdin();
    if input.is_terminal() {
        usage(rt, program, words);
        return nothing();
    }
    let length = words_in(name, b"standard input");
    Source {
        from: Reader::Standard(input),
        length,
    }
}

// Opens a file for reading. The library takes a name that is text, so one that isn't is refused, by the reason that the system has
// for octets that are none.
fn opened(rt: &HostRuntime, name: &[u8]) -> io::Result<File> {
    match std::str::from_utf8(name) {
        Ok(path) => File::open(rt, path),
        Err(_) => Err(reasons::no_text()),
    }
}

// The file, or standard input, that a word of the command line names.
pub fn named(
    rt: &HostRuntime,
    program: &[u8],
    words: &[u8],
    index: usize,
    name: &mut [u8],
) -> Source
    ensures { result.length ≤ length name.new }
{
    let length = match word(rt, index, name) {
        Ok(length) => length,
        Err(why) => {
            told(rt, program, b"the name of the file", &why);
            return nothing();
        }
    };
    match kind(&name[..length]) {
        Argument::Standard => return input(rt, program, words, name),
        Argument::Other => {
            usage(rt, program, words);
            return nothing();
        }
        Argument::File => {}
    }
    match opened(rt, &name[..length]) {
        Ok(file) => Source {
            from: Reader::Opened(file),
            length,
        },
        Err(why) => {
            told(rt, program, &name[..length], &why);
            nothing()
        }
    }
}

// The same for a program that takes one word at most: without it, standard input.
pub fn chosen(rt: &HostRuntime, program: &[u8], words: &[u8], name: &mut [u8]) -> Source
    ensures { result.length ≤ length name.new }
{
    if !words::given(rt, 1) {
        return input(rt, program, words, name);
    }
    if words::given(rt, 2) {
        usage(rt, program, words);
        return nothing();
    }
    named(rt, program, words, 1, name)
}

// Closes what was opened. It answers nothing and changes nothing lent, so it has no promise.
pub fn done(source: Source) {
    drop(source);
}
