// The lines of a list, each put behind the octets that a lent run holds already.
ghost use Rattle.std.specs.Prelude.{◌++◌};
ghost use Rattle.text.specs.Put.{Puts};
ghost use Rattle.text.specs.Text.{item};
ghost use Rattle.text.specs.Words.{words};
ghost use Rattle.listing.specs.Lines.{format_line, sound_line, refused_line, broken_line, end_line, log_refused_line};

use text::{Put, put_all, put_item, put_line, put_number};

// A line of three numbers, with words before each and behind the last.
fn three(
    run: &mut [u8],
    at: Put,
    first: &[u8],
    a: usize,
    second: &[u8],
    b: usize,
    third: &[u8],
    c: usize,
    last: &[u8],
) -> Put
    ensures { Puts run.old at run.new result
        (item first.now a ++ item second.now b ++ item third.now c ++ last.now) }
{
    let past_first = put_item(run, at, first, a);
    let past_second = put_item(run, past_first, second, b);
    let past_third = put_item(run, past_second, third, c);
    put_all(run, past_third, last)
}

// A line of a record and a refusal, with words between them.
fn fault(run: &mut [u8], at: Put, index: usize, between: &[u8], refusal: usize) -> Put
    ensures { Puts run.old at run.new result
        (item (words "") index ++ item between.now refusal ++ words "\n") }
{
    let past_index = put_item(run, at, b"", index);
    put_line(run, past_index, between, refusal)
}

pub(crate) fn format_line(
    run: &mut [u8],
    at: Put,
    octet: usize,
    channels: usize,
    order: usize,
) -> Put
    ensures { Puts run.old at run.new result (format_line octet channels order) }
{
    three(
        run, at, b"format ", octet, b" ", channels, b" ", order, b"\n",
    )
}

// This is the line of most records: with its words as constants it takes fewer instructions than by `three`, and words of six octets
// and one are stored faster than of seven.
pub(crate) fn sound_line(
    run: &mut [u8],
    at: Put,
    index: usize,
    missing: usize,
    number: usize,
) -> Put
    ensures { Puts run.old at run.new result (sound_line index missing number) }
{
    let past_index = put_number(run, at, index);
    let past_sound = put_all(run, past_index, b" sound");
    let past_missing = put_item(run, past_sound, b" ", missing);
    let past_number = put_item(run, past_missing, b" number ", number);
    put_all(run, past_number, b"\n")
}

pub(crate) fn end_line(run: &mut [u8], at: Put, sound: usize, missing: usize, refused: usize) -> Put
    ensures { Puts run.old at run.new result (end_line sound missing refused) }
{
    three(
        run,
        at,
        b"end ",
        sound,
        b" sound ",
        missing,
        b" missing ",
        refused,
        b" refused\n",
    )
}

pub fn refused_line(run: &mut [u8], at: Put, index: usize, refusal: usize) -> Put
    ensures { Puts run.old at run.new result (refused_line index refusal) }
{
    fault(run, at, index, b" refused ", refusal)
}

pub(crate) fn broken_line(run: &mut [u8], at: Put, index: usize, refusal: usize) -> Put
    ensures { Puts run.old at run.new result (broken_line index refusal) }
{
    fault(run, at, index, b" broken ", refusal)
}

pub fn log_refused_line(run: &mut [u8], at: Put, refusal: usize) -> Put
    ensures { Puts run.old at run.new result (log_refused_line refusal) }
{
    put_line(run, at, b"log refused ", refusal)
}
