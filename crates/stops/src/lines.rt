// The words of a line that says where a log stopped. They are those of the desk tool.
ghost use Rattle.std.specs.Prelude.{◌≡◌};
ghost use Rattle.text.specs.Put.{Puts};
ghost use Rattle.stops.specs.Stops.{begin_of, reason_of};

use crate::Stop;
use text::Put;

// What is refused, and by which number.
pub(crate) fn put_begin(run: &mut [u8], at: Put, stop: Stop) -> Put
    ensures { Puts run.old at run.new result (begin_of stop) }
{
    if stop.what == 1 {
        return text::put_item(run, at, b"the log is refused ", stop.refusal as usize);
    }
    let record = text::put_item(run, at, b"record ", stop.number as usize);
    text::put_item(run, record, b" broken ", stop.refusal as usize)
}

// What a refusal of a log means.
#[tactic(auto, unfolding(crate::specs::Stops::reason_of))]
pub(crate) fn reason(refusal: u8) -> &'static [u8]
    ensures { result.now ≡ reason_of refusal }
{
    match refusal {
        1 => b": there is no such format",
        2 => b": there are no channels, or more than slots",
        3 => b": the order is above 1",
        11 => b": a number or an indication in the log is wrong",
        12 => b": a record of the log is cut",
        13 => b": the log is too long",
        _ => b"",
    }
}
