// The last line of a salvage, put behind the octets that a lent run holds already. The other lines are those of a list.
ghost use Rattle.text.specs.Put.{Puts};
ghost use Rattle.salvaging.specs.Lines.{end_line};

use text::{Put, put_all, put_item};

pub(crate) fn end_line(run: &mut [u8], at: Put, kept: usize, left: usize, cut: usize) -> Put
    ensures { Puts run.old at run.new result (end_line kept left cut) }
{
    let past_kept = put_item(run, at, b"end ", kept);
    let past_left = put_item(run, past_kept, b" kept ", left);
    let past_cut = put_item(run, past_left, b" left out ", cut);
    put_all(run, past_cut, b" cut\n")
}
