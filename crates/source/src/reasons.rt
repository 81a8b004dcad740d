// Why something failed, in the system's words.
ghost use Rattle.std.specs.Prelude.{◌≡◌, length, take};

use std::io;

// A word of the command line isn't there: EINVAL.
pub(crate) fn not_there() -> io::Error {
    io::Error::from_raw_os_error(22)
}

// A word of the command line is too long for a file's name: ENAMETOOLONG.
pub(crate) fn too_long() -> io::Error {
    io::Error::from_raw_os_error(36)
}

// A file's name isn't text: EILSEQ.
pub(crate) fn no_text() -> io::Error {
    io::Error::from_raw_os_error(84)
}

// The system's words for an error, of the line that the library makes of it: the error's number behind them is left out.
pub(crate) fn words_of(line: &str) -> &str
    ensures { take (length result.now) line.now ≡ result.now }
{
    match line.rsplit_once(" (os error ") {
        Some((words, _)) => words,
        None => line,
    }
}
