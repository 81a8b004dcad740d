// The words of a command line, counted from 1. Word 0 is the program's own name.
ghost use Rattle.std.specs.Prelude.{◌≤◌, length, IfOk};

use super::reasons;
use std::env::FillError;
use std::io;
use std::rt::Env;

// Whether there is such a word.
pub(crate) fn given(rt: &impl Env, index: usize) -> bool {
    !matches!(rt.arg(index, &mut []), Err(FillError::NotPresent))
}

// Puts a word into a name, and answers how many octets of it the word is. One that isn't there, or is longer than the name, is
// none: the system's reason says which.
pub fn word(rt: &impl Env, index: usize, name: &mut [u8]) -> io::Result<usize>
    ensures { IfOk result (λ n. n ≤ length name.new) }
{
    match rt.arg(index, name) {
        Ok(length) => Ok(length),
        Err(FillError::TooLong) => Err(reasons::too_long()),
        Err(FillError::NotPresent) => Err(reasons::not_there()),
    }
}

// How many words there are.
pub fn count(rt: &impl Env) -> usize {
    for i in 1..usize::MAX {
        if !given(rt, i) {
            return i - 1;
        }
    }
    usize::MAX
}
