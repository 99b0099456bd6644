use std::io::ErrorKind;
use std::rt::Env;
use std::{env, io};

/// Why the words of the command can't be had.
#[derive(Clone, Copy, Debug, PartialEq, Eq)]
pub(crate) enum NoWords {
    /// There was no memory for them.
    Memory,
    /// The system doesn't give them, or one isn't text.
    Failed,
}

/// The words after the program's name.
fn read_words<R: Env + AllocGlobal>(rt: &R) -> io::Result<Vec<String>> {
    let words = env::args(rt)?.skip(1).collect(rt.alloc())?;
    Ok(words)
}

/// The words after the program's name, or why there are none.
pub(crate) fn words<R: Env + AllocGlobal>(rt: &R) -> Result<Vec<String>, NoWords> {
    match read_words(rt) {
        Ok(words) => Ok(words),
        Err(error) if error.kind() == ErrorKind::OutOfMemory => Err(NoWords::Memory),
        Err(_) => Err(NoWords::Failed),
    }
}
