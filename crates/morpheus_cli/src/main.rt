//! The program `morpheus`: a command over the current folder and standard output.
#![tactic(auto)]

ghost use Rattle.std.specs.Prelude.{[], ◌∷◌, Contains};

mod folder;
mod report;
mod words;

use crate::folder::FolderStore;
use crate::report::StdoutSink;
use crate::words::{NoWords, words};
use morpheus_top::morpheus;
use std::process::ExitCode;
use std::rt::{Env, Files};

/// The status where standard output failed.
const SINK_FAULT: u8 = 6;

/// The status where memory ended before the command was known.
const WANT_OF_MEMORY: u8 = 7;

/// The status where the system doesn't give the words of the command.
const NO_WORDS: u8 = 13;

/// Reports that memory ended, and answers the status for it.
fn without_words(rt: &impl Print) -> u8
    ensures { Contains (WANT_OF_MEMORY ∷ SINK_FAULT ∷ []) result }
{
    match rt.println("want of memory") {
        Ok(()) => WANT_OF_MEMORY,
        Err(_) => SINK_FAULT,
    }
}

/// Carries out the command that the program was called with, and answers its exit status.
fn run<R: Files + Env + Print + AllocGlobal>(rt: &R) -> u8 {
    match words(rt) {
        Ok(words) => {
            let mut store = FolderStore::new(rt);
            let mut out = StdoutSink::new(rt);
            morpheus(rt.alloc(), &words, &mut store, &mut out)
        }
        Err(NoWords::Memory) => without_words(rt),
        Err(NoWords::Failed) => NO_WORDS,
    }
}

fn main(rt: HostRuntime) -> ExitCode {
    ExitCode::from(run(&rt))
}
