use crate::answer::Answer;
use crate::difference::first_difference;
use anyhow::{Context, Result};
use std::alloc::Global;
use std::fs;
use std::rt::Files;
use vector_cases::{Case, Output};

/// The vectors of one command.
#[derive(Clone, Copy, Debug)]
pub(crate) struct Suite {
    pub(crate) command: &'static str,
    /// The name of their file.
    pub(crate) file: &'static str,
    pub(crate) output: Output,
}

/// All vectors.
pub(crate) const SUITES: [Suite; 8] = [
    Suite {
        command: "quick",
        file: "quick.tsv",
        output: Output::Written,
    },
    Suite {
        command: "admit",
        file: "admit.tsv",
        output: Output::Nothing,
    },
    Suite {
        command: "tokens",
        file: "tokens.tsv",
        output: Output::Nothing,
    },
    Suite {
        command: "run",
        file: "run.tsv",
        output: Output::Nothing,
    },
    Suite {
        command: "check",
        file: "check.tsv",
        output: Output::Files,
    },
    Suite {
        command: "worked rows of check",
        file: "check_rows.tsv",
        output: Output::Files,
    },
    Suite {
        command: "rename",
        file: "rename.tsv",
        output: Output::Files,
    },
    Suite {
        command: "worked rows of rename",
        file: "rename_rows.tsv",
        output: Output::Files,
    },
];

/// How many cases were run, and how many of them agree.
#[derive(Clone, Copy, Debug)]
struct Tally {
    cases: u32,
    agreeing: u32,
}

impl Tally {
    /// Counts one more case.
    fn count(&mut self, agrees: bool) {
        self.cases = self.cases.saturating_add(1);
        if agrees {
            self.agreeing = self.agreeing.saturating_add(1);
        }
    }
}

/// Runs the case of a line, and prints where its answer differs. Whether it agrees.
fn agrees<R: Print + AllocGlobal>(
    rt: &R,
    output: Output,
    line: &str,
    place: &Place,
) -> Result<bool> {
    let alloc: Global = rt.alloc();
    let case = Case::read(alloc, output, line)?;
    let answer = Answer::of(alloc, &case)?;
    match first_difference(alloc, &case, &answer)? {
        None => Ok(true),
        Some(difference) => {
            let file = place.file;
            let number = place.line;
            let label = case.label.as_str();
            println!(rt; "{file}:{number}: {label}: {difference}")?;
            Ok(false)
        }
    }
}

/// A line of a file, counted from 1.
#[derive(Clone, Copy, Debug)]
struct Place {
    file: &'static str,
    line: u32,
}

/// Runs the cases of a command, and prints how many agree.
pub(crate) fn run<R: Files + Print + AllocGlobal>(rt: &R, suite: &Suite) -> Result<()> {
    let text = fs::read_to_string(rt, suite.file).context(suite.file)?;
    let mut tally = Tally {
        cases: 0,
        agreeing: 0,
    };
    for line in text.lines() {
        let place = Place {
            file: suite.file,
            line: tally.cases.saturating_add(1),
        };
        let agrees = agrees(rt, suite.output, line, &place).context(format_args!(
            "line {} of {}",
            place.line, place.file
        ))?;
        tally.count(agrees);
    }
    let command = suite.command;
    let cases = tally.cases;
    let agreeing = tally.agreeing;
    println!(rt; "{command}: {agreeing} of {cases} agree")?;
    Ok(())
}
