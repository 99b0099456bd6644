//! Runs the vectors: commands over stores in memory, each with the answer that is wanted.
//!
//! The answers were computed by a program of its own, so they test the definitions too. Each case
//! that differs is printed, and at the end of a file how many of its cases agree. Then the streams and the trees of
//! their projects are compared, configuration by configuration.
#![tactic(auto)]

#[cfg(test)]
mod admit_rows;
mod answer;
mod difference;
#[cfg(test)]
mod rename_rows;
#[cfg(test)]
mod rows;
#[cfg(test)]
mod run_rows;
mod streams;
mod suites;
#[cfg(test)]
mod tokens_rows;

use crate::suites::{SUITES, run};

fn main(rt: HostRuntime) -> anyhow::Result<()> {
    for suite in &SUITES {
        run(&rt, suite)?;
    }
    for file in &["tokens.tsv", "macros.tsv", "run.tsv"] {
        streams::run(&rt, file)?;
    }
    Ok(())
}
