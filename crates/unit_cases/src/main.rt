//! Judges the units of small programs, each with what is wanted of it.
//!
//! What is wanted follows ISO/IEC 9899:2011 and the choices that `docs/` names. A case is a line: what
//! becomes of its units, a colon, and their texts with `@@` between them. An `@` stands before the
//! token of a refusal. Each case that differs is printed, and at the end how many agree.
#![tactic(auto)]

mod cases;
mod judging;
mod outcomes;

use crate::cases::Case;
use anyhow::Context;
use std::alloc::Global;
use std::fs;
use std::rt::Files;

const FILE: &str = "cases.txt";

/// Judges the case of a line, and prints where it differs. Whether it agrees.
fn agrees<R: Print + AllocGlobal>(rt: &R, line: &str) -> anyhow::Result<bool> {
    let alloc: Global = rt.alloc();
    let case = Case::read(alloc, line)?;
    let got = judging::outcome(alloc, &case.texts)?.shown(alloc)?;
    let agrees = got.as_str() == case.wanted.as_str();
    if !agrees {
        println!(rt; "{line}: {got}")?;
    }
    Ok(agrees)
}

/// Whether a line holds a case: empty lines and those that begin with `#` don't.
fn is_case(line: &str) -> bool {
    !line.is_empty() && !line.starts_with('#')
}

fn run<R: Files + Print + AllocGlobal>(rt: &R) -> anyhow::Result<()> {
    let text = fs::read_to_string(rt, FILE).context(FILE)?;
    let mut cases: u32 = 0;
    let mut agreeing: u32 = 0;
    for line in text.lines().filter(|line| is_case(line)) {
        if agrees(rt, line)? {
            agreeing = agreeing.saturating_add(1);
        }
        cases = cases.saturating_add(1);
    }
    println!(rt; "{agreeing} of {cases} agree")?;
    Ok(())
}

fn main(rt: HostRuntime) -> anyhow::Result<()> {
    run(&rt)
}
