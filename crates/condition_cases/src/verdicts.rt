//! Questions about the configurations of three features that a model admits.
use cond_formula::{Formula, May, Oracle, PlainOracle};
use feature_model::{Model, parse_constraint};
use std::alloc::{AllocError, Global};
use verdict_query::ModelOracle;

const FEATURES: [&str; 3] = ["A", "B", "C"];

const QUESTIONS: [&str; 5] = ["A || !A", "B", "!A", "B && !C", "!C"];

fn strings(alloc: Global, texts: &[&str]) -> Result<Vec<String>, AllocError> {
    let mut strings = Vec::new(alloc);
    for text in texts {
        strings.push(String::from_str(alloc, text)?)?;
    }
    Ok(strings)
}

fn shown(may: May) -> &'static str {
    match may {
        May::No => "no",
        May::Maybe => "maybe",
    }
}

fn show_question<R: Print + AllocGlobal>(
    rt: &R,
    model: &Model,
    text: &str,
    question: &Formula,
) -> anyhow::Result<()> {
    let alloc: Global = rt.alloc();
    let by_model = shown(ModelOracle::new(alloc, model).may(question));
    let plainly = shown(PlainOracle.may(question));
    println!(rt; "{text}: {by_model}, {plainly}")?;
    Ok(())
}

pub(crate) fn show_verdicts<R: Print + AllocGlobal>(rt: &R) -> anyhow::Result<()> {
    let alloc: Global = rt.alloc();
    let features = strings(alloc, &FEATURES)?;
    // (either of the first two is on, and the second needs the third)
    let constraints = [
        String::from_str(alloc, "A || B")?,
        String::from_str(alloc, "B -> C")?,
    ];
    let model = Model::parse(alloc, &features, &constraints)?;
    for text in &QUESTIONS {
        let question = parse_constraint(alloc, &features, text)?;
        show_question(rt, &model, text, &question)?;
    }
    Ok(())
}
