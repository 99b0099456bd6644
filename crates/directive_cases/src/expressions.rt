//! Expressions whose tokens stand under conditions.
use crate::lines::{token, tokens};
use cond_expressions::evaluate_all;
use cond_formula::{Config, Formula, NoMemory, PlainOracle};
use cond_tokens::CondToken;
use pp_lines::Value;
use std::alloc::{AllocError, Global};

fn value_at(values: &[(Formula, Value)], c: Config) -> Option<Value> {
    for (when, value) in values {
        if when.value(c) {
            return Some(*value);
        }
    }
    None
}

fn shown(alloc: Global, value: Option<Value>) -> Result<String, AllocError> {
    match value {
        Some(Value::Number(number)) => format!(in alloc; " {number}"),
        Some(Value::Refused) => format!(in alloc; " refused"),
        None => format!(in alloc; " nothing"),
    }
}

fn show_expression<R: Print + AllocGlobal>(rt: &R, line: &str) -> anyhow::Result<()> {
    let alloc: Global = rt.alloc();
    let tokens = tokens(alloc, line)?;
    let values = evaluate_all(alloc, &tokens, &mut PlainOracle)?;
    let mut text = String::new(alloc);
    for bits in 0u8..4 {
        let here = value_at(&values, Config { bits: bits as u128 });
        text.push_str(&shown(alloc, here)?)?;
    }
    println!(rt; "{line}:{text}")?;
    Ok(())
}

const EXPRESSIONS: [&str; 8] = [
    "1@A 2@-A == 1",
    "1@A 0@-A && 1@B 0@-B",
    "0@A 1@-A || 1 / 0@B 5@-B",
    "1@A 0@-A && 1 / 0",
    "1@A +@A 2",
    "( 1@A 2@-A ) * 3 +@B 4@B",
    "1@A ? 2 : 3@-B 3@B",
    "x@A 7@-A",
];

pub(crate) fn show_expressions<R: Print + AllocGlobal>(rt: &R) -> anyhow::Result<()> {
    for line in &EXPRESSIONS {
        show_expression(rt, line)?;
    }
    Ok(())
}

/// `defined(F0) && defined(F1) && ..` for so many features, its tests replaced.
fn chain(alloc: Global, features: u8) -> Result<Vec<CondToken>, NoMemory> {
    let mut tokens = Vec::new(alloc);
    for feature in 0..features {
        if feature > 0 {
            tokens.push(token(alloc, "&&", Formula::True)?)?;
        }
        let off = Formula::not(alloc, Formula::Var(feature))?;
        tokens.push(token(alloc, "1", Formula::Var(feature))?)?;
        tokens.push(token(alloc, "0", off)?)?;
    }
    Ok(tokens)
}

pub(crate) fn show_chain<R: Print + AllocGlobal>(rt: &R) -> anyhow::Result<()> {
    let alloc: Global = rt.alloc();
    let tokens = chain(alloc, 64)?;
    let values = evaluate_all(alloc, &tokens, &mut PlainOracle)?;
    let all = value_at(
        &values,
        Config {
            bits: 18_446_744_073_709_551_615,
        },
    );
    let most = value_at(
        &values,
        Config {
            bits: 18_446_744_073_709_551_583,
        },
    );
    let mut count: u64 = 0;
    for (when, _) in &values {
        count = count.saturating_add(when.size());
    }
    let is_small = count < 64 * 64 * 4;
    let all = shown(alloc, all)?;
    let most = shown(alloc, most)?;
    println!(rt;
        "a chain of 64:{all}{most}, {} alternatives, small: {is_small}",
        values.len()
    )?;
    Ok(())
}
