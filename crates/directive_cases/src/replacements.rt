//! What replaces lists of tokens, where the macros' lines stand under conditions: `N` is 1 with the first feature and 2 without it,
//! and `f`, with the parameter `x`, is `x * N` with the second.
use crate::lines::{condition, tokens};
use c_text::{Macro, Token};
use cond_formula::{Config, NoMemory, PlainOracle};
use cond_macros::{CondReplacement, replaced};
use cond_tokens::CondToken;
use conditional::Guarded;
use macro_table::{MacroTable, Macros};
use std::alloc::{AllocError, Global};

const LISTS: [&str; 4] = ["N + N", "f ( N ) N", "f", "f ( N"];

fn body(alloc: Global, line: &str) -> Result<Vec<Token>, NoMemory> {
    let mut body = Vec::new(alloc);
    for entry in tokens(alloc, line)? {
        let CondToken { token, when: _ } = entry;
        body.push(token)?;
    }
    Ok(body)
}

fn object(alloc: Global, name: &str, line: &str) -> Result<Macro, NoMemory> {
    Ok(Macro {
        name: Vec::from_slice(alloc, name.as_bytes())?,
        params: None,
        body: body(alloc, line)?,
    })
}

fn function(alloc: Global, name: &str, param: &str, line: &str) -> Result<Macro, NoMemory> {
    let mut params = Vec::new(alloc);
    params.push(Vec::from_slice(alloc, param.as_bytes())?)?;
    Ok(Macro {
        name: Vec::from_slice(alloc, name.as_bytes())?,
        params: Some(params),
        body: body(alloc, line)?,
    })
}

fn defined(alloc: Global) -> Result<MacroTable, NoMemory> {
    let mut table = MacroTable::new();
    let first = object(alloc, "N", "1")?;
    table.define(alloc, &condition(alloc, "A")?, &first)?;
    let second = object(alloc, "N", "2")?;
    table.define(alloc, &condition(alloc, "-A")?, &second)?;
    let third = function(alloc, "f", "x", "x * N")?;
    table.define(alloc, &condition(alloc, "B")?, &third)?;
    Ok(table)
}

fn replacement(alloc: Global, table: &MacroTable, line: &str) -> Result<CondReplacement, NoMemory> {
    let features: Vec<String> = Vec::new(alloc);
    let macros = Macros {
        features: features.as_slice(),
        table,
    };
    let tokens = tokens(alloc, line)?;
    let mut list = Vec::new(alloc);
    for entry in &tokens {
        list.push(Guarded {
            when: entry.when.try_clone(alloc)?,
            what: &entry.token,
        })?;
    }
    let everywhere = condition(alloc, "")?;
    replaced(
        alloc,
        &macros,
        &mut PlainOracle,
        &everywhere,
        list.as_slice(),
    )
}

fn shown(alloc: Global, all: &CondReplacement, c: Config) -> Result<String, AllocError> {
    if all.refused.value(c) {
        return String::from_str(alloc, "refused");
    }
    let mut text = Vec::new(alloc);
    for entry in &all.tokens.entries {
        if entry.when.value(c) {
            text.push(b' ')?;
            text.extend_from_slice(entry.what.text.as_slice())?;
        }
    }
    String::from_utf8_lossy(alloc, text.as_slice())
}

fn show_list<R: Print + AllocGlobal>(rt: &R, table: &MacroTable, line: &str) -> anyhow::Result<()> {
    let alloc: Global = rt.alloc();
    let all = replacement(alloc, table, line)?;
    println!(rt; "{line}:")?;
    for bits in 0u8..4 {
        let text = shown(alloc, &all, Config { bits: bits as u128 })?;
        println!(rt; "  [{text} ]")?;
    }
    Ok(())
}

pub(crate) fn show_replacements<R: Print + AllocGlobal>(rt: &R) -> anyhow::Result<()> {
    let alloc: Global = rt.alloc();
    let table = defined(alloc)?;
    for line in &LISTS {
        show_list(rt, &table, line)?;
    }
    Ok(())
}
