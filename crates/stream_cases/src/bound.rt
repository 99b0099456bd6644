//! What the identifiers of a project's units are bound to, and which names of file scope expressions use.

use anyhow::Result;
use choice_parser::parse_all;
use choice_trees::Forest;
use cond_bindings::{CondBindings, Identifier, UnitBindings};
use cond_formula::{Config, PlainOracle};
use cond_pairings::{CondPairing, pairings};
use cond_scopes::scopes;
use cond_tokens::CondStream;
use project_store::Project;
use std::alloc::{AllocError, Global};

/// The trees of the units in all configurations.
fn forests_of(alloc: Global, streams: &[CondStream]) -> Result<Vec<Forest>, AllocError> {
    let mut forests = Vec::new(alloc);
    for stream in streams {
        if stream.tokens.len() >= u32::MAX as usize {
            return Err(AllocError);
        }
        forests.push(parse_all(alloc, stream, &mut PlainOracle)?.forest)?;
    }
    Ok(forests)
}

/// The number of the token that declares an identifier in the configuration, if it is declared there.
fn declared_by(pairs: &[CondPairing], identifier: &Identifier, c: Config) -> Option<u32> {
    for pair in pairs {
        if pair.identifier == identifier.number && pair.when.value(c) {
            return Some(pair.declared_by);
        }
    }
    None
}

/// Prints an identifier with the numbers of its token and of the token that declares it.
fn show_identifier<R: Print + AllocGlobal>(
    rt: &R,
    pairs: &[CondPairing],
    identifier: &Identifier,
    stream: &CondStream,
    c: Config,
) -> Result<()> {
    let alloc: Global = rt.alloc();
    let number = identifier.number;
    if let Some(entry) = stream.tokens.get(number as usize) {
        let text = String::from_utf8_lossy(alloc, &entry.token.text)?;
        print!(rt; " {text}@{number}")?;
    }
    match declared_by(pairs, identifier, c) {
        Some(by) => print!(rt; ":{by}")?,
        None => print!(rt; ":undeclared")?,
    }
    Ok(())
}

/// Prints the identifiers of a unit that a configuration sees.
fn show_unit<R: Print + AllocGlobal>(
    rt: &R,
    unit: &UnitBindings,
    stream: &CondStream,
    c: Config,
) -> Result<()> {
    let alloc: Global = rt.alloc();
    let pairs = pairings(alloc, unit)?;
    for identifier in &unit.identifiers {
        if identifier.when.value(c) {
            show_identifier(rt, &pairs, identifier, stream, c)?;
        }
    }
    Ok(())
}

/// Prints the names of file scope that a unit's expressions use in a configuration, in the order of the text.
fn show_unit_uses<R: Print + AllocGlobal>(rt: &R, unit: &UnitBindings, c: Config) -> Result<()> {
    let alloc: Global = rt.alloc();
    for used in &unit.uses {
        if used.when.value(c) {
            let name = String::from_utf8_lossy(alloc, &used.name)?;
            print!(rt; " {name}")?;
        }
    }
    Ok(())
}

/// Prints the names of file scope that expressions use in each configuration of so many features.
fn show_uses<R: Print + AllocGlobal>(
    rt: &R,
    project: &Project,
    bound: &CondBindings,
    features: usize,
) -> Result<()> {
    println!(rt; "names of file scope that {} uses:", project.name)?;
    for bits in 0..1u128 << features.min(7) {
        print!(rt; "  {bits}:")?;
        for unit in &bound.units {
            show_unit_uses(rt, unit, Config { bits })?;
        }
        println!(rt; "")?;
    }
    Ok(())
}

/// Prints what each configuration of so many features sees.
pub(crate) fn show_bindings<R: Print + AllocGlobal>(
    rt: &R,
    project: &Project,
    streams: &[CondStream],
    features: usize,
) -> Result<()> {
    let alloc: Global = rt.alloc();
    let forests = forests_of(alloc, streams)?;
    if forests.len() != project.units.len() {
        return Ok(());
    }
    let bound = scopes(alloc, &project.units, &forests, &mut PlainOracle)?;
    println!(rt; "bindings of {}:", project.name)?;
    for bits in 0..1u128 << features.min(7) {
        let c = Config { bits };
        print!(rt; "  {bits}:")?;
        for (unit, stream) in bound.units.iter().zip(streams) {
            show_unit(rt, unit, stream, c)?;
        }
        if bound.refused.value(c) {
            print!(rt; " refused")?;
        }
        println!(rt; "")?;
    }
    show_uses(rt, project, &bound, features)?;
    Ok(())
}
