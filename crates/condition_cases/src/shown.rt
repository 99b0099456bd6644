//! What is seen in each of the four configurations, as text.
use crate::numbers::Number;
use cond_formula::Config;
use conditional::{CondList, CondValue, Guarded, Outcomes};
use std::alloc::{AllocError, Global};

const CONFIGURATIONS: [Config; 4] = [
    Config { bits: 0 },
    Config { bits: 1 },
    Config { bits: 2 },
    Config { bits: 3 },
];

fn seen(alloc: Global, entries: &[Guarded<Number>], c: Config) -> Result<String, AllocError> {
    let mut text = String::new(alloc);
    for entry in entries {
        if entry.when.value(c) {
            text.push_str(&format!(in alloc; " {}", entry.what.0)?)?;
        }
    }
    Ok(text)
}

/// The values of the entries that hold, for each configuration.
pub(crate) fn entries(alloc: Global, entries: &[Guarded<Number>]) -> Result<String, AllocError> {
    let mut text = String::new(alloc);
    for c in &CONFIGURATIONS {
        let values = seen(alloc, entries, *c)?;
        text.push_str(&format!(in alloc; " [{values} ]")?)?;
    }
    Ok(text)
}

pub(crate) fn value(alloc: Global, value: &CondValue<Number>) -> Result<String, AllocError> {
    entries(alloc, &value.alternatives)
}

pub(crate) fn list(alloc: Global, list: &CondList<Number>) -> Result<String, AllocError> {
    entries(alloc, &list.entries)
}

/// In each configuration the first refusal, or else the values.
pub(crate) fn outcomes(
    alloc: Global,
    all: &Outcomes<Number, Number>,
) -> Result<String, AllocError> {
    let mut text = String::new(alloc);
    for c in &CONFIGURATIONS {
        match first_refused(&all.refused, *c) {
            Some(why) => text.push_str(&format!(in alloc; " [ refused {} ]", why.0)?)?,
            None => {
                let values = seen(alloc, &all.fine.alternatives, *c)?;
                text.push_str(&format!(in alloc; " [{values} ]")?)?;
            }
        }
    }
    Ok(text)
}

fn first_refused(refused: &CondList<Number>, c: Config) -> Option<Number> {
    for entry in &refused.entries {
        if entry.when.value(c) {
            return Some(entry.what);
        }
    }
    None
}
