use crate::outcomes::Place;
use std::alloc::{AllocError, AllocFailed, Global};
use thiserror::Error;

/// Why a line holds no case.
#[derive(Clone, Copy, Debug, PartialEq, Eq, Error)]
pub(crate) enum CaseError {
    #[error("no colon stands behind what is wanted")]
    NoColon,
    #[error("want of memory")]
    Memory,
}

impl From<AllocError> for CaseError {
    fn from(_error: AllocError) -> CaseError {
        CaseError::Memory
    }
}

impl<T: Drop> From<AllocFailed<T>> for CaseError {
    fn from(_error: AllocFailed<T>) -> CaseError {
        CaseError::Memory
    }
}

/// The units of a program, and what is wanted of them.
#[derive(Debug, Drop)]
pub(crate) struct Case {
    /// The texts of the units, without their mark.
    pub(crate) texts: Vec<String>,
    /// As an outcome is shown.
    pub(crate) wanted: String,
}

/// A text, and where its mark stood.
#[derive(Debug, Drop)]
struct Marked {
    text: String,
    at: Option<usize>,
}

fn without_mark(alloc: Global, text: &str) -> Result<Marked, AllocError> {
    match text.split_once('@') {
        Some((front, rest)) => Ok(Marked {
            at: Some(front.len()),
            text: format!(in alloc; "{front}{rest}")?,
        }),
        None => Ok(Marked {
            at: None,
            text: text.to_string(alloc)?,
        }),
    }
}

impl Case {
    /// The case that a line holds.
    pub(crate) fn read(alloc: Global, line: &str) -> Result<Case, CaseError> {
        let (wanted, units) = line.split_once(": ").ok_or(CaseError::NoColon)?;
        let mut case = Case {
            texts: Vec::new(alloc),
            wanted: wanted.to_string(alloc)?,
        };
        for unit in units.split("@@") {
            case.add(alloc, wanted, unit)?;
        }
        Ok(case)
    }

    /// Takes one more unit, whose mark says where the program is refused.
    fn add(&mut self, alloc: Global, wanted: &str, unit: &str) -> Result<(), CaseError> {
        let marked = without_mark(alloc, unit)?;
        if let Some(offset) = marked.at {
            let place = Place {
                unit: self.texts.len(),
                offset,
            };
            self.wanted = format!(in alloc; "{wanted} at {place}")?;
        }
        self.texts.push(marked.text)?;
        Ok(())
    }
}
