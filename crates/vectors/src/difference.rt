use crate::answer::Answer;
use std::alloc::{AllocError, Global};
use std::fmt;
use vector_cases::Case;

/// Where an answer differs from the one that is wanted.
#[derive(Debug, Drop)]
pub(crate) enum Difference {
    Status {
        wanted: u8,
        got: u8,
    },
    Printed {
        wanted: String,
        got: String,
    },
    /// What stands under a name.
    File {
        name: String,
        wanted: Option<String>,
        got: Option<String>,
    },
}

impl fmt::Display for Difference {
    fn fmt<W: fmt::Write>(&self, f: &mut fmt::Formatter<W>) -> fmt::Result {
        match self {
            Difference::Status { wanted, got } => write!(f, "wanted status {wanted}, got {got}"),
            Difference::Printed { wanted, got } => {
                write!(f, "wanted the text {wanted:?}, got {got:?}")
            }
            Difference::File { name, wanted, got } => {
                write!(f, "wanted {wanted:?} in {name}, got {got:?}")
            }
        }
    }
}

/// The bytes as text that can be shown.
fn shown(alloc: Global, bytes: Option<&[u8]>) -> Result<Option<String>, AllocError> {
    match bytes {
        Some(bytes) => Ok(Some(String::from_utf8_lossy(alloc, bytes)?)),
        None => Ok(None),
    }
}

/// How the store differs under a name.
fn file_difference(
    alloc: Global,
    case: &Case,
    answer: &Answer,
    name: &str,
) -> Result<Option<Difference>, AllocError> {
    let wanted = case.wanted_at(name);
    let got = answer.store.get(name);
    if wanted == got {
        return Ok(None);
    }
    Ok(Some(Difference::File {
        name: String::from_str(alloc, name)?,
        wanted: shown(alloc, wanted)?,
        got: shown(alloc, got)?,
    }))
}

/// How the store differs under the names that it had, under those that are written, and then under the one where `quick` may write.
fn store_difference(
    alloc: Global,
    case: &Case,
    answer: &Answer,
) -> Result<Option<Difference>, AllocError> {
    for file in case.files.list.iter().chain(case.written.list.iter()) {
        let difference = file_difference(alloc, case, answer, file.name.as_str())?;
        if difference.is_some() {
            return Ok(difference);
        }
    }
    match &case.target {
        Some(target) => file_difference(alloc, case, answer, target.as_str()),
        None => Ok(None),
    }
}

/// The first difference between the answer and the one that is wanted: in the status, in the
/// printed text, and then in the files.
pub(crate) fn first_difference(
    alloc: Global,
    case: &Case,
    answer: &Answer,
) -> Result<Option<Difference>, AllocError> {
    if answer.status != case.status {
        let wanted = case.status;
        let got = answer.status;
        return Ok(Some(Difference::Status { wanted, got }));
    }
    if answer.out.bytes() != case.printed.as_slice() {
        let wanted = String::from_utf8_lossy(alloc, case.printed.as_slice())?;
        let got = String::from_utf8_lossy(alloc, answer.out.bytes())?;
        return Ok(Some(Difference::Printed { wanted, got }));
    }
    store_difference(alloc, case, answer)
}
