//! The fields of a line.
ghost use Rattle.std.specs.Prelude.{◌≡◌, [], ◌∷◌, IfOk, OnOk};
ghost use Rattle.std.specs.String.{string_bytes};
ghost use Rattle.vector_cases.specs.Fields.{parted, fields_left, Reads, number, bytes};

use crate::escapes::unescaped;
use decimal_numbers::number_in;
use std::alloc::{AllocError, AllocFailed, Global};
use thiserror::Error;

/// Why a line holds no case.
#[derive(Clone, Copy, Debug, PartialEq, Eq, Error)]
pub enum LineError {
    #[error("a field is missing")]
    MissingField,
    #[error("a field after the label")]
    MoreFields,
    #[error("a field that should be a number isn't one")]
    BadNumber,
    #[error("a backslash without a letter or digits of the form")]
    BadEscape,
    #[error("a name or a word isn't text")]
    NotText,
    #[error("want of memory")]
    Memory,
}

impl From<AllocError> for LineError {
    fn from(_error: AllocError) -> LineError {
        LineError::Memory
    }
}

impl<T: Drop> From<AllocFailed<T>> for LineError {
    fn from(_error: AllocFailed<T>) -> LineError {
        LineError::Memory
    }
}

/// The fields of a line that are still to be read.
#[derive(Clone, Copy, Debug)]
pub(crate) struct Fields<'a> {
    /// What follows the tab that was read last, until the last field is read.
    rest: Option<&'a str>,
}

impl<'a> Fields<'a> {
    pub(crate) fn new(line: &'a str) -> Fields<'a>
        ensures { fields_left result ≡ parted line.now }
    {
        Fields { rest: Some(line) }
    }

    /// The next field as it stands in the line.
    fn raw(&mut self) -> Result<&'a str, LineError>
        ensures { IfOk result (λ field. fields_left self.old ≡ field.now ∷ fields_left self.new) }
    {
        let Some(rest) = self.rest else {
            return Err(LineError::MissingField);
        };
        match rest.split_once('\t') {
            Some((field, rest)) => {
                self.rest = Some(rest);
                Ok(field)
            }
            None => {
                self.rest = None;
                Ok(rest)
            }
        }
    }

    /// The next field as the number that it spells.
    pub(crate) fn number(&mut self, alloc: Global) -> Result<u8, LineError>
        ensures { IfOk result (λ n. Reads self.old self.new (number n ∷ [])) }
    {
        let field = self.raw()?;
        match number_in(alloc, field, u8::MAX as u32)? {
            Some(number) => Ok(number as u8),
            None => Err(LineError::BadNumber),
        }
    }

    /// The next field as the bytes that it stands for.
    pub(crate) fn bytes(&mut self, alloc: Global) -> Result<Vec<u8>, LineError>
        ensures { IfOk result (λ said. Reads self.old self.new (bytes said.items ∷ [])) }
    {
        let field = self.raw()?;
        let said = unescaped(alloc, field)?;
        Ok(said)
    }

    /// The next field as the text that it stands for.
    pub(crate) fn text(&mut self, alloc: Global) -> Result<String, LineError>
        ensures { IfOk result (λ said. Reads self.old self.new (bytes (string_bytes said) ∷ [])) }
    {
        let bytes = self.bytes(alloc)?;
        match String::from_utf8(bytes) {
            Ok(said) => Ok(said),
            Err(_) => Err(LineError::NotText),
        }
    }

    /// An error where a field is left.
    pub(crate) fn end(&self) -> Result<(), LineError>
        ensures { OnOk result (fields_left self.now ≡ []) }
    {
        match self.rest {
            None => Ok(()),
            Some(_) => Err(LineError::MoreFields),
        }
    }
}
