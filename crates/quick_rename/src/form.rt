//! The reading of a file by the quick form's grammar.
ghost use Rattle.std.specs.Prelude.{◌≡◌, [], Some, None, IfOk};
ghost use Rattle.quick_parser.specs.Steps.{after};
ghost use Rattle.quick_rename.specs.Readings.{IsReading};
ghost use Rattle.quick_rename.specs.Visits.{spelled};

use crate::fault::fault_len;
use crate::visit::{Visitor, visit};
use quick_lexer::Symbol;
use quick_parser::{
    Parser, complete_is_written, one_step_more, refusals_end, refused_is_unwritten,
    states_complete, tests_are_kept,
};
use std::alloc::{AllocError, Global};

impl Visitor for Parser {
    ghost took = { λ parser symbols. after (spelled symbols) ≡ Some parser };

    ghost refuses = { λ symbols. after (spelled symbols) ≡ None };

    ghost words = { λ _. [] };

    fn take(&mut self, symbol: &Symbol, _end: usize) -> Result<bool, AllocError> {
        one_step_more();
        Parser::take(self, symbol)
    }
}

/// What became of the reading of a file.
#[derive(Drop)]
pub(crate) enum Reading {
    /// The symbols are all of a file of the form.
    Whole(Parser),
    /// They are not; the offset is that of the first byte that can't continue the form, or the
    /// file's length.
    Fault { offset: usize },
}

/// Reads a file by the grammar, and by the limits on blocks and tested names.
pub(crate) fn read(alloc: Global, bytes: &[u8]) -> Result<Reading, AllocError>
    ensures { IfOk result (IsReading bytes.now) }
{
    refusals_end();
    complete_is_written();
    states_complete();
    refused_is_unwritten();
    one_step_more();
    tests_are_kept();
    let mut parser = Parser::new(alloc);
    match visit(&mut parser, bytes)? {
        Some(stop) => Ok(Reading::Fault {
            offset: stop.at + fault_len(&parser, stop.text, stop.is_directive),
        }),
        None => {
            if parser.is_complete() {
                Ok(Reading::Whole(parser))
            } else {
                Ok(Reading::Fault {
                    offset: bytes.len(),
                })
            }
        }
    }
}
