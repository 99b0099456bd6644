//! Trees whose tokens tell their numbers.

ghost use Rattle.std.specs.Prelude.{IfOk};
ghost use Rattle.changed_forests.specs.Numbered as spec;
ghost use Rattle.changed_forests.specs.Numbered.{IsNumbered};

use crate::changing::{TokenChange, changed};
use c_text::{Origin, Token};
use choice_trees::Forest;
use cond_formula::NoMemory;
use std::alloc::Global;
use text_edits::Span;

/// The number of a token takes the place of its site.
#[derive(Clone, Copy)]
struct Numbering;

impl TokenChange for Numbering {
    ghost change = { λ self. spec.numbering };

    fn token(&self, alloc: Global, number: u32, token: &Token) -> Result<Token, NoMemory> {
        let mut numbered = token.try_clone(alloc)?;
        numbered.origin = Origin {
            site: Span {
                start: number,
                end: number,
            },
            site_file: 0,
            ..numbered.origin
        };
        Ok(numbered)
    }
}

/// The same trees, in which the site of each token is its number in the unit's stream. So two copies of one token of a file are told apart.
pub fn numbered(alloc: Global, forest: &Forest) -> Result<Forest, NoMemory>
    ensures { IfOk result (IsNumbered forest.now) }
{
    changed(alloc, &Numbering, forest)
}
