//! Forests beside the trees of their configurations.

ghost use Rattle.std.specs.Prelude.{◌≡◌, ◌<◌, map, length, IfOk};
ghost use Rattle.cond_formula.specs.Features.{has};
ghost use Rattle.c_text.specs.Token.{plain_token};
ghost use Rattle.c_tree.specs.Units.{IsTreeOf};
ghost use Rattle.tree_comparisons.specs.Comparisons.{agrees};
ghost use Rattle.choice_trees.specs.ChoiceTrees.{forest_at};

use crate::same::is_same_tree;
use c_text::Token;
use choice_parser::Parsed;
use choice_trees::project;
use cond_formula::{Config, NoMemory};
use plain_parse::{ParseError, parse};
use std::alloc::{AllocError, Global};
use std::fmt;

/// What the forest of a unit and the tokens that are there say of a configuration.
#[derive(Clone, Copy, Debug, PartialEq, Eq)]
pub enum Comparison {
    SameTree,
    BothRefuse,
    OtherTree,
    WronglyRefused,
    WronglyRead,
}

impl Comparison {
    /// Whether both say the same.
    pub fn is_same(self) -> bool
        ensures { result ≡ agrees self }
    {
        match self {
            Comparison::SameTree => true,
            Comparison::BothRefuse => true,
            _ => false,
        }
    }
}

impl fmt::Display for Comparison {
    fn fmt<W: fmt::Write>(&self, f: &mut fmt::Formatter<W>) -> fmt::Result {
        let text = match self {
            Comparison::SameTree => "tree",
            Comparison::BothRefuse => "refused",
            Comparison::OtherTree => "OTHER TREE",
            Comparison::WronglyRefused => "WRONGLY REFUSED",
            Comparison::WronglyRead => "WRONGLY READ",
        };
        f.write_str(text)
    }
}

/// Compares what the trees of all configurations say of one with the tree of its tokens, or with their refusal.
pub fn compared(
    alloc: Global,
    tokens: &[Token],
    all: &Parsed,
    c: Config,
) -> Result<Comparison, NoMemory>
    requires { length tokens.now < 4294967295 }
    ensures { IfOk result (λ r. r ≡ Comparison.SameTree → IsTreeOf (map plain_token tokens.now) (forest_at (has c) all.now.forest)) }
{
    let refused = all.refused.value(c);
    match parse(alloc, tokens) {
        Ok(_) if refused => Ok(Comparison::WronglyRefused),
        Ok(tree) => {
            let projected = project(alloc, &all.forest, c)?;
            if is_same_tree(&tree, &projected) {
                Ok(Comparison::SameTree)
            } else {
                Ok(Comparison::OtherTree)
            }
        }
        Err(ParseError::Memory) => Err(AllocError),
        Err(_) if refused => Ok(Comparison::BothRefuse),
        Err(_) => Ok(Comparison::WronglyRead),
    }
}
