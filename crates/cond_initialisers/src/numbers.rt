//! Arithmetic constant expressions, which name nothing (6.6).
ghost use Rattle.std.specs.Prelude.{◌≡◌, false, IsTrue, IfOk, Result};
ghost use Rattle.c_tree.specs.Trees.{plain_tree};
ghost use Rattle.core_meaning.specs.Checking as judging;
ghost use Rattle.core_meaning.specs.Typing as typing;
ghost use Rattle.plain_operands.specs.PlainOperands.{plain_typed};
ghost use Rattle.plain_scope.specs.Judgements.{Judges, RefusedAs};
ghost use Rattle.plain_scope.specs.declared.entities.Used as used;
ghost use Rattle.cond_initialisers.specs.Constants as spec;

use c_tree::Tree;
use cond_formula::NoMemory;
use cond_sizes::nothing_visible;
use plain_expressions::{value_if_constant, valued};
use plain_operands::Typed;
use plain_scope::{ElabError, Numbers, Scope, Used};
use std::alloc::{AllocError, Global};
use std::collections::HashMap;

fn is_refusal(error: &ElabError) -> bool
    ensures { (c : judging.Checked typing.Typed) → IsTrue result → RefusedAs c error.now → spec.is_number c ≡ false }
{
    matches!(error, ElabError::BadType(..))
}

/// Whether it is a number, by what the judgement of one configuration answers.
fn is_number(answer: Result<Typed, ElabError>) -> Result<bool, NoMemory>
    ensures { IfOk result (λ b. (c : judging.Checked typing.Typed) (before after : used.Used) → Judges c plain_typed before after answer → b ≡ spec.is_number c) }
{
    match answer {
        Ok(x) => Ok(value_if_constant(&x.core).is_some()),
        Err(error) => {
            if is_refusal(&error) {
                Ok(false)
            } else {
                Err(AllocError)
            }
        }
    }
}

fn is_number_in(alloc: Global, scope: &Scope, tree: &Tree) -> Result<bool, NoMemory>
    ensures { IfOk result (λ b. b ≡ spec.has_number (plain_tree tree.now)) }
{
    let mut used = Used::new(alloc);
    is_number(valued(alloc, scope, &mut used, tree))
}

/// Whether an expression is an arithmetic constant expression that has a value.
pub(crate) fn has_number(alloc: Global, tree: &Tree) -> Result<bool, NoMemory>
    ensures { IfOk result (λ b. b ≡ spec.has_number (plain_tree tree.now)) }
{
    let numbers = Numbers {
        globals: HashMap::new(alloc),
        functions: HashMap::new(alloc),
    };
    let literals = HashMap::new(alloc);
    let scope = nothing_visible(alloc, &numbers, &literals);
    is_number_in(alloc, &scope, tree)
}
