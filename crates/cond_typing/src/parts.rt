//! What has been read of a node's parts, as it grows.
ghost use Rattle.std.specs.Prelude.{ℕ, Bool, List, IsTrue, IfOk, OnOk};
ghost use Rattle.cond_formula.specs.Features.{has};
ghost use Rattle.cond_formula.specs.Conditions.{value};
ghost use Rattle.c_text.specs.Token.{plain_token};
ghost use Rattle.c_tree.specs.Trees.{leaf};
ghost use Rattle.choice_trees.specs.ChoiceTrees.{no_statement};
ghost use Rattle.expression_types.specs.Known.{Callable, Known};
ghost use Rattle.expression_types.specs.Reading.{nothing_read};
ghost use Rattle.cond_nodes.specs.Reads.{ShowsParts};
ghost use Rattle.cond_typing.specs.PartsProgress.{ReadsPart};

use crate::leaves::{is_operand, is_selected, single};
use c_text::Token;
use c_tree::Kind;
use cond_formula::NoMemory;
use cond_nodes::{CastType, CondParts, CondRead, Knowledge, refused_everywhere};
use conditional::CondValue;
use std::alloc::Global;

/// No parts yet.
pub fn no_parts<'a>(alloc: Global) -> Result<CondParts<'a>, NoMemory>
    ensures { IfOk result (λ all. (on : ℕ → Bool) (callable : ℕ → Callable) → ShowsParts on callable nothing_read all) }
{
    let words = CondValue::one(alloc, CastType::Void)?;
    Ok(CondParts {
        operands: Vec::new(alloc),
        signs: Vec::new(alloc),
        words,
        arguments: Vec::new(alloc),
    })
}

/// A `;` that stands for a statement is no operand of a type.
pub fn push_refused(alloc: Global, so_far: &mut CondParts) -> Result<(), NoMemory>
    ensures { OnOk result ((on : ℕ → Bool) (callable : ℕ → Callable) (known : Known) (kind : Kind) → ReadsPart on callable known kind no_statement so_far.old so_far.new) }
{
    let outcomes = refused_everywhere(alloc)?;
    so_far.operands.push(CondRead {
        outcomes,
        callee: CondValue::nothing(alloc),
    })?;
    Ok(())
}

/// A token among the parts.
pub fn push_leaf<'a, K: Knowledge>(
    alloc: Global,
    known: &K,
    kind: Kind,
    token: &'a Token,
    so_far: &mut CondParts<'a>,
) -> Result<(), NoMemory>
    ensures { OnOk result ((c : List Bool) → IsTrue (value (has c) (K.admits known.now))
        → ReadsPart (has c) (K.callable known.now c) (K.known known.now c) kind (leaf (plain_token token.now)) so_far.old so_far.new) }
{
    if is_operand(token) && !is_selected(kind, &so_far.signs) {
        let read = single(alloc, known, token)?;
        so_far.operands.push(read)?;
        return Ok(());
    }
    so_far.signs.push(token)?;
    Ok(())
}
