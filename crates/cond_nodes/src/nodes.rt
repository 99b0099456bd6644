//! Nodes by their kinds.
ghost use Rattle.std.specs.Prelude.{◌≡◌, ℕ, Bool, List, IsTrue, IfOk};
ghost use Rattle.cond_formula.specs.Features.{has};
ghost use Rattle.cond_formula.specs.Conditions.{value};
ghost use Rattle.cond_operands.specs.Operands.{ShowsOperand};
ghost use Rattle.c_text.specs.Token.{plain_token};
ghost use Rattle.c_tree.specs.declared.kinds.Kind.TheVariants as k;
ghost use Rattle.conditional.specs.Judgements.{bind};
ghost use Rattle.operand_types.specs.Operators.{combined_type};
ghost use Rattle.expression_types.specs.Known.{Known, Callable};
ghost use Rattle.expression_types.specs.Reading as spec;
ghost use Rattle.expression_types.specs.Reading.{Read, Parts, no_expression};
ghost use Rattle.std.specs.Prelude.{get_or};
ghost use Rattle.cond_nodes.specs.Reads.{ShowsRead, ShowsCallee, EachRead, ShowsParts, EachNumber};

use crate::calls::{call, cast_to, either};
use crate::knowledge::Knowledge;
use crate::members::selected;
use crate::operands::{loaded_operand, no_sign, operand, sign};
use crate::parts::{Callee, CondParts, CondRead};
use c_text::Token;
use c_tree::Kind;
use cond_formula::{Formula, NoMemory, Oracle};
use cond_operands::{Operands, assigned, combined, indexed, prefixed, stepped};
use conditional::CondValue;
use std::alloc::Global;

/// The function that the first operand names.
fn callee(alloc: Global, operands: &[CondRead]) -> Result<CondValue<Callee>, NoMemory>
    ensures { IfOk result (λ f. (on : ℕ → Bool) (callable : ℕ → Callable) (reads : List Read) → EachRead on callable reads operands.now → ShowsCallee on callable (get_or reads 0 no_expression).callee f) }
{
    if operands.is_empty() {
        return Ok(CondValue::nothing(alloc));
    }
    let same = operands[0].callee.restrict(alloc, &Formula::True)?;
    Ok(same)
}

/// The function that a node names, if it stands for its operand.
fn named(alloc: Global, kind: Kind, operands: &[CondRead]) -> Result<CondValue<Callee>, NoMemory>
    ensures { IfOk result (λ f. (on : ℕ → Bool) (callable : ℕ → Callable) (known : Known) (p : Parts) → EachRead on callable p.operands operands.now → ShowsCallee on callable (spec.node_read known kind p).callee f) }
{
    match kind {
        Kind::Parenthesized => callee(alloc, operands),
        _ => Ok(CondValue::nothing(alloc)),
    }
}

/// A value with another in brackets behind it.
fn indexed_node<O: Oracle>(
    alloc: Global,
    oracle: &mut O,
    operands: &[CondRead],
) -> Result<Operands, NoMemory>
    ensures kept { O.admits oracle.new ≡ O.admits oracle.old }
    ensures shows { IfOk result (λ z. (c : List Bool) (callable : ℕ → Callable) (known : Known) (p : Parts) → IsTrue (value (has c) (O.admits oracle.old))
        → EachRead (has c) callable p.operands operands.now → ShowsOperand (has c) (spec.node_read known k.Index p).outcome z) }
{
    let a = loaded_operand(alloc, operands, 0)?;
    let b = loaded_operand(alloc, operands, 1)?;
    indexed(alloc, oracle, a, b)
}

/// A value assigned to an operand.
fn assigned_node<O: Oracle>(
    alloc: Global,
    oracle: &mut O,
    first: &Token,
    operands: &[CondRead],
) -> Result<Operands, NoMemory>
    ensures kept { O.admits oracle.new ≡ O.admits oracle.old }
    ensures shows { IfOk result (λ z. (c : List Bool) (callable : ℕ → Callable) (known : Known) (p : Parts) → IsTrue (value (has c) (O.admits oracle.old))
        → plain_token first.now ≡ spec.sign 0 p → EachRead (has c) callable p.operands operands.now → ShowsOperand (has c) (spec.node_read known k.Assignment p).outcome z) }
{
    let a = operand(alloc, operands, 0)?;
    let b = loaded_operand(alloc, operands, 1)?;
    assigned(alloc, oracle, first, a, b)
}

/// A condition with two results.
fn conditional_node<O: Oracle>(
    alloc: Global,
    oracle: &mut O,
    operands: &[CondRead],
) -> Result<Operands, NoMemory>
    ensures kept { O.admits oracle.new ≡ O.admits oracle.old }
    ensures shows { IfOk result (λ z. (c : List Bool) (callable : ℕ → Callable) (known : Known) (p : Parts) → IsTrue (value (has c) (O.admits oracle.old))
        → EachNumber p.operands → EachRead (has c) callable p.operands operands.now → ShowsOperand (has c) (spec.node_read known k.Conditional p).outcome z) }
{
    let condition = operand(alloc, operands, 0)?;
    let a = loaded_operand(alloc, operands, 1)?;
    let b = loaded_operand(alloc, operands, 2)?;
    either(alloc, oracle, condition, a, b)
}

/// An operator between two values.
fn combined_node<O: Oracle>(
    alloc: Global,
    oracle: &mut O,
    kind: Kind,
    first: &Token,
    operands: &[CondRead],
) -> Result<Operands, NoMemory>
    ensures kept { O.admits oracle.new ≡ O.admits oracle.old }
    ensures shows { IfOk result (λ z. (c : List Bool) (callable : ℕ → Callable) (p : Parts) → IsTrue (value (has c) (O.admits oracle.old))
        → plain_token first.now ≡ spec.sign 0 p → EachRead (has c) callable p.operands operands.now
        → ShowsOperand (has c) (bind (spec.value 0 p) (λ a. bind (spec.value 1 p) (combined_type kind (spec.sign 0 p) a))) z) }
{
    let a = loaded_operand(alloc, operands, 0)?;
    let b = loaded_operand(alloc, operands, 1)?;
    combined(alloc, oracle, kind, first, a, b)
}

/// The member that a node selects.
fn selected_node<K: Knowledge, O: Oracle>(
    alloc: Global,
    known: &K,
    oracle: &mut O,
    select: &Token,
    name: &Token,
    operands: &[CondRead],
) -> Result<Operands, NoMemory>
    ensures kept { O.admits oracle.new ≡ O.admits oracle.old }
    ensures shows { IfOk result (λ z. (c : List Bool) (callable : ℕ → Callable) (p : Parts) → IsTrue (value (has c) (K.admits known.now)) → IsTrue (value (has c) (O.admits oracle.old))
        → plain_token select.now ≡ spec.sign 0 p → plain_token name.now ≡ spec.sign 1 p → EachRead (has c) callable p.operands operands.now
        → ShowsOperand (has c) (spec.node_read (K.known known.now c) k.Selection p).outcome z) }
{
    let a = operand(alloc, operands, 0)?;
    selected(alloc, known, oracle, select, name, a)
}

/// The type of a node.
fn outcomes<K: Knowledge, O: Oracle>(
    alloc: Global,
    known: &K,
    oracle: &mut O,
    kind: Kind,
    parts: &CondParts,
) -> Result<Operands, NoMemory>
    ensures kept { O.admits oracle.new ≡ O.admits oracle.old }
    ensures shows { IfOk result (λ z. (c : List Bool) (p : Parts) → IsTrue (value (has c) (K.admits known.now)) → IsTrue (value (has c) (O.admits oracle.old))
        → ShowsParts (has c) (K.callable known.now c) p parts.now → EachNumber p.operands → ShowsOperand (has c) (spec.node_read (K.known known.now c) kind p).outcome z) }
{
    let operands = parts.operands.as_slice();
    let none = no_sign(alloc)?;
    let first = sign(&parts.signs, 0, &none);
    match kind {
        Kind::Parenthesized => operand(alloc, operands, 0),
        Kind::PostfixStep | Kind::PrefixStep => {
            let a = operand(alloc, operands, 0)?;
            stepped(alloc, first, a)
        }
        Kind::Prefix => {
            let a = operand(alloc, operands, 0)?;
            prefixed(alloc, first, a)
        }
        Kind::Cast => {
            let x = loaded_operand(alloc, operands, 0)?;
            cast_to(alloc, oracle, &parts.words, &x)
        }
        Kind::Selection => {
            let name = sign(&parts.signs, 1, &none);
            selected_node(alloc, known, oracle, first, name, operands)
        }
        Kind::Index => indexed_node(alloc, oracle, operands),
        Kind::Call => {
            let f = callee(alloc, operands)?;
            call(alloc, known, oracle, &f, &parts.arguments)
        }
        Kind::Assignment => assigned_node(alloc, oracle, first, operands),
        Kind::Conditional => conditional_node(alloc, oracle, operands),
        _ => combined_node(alloc, oracle, kind, first, operands),
    }
}

/// What a node is, by what has been read of its parts.
pub fn node_read<K: Knowledge, O: Oracle>(
    alloc: Global,
    known: &K,
    oracle: &mut O,
    kind: Kind,
    parts: &CondParts,
) -> Result<CondRead, NoMemory>
    ensures kept { O.admits oracle.new ≡ O.admits oracle.old }
    ensures shows { IfOk result (λ z. (c : List Bool) (p : Parts) → IsTrue (value (has c) (K.admits known.now)) → IsTrue (value (has c) (O.admits oracle.old))
        → ShowsParts (has c) (K.callable known.now c) p parts.now → EachNumber p.operands → ShowsRead (has c) (K.callable known.now c) (spec.node_read (K.known known.now c) kind p) z) }
{
    let outcomes = outcomes(alloc, known, oracle, kind, parts)?;
    let callee = named(alloc, kind, &parts.operands)?;
    Ok(CondRead { outcomes, callee })
}
