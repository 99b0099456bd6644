//! Where expressions are refused as initialisers, by their types (6.7.9).
ghost use Rattle.std.specs.Prelude.{◌≡◌, ℕ, Bool, List, IsTrue, IfOk, Result};
ghost use Rattle.cond_formula.specs.Features.{has};
ghost use Rattle.cond_formula.specs.Conditions.{condition_of, value};
ghost use Rattle.c_types.specs.Types.{plain_type};
ghost use Rattle.conditional.specs.Judgements.{checked};
ghost use Rattle.choice_trees.specs.ChoiceTrees.{plain_item, item_at};
ghost use Rattle.operand_rules.specs.PlainOperandTypes.{plain_operand_type, reason};
ghost use Rattle.cond_operands.specs.Operands.{passed, ShowsTest};
ghost use Rattle.cond_initialisers.specs.Refusals as spec;
ghost use Rattle.cond_initialisers.specs.Refusals.{Test};

use c_types::CType;
use choice_trees::Item;
use cond_formula::{Formula, NoMemory, Oracle};
use cond_nodes::{CondRead, Knowledge};
use cond_operands::{Passed, Tests, fitted};
use cond_typing::read_expression;
use conditional::{Judgement, judged, when_some_hold};
use operand_rules::{OperandType, Refused};
use std::alloc::Global;

/// Whether an array of so many elements has room for texts of this type.
#[tactic(auto, using(c_types::specs::TypeLaws::type_kinds))]
fn has_room(count: u32, ty: &CType) -> bool
    ensures { result ≡ spec.has_room count (plain_type ty.now) }
{
    match ty {
        CType::Array(_, size) => size.saturating_sub(1) <= count,
        CType::Void
        | CType::Char
        | CType::UChar
        | CType::Int
        | CType::UInt
        | CType::Long
        | CType::ULong
        | CType::Pointer(_)
        | CType::Struct(_) => false,
    }
}

/// An array of so many elements.
#[derive(Clone, Copy)]
struct Room {
    count: u32,
}

impl Judgement<OperandType, Passed, Refused> for Room {
    ghost answers = { λ self a r. checked passed reason r ≡ spec.room_for self.count (plain_operand_type a) };

    fn judge(&self, _alloc: Global, a: &OperandType) -> Result<Result<Passed, Refused>, NoMemory> {
        if has_room(self.count, &a.ty) {
            Ok(Ok(Passed))
        } else {
            Ok(Err(Refused))
        }
    }
}

/// Where a test isn't passed.
pub fn where_failed(alloc: Global, tests: &Tests) -> Result<Formula, NoMemory>
    ensures { IfOk result (λ f. (on : ℕ → Bool) (t : Test) → ShowsTest on t tests.now → value on (condition_of f) ≡ spec.is_refusal t) }
{
    when_some_hold(alloc, &tests.refused.entries)
}

/// Where an expression doesn't fit a type.
pub fn where_unfit<K: Knowledge, O: Oracle>(
    alloc: Global,
    oracle: &mut O,
    known: &K,
    ty: &CType,
    item: &Item,
) -> Result<Formula, NoMemory>
    ensures kept { O.admits oracle.new ≡ O.admits oracle.old }
    ensures same { IfOk result (λ f. (c : List Bool) → IsTrue (value (has c) (K.admits known.now)) → IsTrue (value (has c) (O.admits oracle.old))
        → value (has c) (condition_of f) ≡ spec.is_unfit (K.known known.now c) (item_at (has c) (plain_item item.now)) (plain_type ty.now)) }
{
    let read = read_expression(alloc, known, oracle, item)?;
    let CondRead {
        outcomes,
        callee: _,
    } = read;
    let tests = fitted(alloc, ty, outcomes)?;
    where_failed(alloc, &tests)
}

/// Where an expression isn't texts that an array of so many characters has room for.
pub fn where_without_room<K: Knowledge, O: Oracle>(
    alloc: Global,
    oracle: &mut O,
    known: &K,
    count: u32,
    item: &Item,
) -> Result<Formula, NoMemory>
    ensures kept { O.admits oracle.new ≡ O.admits oracle.old }
    ensures same { IfOk result (λ f. (c : List Bool) → IsTrue (value (has c) (K.admits known.now)) → IsTrue (value (has c) (O.admits oracle.old))
        → value (has c) (condition_of f) ≡ spec.without_room (K.known known.now c) (item_at (has c) (plain_item item.now)) count) }
{
    let read = read_expression(alloc, known, oracle, item)?;
    let CondRead {
        outcomes,
        callee: _,
    } = read;
    let tests = judged(alloc, &Room { count }, outcomes)?;
    where_failed(alloc, &tests)
}
