//! Operators on two operands. The oracle drops pairs that no configuration has.
ghost use Rattle.std.specs.Prelude.{◌≡◌, Bool, List, IsTrue, IfOk};
ghost use Rattle.c_text.specs.Token.{PlainToken, plain_token};
ghost use Rattle.cond_formula.specs.Features.{has};
ghost use Rattle.cond_formula.specs.Conditions.{value};
ghost use Rattle.conditional.specs.Judgements.{bind};
ghost use Rattle.operand_types.specs.Operators.{combined_type, indexed_type, assigned_type, chosen_type};
ghost use Rattle.cond_operands.specs.Operands.{Judged, ShowsOperand, HasNumberIfNull};

use crate::judgements::{Assigning, Choosing, Combining, Indexing, Operands};
use c_text::Token;
use c_tree::Kind;
use cond_formula::{NoMemory, Oracle};
use conditional::crossed;
use std::alloc::Global;

/// An operator of this kind between two values.
pub fn combined<O: Oracle>(
    alloc: Global,
    oracle: &mut O,
    kind: Kind,
    sign: &Token,
    a: Operands,
    b: Operands,
) -> Result<Operands, NoMemory>
    ensures kept { O.admits oracle.new ≡ O.admits oracle.old }
    ensures shows { IfOk result (λ z. (c : List Bool) → IsTrue (value (has c) (O.admits oracle.old)) → (x y : Judged) → ShowsOperand (has c) x a → ShowsOperand (has c) y b → ShowsOperand (has c) (bind x (λ x. bind y (λ y. combined_type kind (plain_token sign.now) x y))) z) }
{
    crossed(alloc, &Combining { kind, sign }, oracle, a, b)
}

/// A value with another in brackets behind it.
pub fn indexed<O: Oracle>(
    alloc: Global,
    oracle: &mut O,
    a: Operands,
    b: Operands,
) -> Result<Operands, NoMemory>
    ensures kept { O.admits oracle.new ≡ O.admits oracle.old }
    ensures shows { IfOk result (λ z. (bracket : PlainToken) (c : List Bool) → IsTrue (value (has c) (O.admits oracle.old)) → (x y : Judged) → ShowsOperand (has c) x a → ShowsOperand (has c) y b → ShowsOperand (has c) (bind x (λ x. bind y (λ y. indexed_type bracket x y))) z) }
{
    crossed(alloc, &Indexing, oracle, a, b)
}

/// The second operand, a value, assigned to the first.
pub fn assigned<O: Oracle>(
    alloc: Global,
    oracle: &mut O,
    sign: &Token,
    a: Operands,
    b: Operands,
) -> Result<Operands, NoMemory>
    ensures kept { O.admits oracle.new ≡ O.admits oracle.old }
    ensures shows { IfOk result (λ z. (c : List Bool) → IsTrue (value (has c) (O.admits oracle.old)) → (x y : Judged) → ShowsOperand (has c) x a → ShowsOperand (has c) y b → ShowsOperand (has c) (bind x (λ x. bind y (λ y. assigned_type (plain_token sign.now) x y))) z) }
{
    crossed(alloc, &Assigning { sign }, oracle, a, b)
}

/// The two results of `?:`, which are values.
pub fn chosen<O: Oracle>(
    alloc: Global,
    oracle: &mut O,
    a: Operands,
    b: Operands,
) -> Result<Operands, NoMemory>
    ensures kept { O.admits oracle.new ≡ O.admits oracle.old }
    ensures shows { IfOk result (λ z. (question : PlainToken) (c : List Bool) → IsTrue (value (has c) (O.admits oracle.old)) → (x y : Judged) → HasNumberIfNull x → ShowsOperand (has c) x a → ShowsOperand (has c) y b → ShowsOperand (has c) (bind x (λ x. bind y (λ y. chosen_type question x y))) z) }
{
    crossed(alloc, &Choosing, oracle, a, b)
}
