//! The rules for types, as judgements and operators that are asked for alternatives.
ghost use Rattle.std.specs.Prelude.{◌≡◌, None, Result};
ghost use Rattle.c_text.specs.Token.{PlainToken, plain_token};
ghost use Rattle.c_types.specs.Types.{plain_type};
ghost use Rattle.conditional.specs.Judgements.{checked};
ghost use Rattle.operand_types.specs.OperandTypes.{struct_in};
ghost use Rattle.operand_types.specs.Operators.{loaded_type, prefixed_type, stepped_type, cast_type, combined_type, indexed_type, assigned_type, tested_type, fitted_type};
ghost use Rattle.operand_rules.specs.PlainOperandTypes.{accepted, plain_operand_type, judgement, reason};
ghost use Rattle.operand_rules.specs.Rules.{chosen_rule};
ghost use Rattle.cond_operands.specs.Operands.{passed};

use c_text::Token;
use c_tree::Kind;
use c_types::CType;
use cond_formula::NoMemory;
use conditional::{Judgement, Operator, Outcomes, Plain};
use operand_rules::{OperandType, Refused};
use std::alloc::Global;

/// What is judged of an operand in each configuration.
pub type Operands = Outcomes<OperandType, Refused>;

/// What a test gives in each configuration.
pub type Tests = Outcomes<Passed, Refused>;

/// A test is passed.
#[derive(Clone, Copy, Debug)]
pub struct Passed;

impl Plain for Passed {
    ghost Form = { Unit {0} };

    ghost form = { passed };

    fn is_same(&self, _other: &Passed) -> bool {
        true
    }

    fn try_clone(&self, _alloc: Global) -> Result<Passed, NoMemory> {
        Ok(*self)
    }
}

#[derive(Clone, Copy)]
pub(crate) struct Loading;

impl Judgement<OperandType, OperandType, Refused> for Loading {
    ghost answers = { λ _ a r. (at : PlainToken) → judgement r ≡ loaded_type at (plain_operand_type a) };

    fn judge(
        &self,
        alloc: Global,
        a: &OperandType,
    ) -> Result<Result<OperandType, Refused>, NoMemory> {
        operand_rules::loaded(alloc, a)
    }
}

#[derive(Clone, Copy)]
pub(crate) struct Prefixing<'t> {
    pub(crate) sign: &'t Token,
}

impl<'t> Judgement<OperandType, OperandType, Refused> for Prefixing<'t> {
    ghost answers = { λ self a r. judgement r ≡ prefixed_type (plain_token self.sign.now) (plain_operand_type a) };

    fn judge(
        &self,
        alloc: Global,
        a: &OperandType,
    ) -> Result<Result<OperandType, Refused>, NoMemory> {
        operand_rules::prefixed(alloc, self.sign, a)
    }
}

#[derive(Clone, Copy)]
pub(crate) struct Stepping<'t> {
    pub(crate) sign: &'t Token,
}

impl<'t> Judgement<OperandType, OperandType, Refused> for Stepping<'t> {
    ghost answers = { λ self a r. judgement r ≡ stepped_type (plain_token self.sign.now) (plain_operand_type a) };

    fn judge(
        &self,
        alloc: Global,
        a: &OperandType,
    ) -> Result<Result<OperandType, Refused>, NoMemory> {
        operand_rules::stepped(alloc, self.sign, a)
    }
}

#[derive(Clone, Copy)]
pub(crate) struct Casting<'t> {
    pub(crate) ty: &'t CType,
}

impl<'t> Judgement<OperandType, OperandType, Refused> for Casting<'t> {
    ghost answers = { λ self a r. struct_in (plain_type self.ty.now) ≡ None → (bracket : PlainToken) → judgement r ≡ cast_type bracket (plain_type self.ty.now) (plain_operand_type a) };

    fn judge(
        &self,
        alloc: Global,
        a: &OperandType,
    ) -> Result<Result<OperandType, Refused>, NoMemory> {
        operand_rules::cast(alloc, self.ty, a)
    }
}

/// The outcome of a test.
fn outcome(is_passed: bool) -> Result<Passed, Refused>
    ensures { checked passed reason result ≡ accepted is_passed }
{
    if is_passed { Ok(Passed) } else { Err(Refused) }
}

#[derive(Clone, Copy)]
pub(crate) struct Testing;

impl Judgement<OperandType, Passed, Refused> for Testing {
    ghost answers = { λ _ a r. (first : PlainToken) → checked passed reason r ≡ tested_type first (plain_operand_type a) };

    fn judge(&self, _alloc: Global, a: &OperandType) -> Result<Result<Passed, Refused>, NoMemory> {
        Ok(outcome(operand_rules::tested(a)))
    }
}

#[derive(Clone, Copy)]
pub(crate) struct Fitting<'t> {
    pub(crate) ty: &'t CType,
}

impl<'t> Judgement<OperandType, Passed, Refused> for Fitting<'t> {
    ghost answers = { λ self a r. (first : PlainToken) → checked passed reason r ≡ fitted_type first (plain_type self.ty.now) (plain_operand_type a) };

    fn judge(&self, _alloc: Global, a: &OperandType) -> Result<Result<Passed, Refused>, NoMemory> {
        Ok(outcome(operand_rules::fitted(self.ty, a)))
    }
}

#[derive(Clone, Copy)]
pub(crate) struct Combining<'t> {
    pub(crate) kind: Kind,
    pub(crate) sign: &'t Token,
}

impl<'t> Operator<OperandType, OperandType, OperandType, Refused> for Combining<'t> {
    ghost answers = { λ self a b r. judgement r ≡ combined_type self.kind (plain_token self.sign.now) (plain_operand_type a) (plain_operand_type b) };

    fn apply(
        &self,
        alloc: Global,
        a: &OperandType,
        b: &OperandType,
    ) -> Result<Result<OperandType, Refused>, NoMemory> {
        operand_rules::combined(alloc, self.kind, self.sign, a, b)
    }
}

#[derive(Clone, Copy)]
pub(crate) struct Indexing;

impl Operator<OperandType, OperandType, OperandType, Refused> for Indexing {
    ghost answers = { λ _ a b r. (bracket : PlainToken) → judgement r ≡ indexed_type bracket (plain_operand_type a) (plain_operand_type b) };

    fn apply(
        &self,
        alloc: Global,
        a: &OperandType,
        b: &OperandType,
    ) -> Result<Result<OperandType, Refused>, NoMemory> {
        operand_rules::indexed(alloc, a, b)
    }
}

#[derive(Clone, Copy)]
pub(crate) struct Assigning<'t> {
    pub(crate) sign: &'t Token,
}

impl<'t> Operator<OperandType, OperandType, OperandType, Refused> for Assigning<'t> {
    ghost answers = { λ self a b r. judgement r ≡ assigned_type (plain_token self.sign.now) (plain_operand_type a) (plain_operand_type b) };

    fn apply(
        &self,
        alloc: Global,
        a: &OperandType,
        b: &OperandType,
    ) -> Result<Result<OperandType, Refused>, NoMemory> {
        operand_rules::assigned(alloc, self.sign, a, b)
    }
}

#[derive(Clone, Copy)]
pub(crate) struct Choosing;

impl Operator<OperandType, OperandType, OperandType, Refused> for Choosing {
    ghost answers = { λ _ a b r. judgement r ≡ chosen_rule (plain_operand_type a) (plain_operand_type b) };

    fn apply(
        &self,
        alloc: Global,
        a: &OperandType,
        b: &OperandType,
    ) -> Result<Result<OperandType, Refused>, NoMemory> {
        operand_rules::chosen(alloc, a, b)
    }
}
