//! The oracle of a model.

ghost use Rattle.std.specs.Prelude.{◌≡◌, ◌≤◌, ℕ, Bool, IsTrue, IfSome};
ghost use Rattle.cond_formula.specs.Conditions.{Condition, condition_of, value, VarsBelow};
ghost use Rattle.sat_core.specs.Models.{HasNoModel};
ghost use Rattle.feature_model.specs.ModelView.{admitted};
ghost use Rattle.verdict_query.specs.Verdicts.{where_admitted, AreNever};

use crate::guesses::guess;
use crate::questions::where_both;
use crate::ranges::is_within;
use cond_formula::{Config, Formula, May, Oracle};
use feature_model::Model;
use reduced_conditions::is_same;
use sat_core::{Answer, solve};
use std::alloc::{AllocError, Global};
use std::marker;

/// A number of features beyond which the formula names none, if a project may have so many. The solver decides each feature that
/// it is asked over, so few are better: from 4 on it is the least power of two above the number of each feature that is named.
fn features_of(f: &Formula) -> Option<u8>
    ensures few { IfSome result (λ features. features ≤ 128) }
    ensures below { IfSome result (λ features. VarsBelow features (condition_of f.now)) }
{
    if is_within(f, 4) {
        return Some(4);
    }
    if is_within(f, 8) {
        return Some(8);
    }
    if is_within(f, 16) {
        return Some(16);
    }
    if is_within(f, 32) {
        return Some(32);
    }
    if is_within(f, 64) {
        return Some(64);
    }
    if is_within(f, 128) {
        return Some(128);
    }
    None
}

/// Sets of features in which many formulas are true that are true anywhere: none, all, and every other one, pair or four.
const TRIED: [u128; 8] = [
    0,
    u128::MAX,
    0x5555_5555_5555_5555_5555_5555_5555_5555,
    0xaaaa_aaaa_aaaa_aaaa_aaaa_aaaa_aaaa_aaaa,
    0x3333_3333_3333_3333_3333_3333_3333_3333,
    0xcccc_cccc_cccc_cccc_cccc_cccc_cccc_cccc,
    0x0f0f_0f0f_0f0f_0f0f_0f0f_0f0f_0f0f_0f0f,
    0xf0f0_f0f0_f0f0_f0f0_f0f0_f0f0_f0f0_f0f0,
];

/// Whether the formula is true in the configuration that it suggests, or in one of the sets that are tried: this saves the solver
/// most questions.
fn is_found_true(f: &Formula) -> bool
    ensures { IsTrue result → (on : ℕ → Bool) × IsTrue (value on (condition_of f.now)) }
{
    if f.value(guess(f)) {
        return true;
    }
    for bits in TRIED {
        if f.value(Config { bits }) {
            return true;
        }
    }
    false
}

/// Whether the formula is true where one of so many features is on alone, as each branch of a chain of exclusive ones is.
fn is_true_with_one(f: &Formula, features: u8) -> bool
    requires { features ≤ 128 }
    ensures { IsTrue result → (on : ℕ → Bool) × IsTrue (value on (condition_of f.now)) }
{
    for feature in 0..features {
        if f.value(Config { bits: 1 << feature }) {
            return true;
        }
    }
    false
}

/// Whether the solver has a refutation of the formula.
fn is_refuted(alloc: Global, f: &Formula) -> bool
    ensures { IsTrue result → HasNoModel (condition_of f.now) }
{
    if is_found_true(f) {
        return false;
    }
    match features_of(f) {
        Some(features) => {
            !is_true_with_one(f, features) && matches!(solve(alloc, f, features), Answer::Unsat(_))
        }
        None => false,
    }
}

/// Whether it is refuted that the formula is true in a configuration that the model admits.
fn is_never(alloc: Global, model: &Model, f: &Formula) -> bool
    ensures { IsTrue result → HasNoModel (where_admitted (admitted model.now) (condition_of f.now)) }
{
    if reduced_conditions::is_never(f) {
        return true;
    }
    match where_both(alloc, model, f) {
        Ok(both) => is_refuted(alloc, &both),
        Err(_) => false,
    }
}

/// Whether the formula is written as one of these.
fn is_among(formulas: &[Formula], f: &Formula) -> bool
    ensures { IsTrue result → (admitted : Condition) → AreNever admitted formulas.now → HasNoModel (where_admitted admitted (condition_of f.now)) }
{
    for formula in formulas {
        if is_same(formula, f) {
            return true;
        }
    }
    false
}

/// How many formulas an oracle keeps.
const MOST_KEPT: usize = 64;

/// The oracle that admits the configurations of a model. It says `No` only where it has a refutation; where memory ends, or a
/// formula names what is no feature, it says `Maybe`. It keeps what it refuted last, as a stage asks the same of each use of a
/// name.
#[derive(Drop)]
pub struct ModelOracle<'m> {
    alloc: Global,
    model: &'m Model,
    refuted: Vec<Formula>,
}

impl<'m> marker::Model for ModelOracle<'m> {
    ghost use Rattle.std.specs.Coded.{codes};
    ghost use Rattle.feature_model.specs.contracts.model.Model as model_contract;
    ghost use Rattle.feature_model.specs.declared.model.Model.{Model};
    ghost use Rattle.feature_model.specs.ModelView.{admitted};
    ghost use Rattle.verdict_query.specs.Verdicts.{AreNever};

    ghost Value = { Model };

    ghost coded = { Prim.hlevel (codes, model_contract.the_row.coded) };

    ghost view = { λ oracle. oracle.model.now };

    ghost invariant = { λ oracle. AreNever (admitted oracle.model.now) oracle.refuted.items };
}

impl<'m> ModelOracle<'m> {
    /// The oracle of this model. It takes no memory before it is asked.
    pub fn new(alloc: Global, model: &'m Model) -> ModelOracle<'m>
        ensures { admitted result ≡ admitted model.now }
    {
        ModelOracle {
            alloc,
            model,
            refuted: Vec::new(alloc),
        }
    }

    fn forget(&mut self)
        ensures { self.new ≡ self.old }
    {
        self.refuted.clear();
    }

    fn add(&mut self, f: Formula) -> Result<(), AllocError>
        requires { HasNoModel (where_admitted (admitted self.old) (condition_of f)) }
        ensures { self.new ≡ self.old }
    {
        self.refuted.push(f)?;
        Ok(())
    }

    /// Keeps a formula that is refuted, where there is memory for it.
    fn keep(&mut self, f: &Formula)
        requires { HasNoModel (where_admitted (admitted self.old) (condition_of f.now)) }
        ensures { self.new ≡ self.old }
    {
        if self.refuted.len() == MOST_KEPT {
            self.forget();
        }
        if let Ok(copy) = f.try_clone(self.alloc) {
            let _ = self.add(copy);
        }
    }
}

impl Oracle for ModelOracle<'_> {
    ghost admits = { λ oracle. admitted oracle };

    fn may(&mut self, f: &Formula) -> May {
        if is_among(&self.refuted, f) {
            return May::No;
        }
        if is_never(self.alloc, self.model, f) {
            self.keep(f);
            May::No
        } else {
            May::Maybe
        }
    }
}
