//! The translation of a formula into clauses.

ghost use Rattle.std.specs.Prelude.{◌≡◌, ◌+◌, ◌<◌, [], ◌∷◌, ◌++◌, IfOk, OnOk, All};
ghost use Rattle.cond_formula.specs.Conditions.{condition_of, conditions_of, VarsBelow};
ghost use Rattle.clause_search.specs.Answers.{literals_of};
ghost use Rattle.sat_core.specs.Translations.{IsTranslation};
ghost use Rattle.sat_core.specs.Numbering.{node_count, node_count_of, node_clauses, parts_clauses, parts_variables, signed, link, long_clause, short_clauses, gate};

use cond_formula::{Formula, NoMemory};
use std::alloc::{AllocError, Global};

/// The largest number that a variable may have, so that its literals fit 32 bits.
const LARGEST_VARIABLE: u32 = 2147483647;

/// Clauses that are satisfiable exactly where a formula has a model, over variables 1 up to `vars`: variable i + 1 is
/// feature i, and each node of the formula has a variable above these. A literal is a variable's number, or its negative
/// for the negation.
#[derive(Drop)]
pub struct Translation {
    pub vars: u32,
    pub clauses: Vec<Vec<i32>>,
    pub ghost small: { vars < 2147483648 },
}

/// The translation of a formula over so many features.
pub fn translate(alloc: Global, formula: &Formula, features: u8) -> Result<Translation, NoMemory>
    requires { VarsBelow features (condition_of formula.now) }
    ensures { IfOk result
        (λ t. IsTranslation features (condition_of formula.now) t.vars (literals_of t.clauses.items)) }
{
    let mut translation = Translation {
        vars: u32::from(features),
        clauses: Vec::new(alloc),
    };
    let root = translation.define(alloc, formula)?;
    translation.add_unit(alloc, literal(true, root))?;
    Ok(translation)
}

impl Translation {
    // A variable that stands in no clause yet.
    fn fresh(&mut self) -> Result<u32, NoMemory>
        ensures variable { IfOk result (λ v. v ≡ self.old.vars + 1) }
        ensures small { IfOk result (λ v. v < 2147483648) }
        ensures counted { OnOk result (self.new.vars ≡ self.old.vars + 1) }
        ensures clauses { OnOk result (self.new.clauses ≡ self.old.clauses) }
    {
        if self.vars >= LARGEST_VARIABLE {
            return Err(AllocError);
        }
        self.vars += 1;
        Ok(self.vars)
    }

    fn add(&mut self, clause: Vec<i32>) -> Result<(), NoMemory>
        ensures added { OnOk result
            (literals_of self.new.clauses.items ≡ literals_of self.old.clauses.items ++ clause.items ∷ []) }
        ensures counted { OnOk result (self.new.vars ≡ self.old.vars) }
    {
        self.clauses.push(clause)?;
        Ok(())
    }

    fn add_unit(&mut self, alloc: Global, literal: i32) -> Result<(), NoMemory>
        ensures added { OnOk result
            (literals_of self.new.clauses.items ≡ literals_of self.old.clauses.items ++ (literal ∷ []) ∷ []) }
        ensures counted { OnOk result (self.new.vars ≡ self.old.vars) }
    {
        self.add(vec![in alloc; literal]?)?;
        Ok(())
    }

    // Makes the variable true exactly where the part is, or, if not `positive`, exactly where it isn't.
    fn define_link(
        &mut self,
        alloc: Global,
        positive: bool,
        variable: u32,
        part: u32,
    ) -> Result<(), NoMemory>
        requires small { variable < 2147483648 }
        requires part_small { part < 2147483648 }
        ensures added { OnOk result (literals_of self.new.clauses.items
            ≡ literals_of self.old.clauses.items ++ link positive variable part) }
        ensures counted { OnOk result (self.new.vars ≡ self.old.vars) }
    {
        self.add(pair(alloc, false, variable, positive, part)?)?;
        self.add(pair(alloc, true, variable, !positive, part)?)?;
        Ok(())
    }

    // Makes the variable true exactly where each part is, or, if not `positive`, false exactly where each part is.
    fn define_gate(
        &mut self,
        alloc: Global,
        positive: bool,
        variable: u32,
        parts: &[u32],
    ) -> Result<(), NoMemory>
        requires small { variable < 2147483648 }
        requires parts_small { All (λ part. part < 2147483648) parts.now }
        ensures added { OnOk result (literals_of self.new.clauses.items
            ≡ literals_of self.old.clauses.items ++ gate positive variable parts.now) }
        ensures counted { OnOk result (self.new.vars ≡ self.old.vars) }
    {
        self.add(long_clause(alloc, positive, variable, parts)?)?;
        self.add_short(alloc, positive, variable, parts)?;
        Ok(())
    }

    fn add_short(
        &mut self,
        alloc: Global,
        positive: bool,
        variable: u32,
        parts: &[u32],
    ) -> Result<(), NoMemory>
        requires small { variable < 2147483648 }
        requires parts_small { All (λ part. part < 2147483648) parts.now }
        ensures added { OnOk result (literals_of self.new.clauses.items
            ≡ literals_of self.old.clauses.items ++ short_clauses positive variable parts.now) }
        ensures counted { OnOk result (self.new.vars ≡ self.old.vars) }
    {
        for part in parts {
            self.add(pair(alloc, !positive, variable, positive, *part)?)?;
        }
        Ok(())
    }

    // Adds the clauses that define the nodes of the formula, and answers the variable of its root.
    #[cycle(define)]
    #[tactic(auto, using(crate::proofs::NumberingLaws::numberings))]
    fn define(&mut self, alloc: Global, formula: &Formula) -> Result<u32, NoMemory>
        ensures variable { IfOk result (λ v. v ≡ self.old.vars + 1) }
        ensures small { IfOk result (λ v. v < 2147483648) }
        ensures added { OnOk result (literals_of self.new.clauses.items
            ≡ literals_of self.old.clauses.items ++ node_clauses self.old.vars (condition_of formula.now)) }
        ensures counted { OnOk result
            (self.new.vars ≡ self.old.vars + node_count (condition_of formula.now)) }
    {
        let variable = self.fresh()?;
        match formula {
            Formula::True => self.add_unit(alloc, literal(true, variable))?,
            Formula::False => self.add_unit(alloc, literal(false, variable))?,
            Formula::Var(feature) => self.define_link(
                alloc,
                true,
                variable,
                u32::from(*feature) + 1,
            )?,
            Formula::Not(inner) => {
                let part = self.define(alloc, inner)?;
                self.define_link(alloc, false, variable, part)?;
            }
            Formula::And(parts) => {
                let parts = self.define_parts(alloc, parts)?;
                self.define_gate(alloc, true, variable, &parts)?;
            }
            Formula::Or(parts) => {
                let parts = self.define_parts(alloc, parts)?;
                self.define_gate(alloc, false, variable, &parts)?;
            }
        }
        Ok(variable)
    }

    // Adds the clauses that define the nodes of the formulas, and answers the variables of their roots.
    #[cycle(define)]
    #[tactic(auto, using(crate::proofs::NumberingLaws::numberings))]
    fn define_parts(&mut self, alloc: Global, parts: &[Formula]) -> Result<Vec<u32>, NoMemory>
        ensures variables { IfOk result
            (λ vs. vs.items ≡ parts_variables self.old.vars (conditions_of parts.now)) }
        ensures small { IfOk result (λ vs. All (λ v. v < 2147483648) vs.items) }
        ensures added { OnOk result (literals_of self.new.clauses.items
            ≡ literals_of self.old.clauses.items ++ parts_clauses self.old.vars (conditions_of parts.now)) }
        ensures counted { OnOk result
            (self.new.vars ≡ self.old.vars + node_count_of (conditions_of parts.now)) }
    {
        let mut variables = Vec::with_capacity(alloc, parts.len())?;
        for part in parts {
            variables.push(self.define(alloc, part)?)?;
        }
        Ok(variables)
    }
}

// The variable's number, or its negative.
fn literal(positive: bool, variable: u32) -> i32
    requires { variable < 2147483648 }
    ensures { result ≡ signed positive variable }
{
    if positive {
        variable as i32
    } else {
        -(variable as i32)
    }
}

fn pair(
    alloc: Global,
    positive: bool,
    variable: u32,
    part_positive: bool,
    part: u32,
) -> Result<Vec<i32>, NoMemory>
    requires small { variable < 2147483648 }
    requires part_small { part < 2147483648 }
    ensures { IfOk result
        (λ clause. clause.items ≡ signed positive variable ∷ signed part_positive part ∷ []) }
{
    let literals = [literal(positive, variable), literal(part_positive, part)];
    Ok(Vec::from_slice(alloc, &literals)?)
}

fn long_clause(
    alloc: Global,
    positive: bool,
    variable: u32,
    parts: &[u32],
) -> Result<Vec<i32>, NoMemory>
    requires small { variable < 2147483648 }
    requires parts_small { All (λ part. part < 2147483648) parts.now }
    ensures { IfOk result (λ clause. clause.items ≡ long_clause positive variable parts.now) }
{
    let mut clause = Vec::with_capacity(alloc, parts.len() + 1)?;
    clause.push(literal(positive, variable))?;
    for part in parts {
        clause.push(literal(!positive, *part))?;
    }
    Ok(clause)
}
