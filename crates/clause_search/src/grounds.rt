//! What a conflict rests on.

ghost use Rattle.std.specs.Prelude.{◌≡◌, false, slice_index_or, filter, IfOk};
ghost use Rattle.refute_check.specs.Clauses.{variable_of};
ghost use Rattle.clause_search.specs.Following.{AreAmong};

use crate::answers::Step;
use crate::literals::{value_of, variable_of};
use crate::numbers::clause_with;
use crate::trail::Trail;
use cond_formula::NoMemory;
use std::alloc::Global;

/// The decisions and the clauses that lead to a conflict, without those that have no part in it.
#[derive(Drop)]
pub struct Grounds {
    pub decisions: Vec<i32>,
    /// The numbers of the clauses, in the order in which they make literals true, with that of the false clause behind them.
    pub numbers: Vec<u32>,
}

impl Grounds {
    /// What the clause with this number is false for, where `trail` is known from the decisions. This is a choice, of
    /// which nothing is promised but that it is among the decisions: whoever makes a step of it follows it anew.
    pub fn new(
        alloc: Global,
        given: &[Vec<i32>],
        steps: &[Step],
        decisions: &[i32],
        trail: &Trail,
        number: u32,
    ) -> Result<Grounds, NoMemory>
        ensures { IfOk result (λ grounds. AreAmong decisions.now grounds.decisions.items) }
    {
        let mut marks = vec![in alloc; false; trail.values.len()]?;
        let mut numbers = Vec::new(alloc);
        numbers.push(number)?;
        mark(&mut marks, given, steps, number);
        for hint in trail.hints.iter().rev() {
            if is_needed(&marks, given, steps, &trail.values, *hint) {
                mark(&mut marks, given, steps, *hint);
                numbers.push(*hint)?;
            }
        }
        numbers.reverse();
        let decisions = marked(alloc, &marks, decisions)?;
        Ok(Grounds { decisions, numbers })
    }
}

// Whether a variable is marked.
fn is_marked(marks: &[bool], literal: i32) -> bool
    ensures { result ≡ slice_index_or marks.now (variable_of literal) false }
{
    marks.get(variable_of(literal)).copied().unwrap_or(false)
}

// Marks the variables of a clause.
fn mark(marks: &mut Vec<bool>, given: &[Vec<i32>], steps: &[Step], number: u32) {
    if let Some(clause) = clause_with(given, steps, number) {
        for literal in clause {
            let variable = variable_of(*literal);
            if variable < marks.len() {
                marks[variable] = true;
            }
        }
    }
}

// Whether the one literal of a hint's clause that is true has a marked variable.
fn is_needed(
    marks: &[bool],
    given: &[Vec<i32>],
    steps: &[Step],
    values: &[Option<bool>],
    hint: u32,
) -> bool {
    match clause_with(given, steps, hint) {
        Some(clause) => clause.iter().any(|literal| value_of(values, *literal) == Some(true)
            && is_marked(marks, *literal)),
        None => false,
    }
}

// The decisions whose variables are marked.
fn marked(alloc: Global, marks: &[bool], decisions: &[i32]) -> Result<Vec<i32>, NoMemory>
    ensures { IfOk result (λ kept. kept.items
        ≡ filter (λ literal. slice_index_or marks.now (variable_of literal) false) decisions.now) }
{
    decisions
        .iter()
        .copied()
        .filter(|literal| is_marked(marks, *literal))
        .collect(alloc)
}
