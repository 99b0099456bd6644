//! Unit propagation, which keeps the hints by which a step is checked.

ghost use Rattle.std.specs.Prelude.{◌≡◌, ◌+◌, false, [], IfOk, IfSome, IfNone};
ghost use Rattle.refute_check.specs.Steps.{Judgement, value_of, is_false, all_false, judged, judgement, clause_at, hint_judgement, no_values, all_taken_false};
ghost use Rattle.clause_search.specs.Answers.{literals_of, steps_of};
ghost use Rattle.clause_search.specs.Following.{numbered};

use crate::answers::Step;
use crate::literals::{are_false, is_false_literal, take_false, take_true, value_of};
use crate::numbers::clause_with;
use cond_formula::NoMemory;
use std::alloc::{AllocError, Global};

/// What is known of the variables from some decisions.
#[derive(Drop)]
pub struct Trail {
    /// By the variables' numbers; the place of number 0 isn't used.
    pub values: Vec<Option<bool>>,
    /// The numbers of the clauses that gave the values which weren't decided, in the order in which they did.
    pub hints: Vec<u32>,
}

/// What looking at a clause does.
pub enum Effect {
    /// All its literals are false.
    Refutes,
    /// The one literal that had no value, beside false ones, is now true.
    Extends,
    /// The clause is neither.
    Idle,
}

/// What looking at all clauses once comes to.
pub enum Pass {
    /// All literals of the clause with this number are false.
    Conflict(u32),
    /// More is known.
    Changed,
    /// No clause made a literal true.
    Stable,
}

impl Trail {
    ghost use Rattle.clause_search.specs.Known.{known_of, HasEffect, GoesOn, IsRefutedAt, IsSettled, HasPassed};

    /// What is known before any clause is looked at: the literals of `decisions` are false.
    pub fn new(alloc: Global, vars: u32, decisions: &[i32]) -> Result<Trail, NoMemory>
        ensures values { IfOk result (λ trail. trail.values.items ≡ all_taken_false (no_values vars) decisions.now) }
        ensures hints { IfOk result (λ trail. trail.hints.items ≡ []) }
    {
        let mut values = vec![in alloc; None; vars as usize + 1]?;
        for literal in decisions {
            take_false(&mut values, *literal);
        }
        Ok(Trail {
            values,
            hints: Vec::new(alloc),
        })
    }

    /// Looks at clauses again and again, as long as one of them makes a literal true. The answer is the number of a
    /// clause whose literals are all false, if one is found.
    pub fn propagate(
        &mut self,
        given: &[Vec<i32>],
        steps: &[Step],
        numbers: &[u32],
    ) -> Result<Option<u32>, NoMemory>
        ensures goes_on { IfOk result
            (λ _. GoesOn (numbered (literals_of given.now) (steps_of steps.now)) (known_of self.old) (known_of self.new)) }
        ensures conflict { IfOk result
            (λ conflict. IfSome conflict (IsRefutedAt (numbered (literals_of given.now) (steps_of steps.now)) (known_of self.new))) }
        ensures settled { IfOk result
            (λ conflict. IfNone conflict (IsSettled (numbered (literals_of given.now) (steps_of steps.now)) (known_of self.new) numbers.now)) }
    {
        for _ in 0..u64::MAX {
            match self.pass(given, steps, numbers)? {
                Pass::Conflict(number) => return Ok(Some(number)),
                Pass::Changed => {}
                Pass::Stable => return Ok(None),
            }
        }
        Err(AllocError)
    }

    // Looks at each clause once.
    fn pass(
        &mut self,
        given: &[Vec<i32>],
        steps: &[Step],
        numbers: &[u32],
    ) -> Result<Pass, NoMemory>
        ensures goes_on { IfOk result
            (λ _. GoesOn (numbered (literals_of given.now) (steps_of steps.now)) (known_of self.old) (known_of self.new)) }
        ensures conflict { IfOk result
            (HasPassed (numbered (literals_of given.now) (steps_of steps.now)) numbers.now (known_of self.new)) }
    {
        let mut changed = false;
        for number in numbers {
            match self.look_up(given, steps, *number)? {
                Effect::Refutes => return Ok(Pass::Conflict(*number)),
                Effect::Extends => changed = true,
                Effect::Idle => {}
            }
        }
        Ok(if changed { Pass::Changed } else { Pass::Stable })
    }

    fn look_up(
        &mut self,
        given: &[Vec<i32>],
        steps: &[Step],
        number: u32,
    ) -> Result<Effect, NoMemory>
        ensures { IfOk result (λ effect. HasEffect
            (hint_judgement self.old.values.items (clause_at (numbered (literals_of given.now) (steps_of steps.now)) number))
            number effect (known_of self.old) (known_of self.new)) }
    {
        match clause_with(given, steps, number) {
            None => Ok(Effect::Idle),
            Some(clause) => {
                let effect = self.look_at(number, clause)?;
                Ok(effect)
            }
        }
    }

    fn look_at(&mut self, number: u32, clause: &[i32]) -> Result<Effect, NoMemory>
        ensures { IfOk result (λ effect. HasEffect (judgement self.old.values.items clause.now)
            number effect (known_of self.old) (known_of self.new)) }
    {
        for (index, literal) in clause.iter().enumerate() {
            if !is_false_literal(&self.values, *literal) {
                let effect = self.extend(number, *literal, &clause[index + 1..])?;
                return Ok(effect);
            }
        }
        Ok(Effect::Refutes)
    }

    // Makes a literal true that has no value, if the other literals are false.
    fn extend(&mut self, number: u32, literal: i32, others: &[i32]) -> Result<Effect, NoMemory>
        requires { is_false (value_of self.old.values.items literal) ≡ false }
        ensures { IfOk result (λ effect. (rest : Judgement) → HasEffect
            (judged (value_of self.old.values.items literal) literal (all_false self.old.values.items others.now) rest)
            number effect (known_of self.old) (known_of self.new)) }
    {
        if value_of(&self.values, literal).is_some() {
            return Ok(Effect::Idle);
        }
        if !are_false(&self.values, others) {
            return Ok(Effect::Idle);
        }
        self.hints.push(number)?;
        take_true(&mut self.values, literal);
        Ok(Effect::Extends)
    }
}
