//! The search: it takes variables as false, one after another, and learns from each conflict.

ghost use Rattle.std.specs.Prelude.{◌≡◌, ℕ, ◌+◌, ◌<◌, pos, true, [], ◌∷◌, ◌++◌, length, IsTrue, IfOk, OnOk, IfSome};
ghost use Rattle.std.specs.List.{list_all};
ghost use Rattle.refute_check.specs.Clauses.{is_clause};
ghost use Rattle.refute_check.specs.Steps.{step_fault};
ghost use Rattle.clause_search.specs.Answers.{literals_of, steps_of, IsFound};
ghost use Rattle.clause_search.specs.Known.{known_of, IsRefutedAt};
ghost use Rattle.clause_search.specs.Following.{numbered};
ghost use Rattle.clause_search.specs.Searches.{IsSearching, IsKnown, AreValued, HasTurned};

use crate::answers::{Found, Step};
use crate::assignments::{first_false, first_open, values_of};
use crate::grounds::Grounds;
use crate::trail::Trail;
use crate::watched::Watched;
use cond_formula::NoMemory;
use std::alloc::{AllocError, Global};

// How far a search has come.
#[derive(Drop)]
struct State {
    steps: Vec<Step>,
    // The variables that are taken as false, in ascending order.
    decisions: Vec<i32>,
    watched: Watched,
}

// What a turn comes to.
#[derive(Drop)]
enum Turn {
    Onward,
    Least(Vec<bool>),
    Refuted,
}

/// The least assignment of variables 1 up to `vars` that satisfies the clauses, or a refutation of them.
///
/// It takes the first variable whose value isn't forced as false, and so on. Where that leads to a conflict, a step says
/// that one of the decisions which led there is wrong, and the last of these and those after it are taken back.
pub fn search(alloc: Global, vars: u32, clauses: &[Vec<i32>]) -> Result<Found, NoMemory>
    requires few { vars < 2147483648 }
    requires formed { IsTrue (list_all (is_clause vars) (literals_of clauses.now)) }
    ensures { IfOk result (IsFound vars (literals_of clauses.now)) }
{
    let mut state = begun(alloc, clauses.len())?;
    for _ in 0..u64::MAX {
        match take_turn(alloc, vars, clauses, &mut state)? {
            Turn::Onward => {}
            Turn::Least(values) => return Ok(Found::Least(values)),
            Turn::Refuted => return Ok(Found::Refuted(state.steps)),
        }
    }
    Err(AllocError)
}

fn begun(alloc: Global, given: usize) -> Result<State, NoMemory>
    ensures steps { IfOk result (λ state. state.steps.items ≡ []) }
    ensures decisions { IfOk result (λ state. state.decisions.items ≡ []) }
{
    let given = u32::try_from(given).map_err(|_| AllocError)?;
    let watched = Watched::new(alloc, given)?;
    Ok(State {
        steps: Vec::new(alloc),
        decisions: Vec::new(alloc),
        watched,
    })
}

fn take_turn(
    alloc: Global,
    vars: u32,
    given: &[Vec<i32>],
    state: &mut State,
) -> Result<Turn, NoMemory>
    requires few { vars < 2147483648 }
    requires formed { IsTrue (list_all (is_clause vars) (literals_of given.now)) }
    requires searching { IsSearching vars (literals_of given.now) state.old }
    ensures { IfOk result (HasTurned vars (literals_of given.now) state.new) }
{
    let mut trail = Trail::new(alloc, vars, &state.decisions)?;
    let conflict = trail.propagate(given, &state.steps, state.watched.numbers())?;
    match conflict {
        Some(number) => {
            let turn = learn(alloc, vars, given, state, trail, number)?;
            Ok(turn)
        }
        None => {
            let turn = settle(alloc, vars, given, state, trail)?;
            Ok(turn)
        }
    }
}

// Adds a step, since the decisions make the clause with this number false.
fn learn(
    alloc: Global,
    vars: u32,
    given: &[Vec<i32>],
    state: &mut State,
    trail: Trail,
    number: u32,
) -> Result<Turn, NoMemory>
    requires formed { IsTrue (list_all (is_clause vars) (literals_of given.now)) }
    requires searching { IsSearching vars (literals_of given.now) state.old }
    requires known { IsKnown vars (literals_of given.now) state.old (known_of trail) }
    requires refuted { IsRefutedAt (numbered (literals_of given.now) (steps_of state.old.steps.items)) (known_of trail) number }
    ensures { IfOk result (HasTurned vars (literals_of given.now) state.new) }
{
    let grounds = Grounds::new(alloc, given, &state.steps, &state.decisions, &trail, number)?;
    let found = refuting_hints(
        alloc,
        vars,
        given,
        &state.steps,
        &grounds.decisions,
        &grounds.numbers,
    )?;
    match found {
        Some(hints) => {
            let turn = add_step(given, state, grounds.decisions, hints)?;
            Ok(turn)
        }
        // What has no part in a conflict isn't needed to find it, so this doesn't come up; but all decisions would do.
        None => {
            let decisions = Vec::from_slice(alloc, &state.decisions)?;
            let hints = with_last(trail, number)?;
            let turn = add_step(given, state, decisions, hints)?;
            Ok(turn)
        }
    }
}

// The hints by which these decisions lead to a false clause, if the clauses with these numbers, in this order, suffice.
fn refuting_hints(
    alloc: Global,
    vars: u32,
    given: &[Vec<i32>],
    steps: &[Step],
    decisions: &[i32],
    numbers: &[u32],
) -> Result<Option<Vec<u32>>, NoMemory>
    requires { is_clause vars decisions.now ≡ true }
    ensures { IfOk result (λ found. IfSome found (λ hints.
        step_fault vars (numbered (literals_of given.now) (steps_of steps.now)) decisions.now hints.items ≡ None)) }
{
    let mut trail = Trail::new(alloc, vars, decisions)?;
    let conflict = trail.propagate(given, steps, numbers)?;
    match conflict {
        Some(number) => {
            let hints = with_last(trail, number)?;
            Ok(Some(hints))
        }
        None => Ok(None),
    }
}

// The hints, with the number of a false clause behind them.
fn with_last(trail: Trail, number: u32) -> Result<Vec<u32>, NoMemory>
    ensures { IfOk result (λ hints. hints.items ≡ trail.hints.items ++ number ∷ []) }
{
    let Trail { mut hints, .. } = trail;
    hints.push(number)?;
    Ok(hints)
}

// Adds the step that one of some decisions is wrong, and takes back the last of these and those after it.
fn add_step(
    given: &[Vec<i32>],
    state: &mut State,
    clause: Vec<i32>,
    hints: Vec<u32>,
) -> Result<Turn, NoMemory>
    ensures { IfOk result (λ turn. (vars : ℕ)
        → IsTrue (list_all (is_clause vars) (literals_of given.now))
        → IsSearching vars (literals_of given.now) state.old
        → step_fault vars (numbered (literals_of given.now) (steps_of state.old.steps.items)) clause.items hints.items ≡ None
        → HasTurned vars (literals_of given.now) state.new turn) }
{
    let step = number_at(given.len() + state.steps.len())?;
    let last = clause.last().copied();
    state.steps.push(Step { clause, hints })?;
    match last {
        None => Ok(Turn::Refuted),
        Some(literal) => {
            let count = place_of(&state.decisions, literal);
            state.decisions.truncate(count);
            state.watched.take_back(count, step)?;
            Ok(Turn::Onward)
        }
    }
}

// How many decisions there are before this one.
fn place_of(decisions: &[i32], literal: i32) -> usize {
    decisions
        .iter()
        .position(|decision| *decision == literal)
        .unwrap_or(0)
}

// Where no clause was found to be false: the next decision, if there is a variable without value.
fn settle(
    alloc: Global,
    vars: u32,
    given: &[Vec<i32>],
    state: &mut State,
    trail: Trail,
) -> Result<Turn, NoMemory>
    requires few { vars < 2147483648 }
    requires formed { IsTrue (list_all (is_clause vars) (literals_of given.now)) }
    requires searching { IsSearching vars (literals_of given.now) state.old }
    requires known { IsKnown vars (literals_of given.now) state.old (known_of trail) }
    ensures { IfOk result (HasTurned vars (literals_of given.now) state.new) }
{
    match first_open(&trail.values) {
        Some(variable) => {
            decide(state, variable)?;
            Ok(Turn::Onward)
        }
        None => {
            let turn = finish(alloc, vars, given, state, trail)?;
            Ok(turn)
        }
    }
}

// Takes a variable as false.
fn decide(state: &mut State, variable: usize) -> Result<(), NoMemory>
    requires { variable < 2147483648 }
    ensures steps { OnOk result (state.new.steps.items ≡ state.old.steps.items) }
    ensures decisions { OnOk result
        (state.new.decisions.items ≡ state.old.decisions.items ++ pos variable ∷ []) }
{
    state.decisions.push(variable as i32)?;
    state.watched.decide()?;
    Ok(())
}

// Where all variables have values: they satisfy the clauses, if none of these is false.
fn finish(
    alloc: Global,
    vars: u32,
    given: &[Vec<i32>],
    state: &mut State,
    trail: Trail,
) -> Result<Turn, NoMemory>
    requires formed { IsTrue (list_all (is_clause vars) (literals_of given.now)) }
    requires searching { IsSearching vars (literals_of given.now) state.old }
    requires known { IsKnown vars (literals_of given.now) state.old (known_of trail) }
    requires valued { AreValued trail.values.items (length trail.values.items) }
    ensures { IfOk result (HasTurned vars (literals_of given.now) state.new) }
{
    match first_false(&trail.values, given) {
        Some(index) => {
            let number = number_at(index)?;
            let turn = learn(alloc, vars, given, state, trail, number)?;
            Ok(turn)
        }
        None => {
            let values = values_of(alloc, &trail.values)?;
            Ok(Turn::Least(values))
        }
    }
}

// The number of a clause, of which there are more than the numbers only where memory is wanting.
fn number_at(index: usize) -> Result<u32, NoMemory>
    ensures { IfOk result (λ number. number ≡ index + 1) }
{
    if index < u32::MAX as usize {
        Ok(index as u32 + 1)
    } else {
        Err(AllocError)
    }
}
