//! Alternatives that stand at the same place are one.

ghost use Rattle.std.specs.Prelude.{◌≡◌, ℕ, Bool, not, ◌&&◌, ◌||◌, IsTrue, IfOk, if◌then◌else◌};
ghost use Rattle.cond_formula.specs.Conditions.{condition_of, value};
ghost use Rattle.choice_states.specs.Seen.{Parts};
ghost use Rattle.choice_states.specs.States.{standing};
ghost use Rattle.choice_states.specs.Alike.{StandAlike, StandsAsSplit};

use crate::places::{is_same_kind, is_same_place};
use crate::states::{Closing, State};
use cond_formula::{Formula, NoMemory};
use path_conditions::{left_of, without};
use reduced_conditions::{both, either, is_same};
use std::alloc::Global;

fn is_same_closing(a: Closing, b: Closing) -> bool
    ensures kind { IsTrue result → a.kind ≡ b.kind }
    ensures ended { IsTrue result → a.ended ≡ b.ended }
{
    if !is_same_place(a.ended, b.ended) {
        return false;
    }
    match (a.kind, b.kind) {
        (Some(kind), Some(other)) => is_same_kind(kind, other),
        (None, None) => true,
        _ => false,
    }
}

/// Whether both stand at the same place, whatever has been asked. A `false` says nothing.
#[tactic(auto, using(crate::specs::StateLaws::state_kinds))]
fn are_same(a: &State, b: &State) -> bool
    ensures { IsTrue result → StandAlike a.now b.now }
{
    match (a, b) {
        (State::Dead, State::Dead) => true,
        (State::At(place, _), State::At(other, _)) => is_same_place(*place, *other),
        (State::Closed(closing), State::Closed(other)) => is_same_closing(*closing, *other),
        (State::Unbegun(place, _), State::Unbegun(other, _)) => is_same_place(*place, *other),
        (State::Split(f, first, second), State::Split(g, third, fourth)) => {
            is_same(f, g) && are_same(first, third) && are_same(second, fourth)
        }
        _ => false,
    }
}

/// Whether something is still to be asked of the tokens ahead, or a token waits.
fn is_pending(state: &State) -> bool {
    match state {
        State::At(_, new) => *new,
        State::Closed(closing) => closing.waited_for,
        State::Unbegun(_, waits) => *waits,
        State::Split(_, first, second) => is_pending(first) || is_pending(second),
        _ => false,
    }
}

/// The same state, in which also this is still to be asked, or a token waits.
#[tactic(auto, using(crate::specs::StateLaws::state_kinds))]
fn also_pending(state: State, pending: bool) -> State
    ensures { StandAlike result state }
{
    match state {
        State::At(place, new) => State::At(place, new || pending),
        State::Closed(closing) => State::Closed(Closing {
            kind: closing.kind,
            ended: closing.ended,
            waited_for: closing.waited_for || pending,
        }),
        State::Unbegun(before, waits) => State::Unbegun(before, waits || pending),
        state => state,
    }
}

/// Where the formula is true the one, elsewhere the other.
#[tactic(auto, using(crate::specs::StateLaws::state_kinds))]
pub fn split(alloc: Global, f: Formula, first: State, second: State) -> Result<State, NoMemory>
    ensures { IfOk result (StandsAsSplit f first second) }
{
    Ok(State::Split(f, Box::new(alloc, first)?, Box::new(alloc, second)?))
}

/// Where either formula is true.
fn disjoined(alloc: Global, f: Formula, g: &Formula) -> Result<Formula, NoMemory>
    ensures { IfOk result (λ h. (on : ℕ → Bool) → value on (condition_of h) ≡ (value on (condition_of f) || value on (condition_of g.now))) }
{
    let elsewhere = without(alloc, &[], &f)?;
    let other = left_of(alloc, g, &elsewhere)?;
    let either = either(alloc, f, other)?;
    Ok(either)
}

/// Where the second formula is true and the first isn't.
fn only_second(alloc: Global, f: Formula, g: Formula) -> Result<Formula, NoMemory>
    ensures { IfOk result (λ h. (on : ℕ → Bool) → value on (condition_of h) ≡ (not (value on (condition_of f)) && value on (condition_of g))) }
{
    let elsewhere = Formula::not(alloc, f)?;
    let both = both(alloc, elsewhere, g)?;
    Ok(both)
}

/// Where the formula is true the first, elsewhere by the other formula the second or the third; the first is like one of these.
#[tactic(auto, using(crate::specs::StateLaws::state_kinds))]
fn joined_with_split(
    alloc: Global,
    f: Formula,
    first: State,
    g: Formula,
    second: Box<State>,
    third: Box<State>,
) -> Result<State, NoMemory>
    ensures { IfOk result (λ state. (on : ℕ → Bool) (parts : Parts) → standing state on parts
        ≡ (if value on (condition_of f) then standing first on parts
        else if value on (condition_of g) then standing second.value on parts else standing third.value on parts)) }
{
    if are_same(&first, &second) {
        let either = disjoined(alloc, f, &g)?;
        return Ok(State::Split(either, second, third));
    }
    if are_same(&first, &third) {
        let only = only_second(alloc, f, g)?;
        return Ok(State::Split(only, second, third));
    }
    let state = split(alloc, f, first, State::Split(g, second, third))?;
    Ok(state)
}

/// Where the formula is true the one, elsewhere the other, which isn't the same.
#[tactic(auto, using(crate::specs::StateLaws::state_kinds))]
fn joined_with(alloc: Global, f: Formula, first: State, second: State) -> Result<State, NoMemory>
    ensures { IfOk result (StandsAsSplit f first second) }
{
    match second {
        State::Split(g, third, fourth) => joined_with_split(alloc, f, first, g, third, fourth),
        second => split(alloc, f, first, second),
    }
}

/// Where the formula is true the one, elsewhere the other; one of them, if they are the same.
pub fn joined(alloc: Global, f: Formula, first: State, second: State) -> Result<State, NoMemory>
    ensures { IfOk result (StandsAsSplit f first second) }
{
    if are_same(&first, &second) {
        let pending = is_pending(&first);
        Ok(also_pending(second, pending))
    } else {
        joined_with(alloc, f, first, second)
    }
}
