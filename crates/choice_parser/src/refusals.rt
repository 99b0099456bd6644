//! Where no unit goes on so.

ghost use Rattle.std.specs.Prelude.{◌≡◌, ℕ, Bool, false, ◌||◌, IfOk, OnOk};
ghost use Rattle.cond_formula.specs.Conditions.{condition_of, conditions_of, value, all_true};
ghost use Rattle.choice_parser.specs.Deaths.{NoneIsDead, DeadIsWrong, Lives, LivesIfSome, LivesAsSplit, IsRefused};

use choice_states::{State, joined};
use cond_formula::{Formula, NoMemory};
use path_conditions::{conjoined, with, without};
use std::alloc::Global;

/// Whether some alternative is dead.
#[tactic(auto, using(crate::specs::DeathLaws::death_kinds, choice_states::specs::StateLaws::state_kinds))]
fn has_dead(state: &State) -> bool
    ensures { result ≡ false → NoneIsDead state.now }
{
    match state {
        State::Dead => true,
        State::In(_, _, rest) => has_dead(rest),
        State::Split(_, first, second) => has_dead(first) || has_dead(second),
        State::At(..) => false,
        State::Closed(_) => false,
        State::Unbegun(..) => false,
        State::Taken(..) => false,
    }
}

/// What is left without dead alternatives; where they are is refused.
pub fn buried(
    alloc: Global,
    state: State,
    path: &[Formula],
    refused: &mut Formula,
) -> Result<State, NoMemory>
    ensures dead { IfOk result (λ new. DeadIsWrong state) }
    ensures lives { IfOk result (Lives path.now state) }
    ensures refused { IfOk result (λ new. IsRefused path.now state refused.old refused.new) }
{
    if !has_dead(&state) {
        return Ok(state);
    }
    match living(alloc, state, path, refused)? {
        Some(state) => Ok(state),
        None => Ok(State::Dead),
    }
}

/// What is left without dead alternatives, if anything is; where they are is refused.
#[tactic(auto, using(crate::specs::DeathLaws::death_kinds, choice_states::specs::StateLaws::state_kinds, crate::proofs::RefusalLemmas::dead_within))]
fn living(
    alloc: Global,
    state: State,
    path: &[Formula],
    refused: &mut Formula,
) -> Result<Option<State>, NoMemory>
    ensures dead { IfOk result (λ new. DeadIsWrong state) }
    ensures lives { IfOk result (LivesIfSome path.now state) }
    ensures refused { IfOk result (λ new. IsRefused path.now state refused.old refused.new) }
{
    match state {
        State::Dead => {
            refuse(alloc, path, refused)?;
            Ok(None)
        }
        State::In(place, parts, rest) => {
            match living(alloc, Box::into_inner(rest), path, refused)? {
                None => Ok(None),
                Some(rest) => Ok(Some(State::In(place, parts, Box::new(alloc, rest)?))),
            }
        }
        State::Split(f, first, second) => {
            let first_path = with(alloc, path, &f)?;
            let first = living(alloc, Box::into_inner(first), &first_path, refused)?;
            let second_path = without(alloc, path, &f)?;
            let second = living(alloc, Box::into_inner(second), &second_path, refused)?;
            either_living(alloc, f, first, second)
        }
        State::At(place, new) => Ok(Some(State::At(place, new))),
        State::Closed(closing) => Ok(Some(State::Closed(closing))),
        State::Unbegun(around, waits) => Ok(Some(State::Unbegun(around, waits))),
        State::Taken(behind, second) => Ok(Some(State::Taken(behind, second))),
    }
}

fn refuse(alloc: Global, path: &[Formula], refused: &mut Formula) -> Result<(), NoMemory>
    ensures { OnOk result ((on : ℕ → Bool) → value on (condition_of refused.new) ≡ (value on (condition_of refused.old) || all_true on (conditions_of path.now))) }
{
    let before = std::mem::replace(refused, Formula::True);
    *refused = Formula::or(alloc, before, conjoined(alloc, path)?)?;
    Ok(())
}

/// The one where the formula is true, the other elsewhere, as far as they live.
fn either_living(
    alloc: Global,
    f: Formula,
    first: Option<State>,
    second: Option<State>,
) -> Result<Option<State>, NoMemory>
    ensures { IfOk result (LivesAsSplit f first second) }
{
    match (first, second) {
        (None, second) => Ok(second),
        (first, None) => Ok(first),
        (Some(first), Some(second)) => Ok(Some(joined(alloc, f, first, second)?)),
    }
}
