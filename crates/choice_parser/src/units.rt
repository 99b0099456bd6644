//! The list of a unit's items: what has left it, and what is whole where the text ends.

ghost use Rattle.std.specs.Prelude.{◌≡◌, ℕ, Bool, false, ◌||◌, Some, None, IsTrue, IfOk};
ghost use Rattle.c_tree.specs.declared.kinds.Kind.TheVariants.{Unit};
ghost use Rattle.cond_formula.specs.Conditions.{condition_of, conditions_of, value, all_true};
ghost use Rattle.c_text.specs.Token.{plain_token};
ghost use Rattle.c_tree.specs.declared.terminals.Terminal.TheVariants.{Other};
ghost use Rattle.c_tree.specs.Terminals.{terminal};
ghost use Rattle.choice_states.specs.Seen.{Parts};
ghost use Rattle.choice_states.specs.Lists.{whole_fits_in};
ghost use Rattle.choice_states.specs.States.{standing};
ghost use Rattle.choice_parser.specs.Units.{IsInUnit, IsRefusedHere};

use c_text::{Origin, Place as TextPlace, Token, TokenKind};
use c_tree::Kind;
use choice_states::{State, split};
use cond_formula::{Formula, NoMemory};
use cond_tokens::CondToken;
use path_conditions::{conjoined, with, without};
use std::alloc::Global;
use text_edits::Span;

/// The end of the text, as a token that no unit has.
#[tactic(auto, using(cond_formula::specs::ConditionLaws::formula_kinds))]
pub fn end_of_text(alloc: Global) -> CondToken
    ensures kind { terminal (plain_token result.token) ≡ Other }
    ensures there { (on : ℕ → Bool) → IsTrue (value on (condition_of result.when)) }
{
    let nowhere = Span { start: 0, end: 0 };
    CondToken {
        token: Token {
            kind: TokenKind::Punctuator,
            text: Vec::new(alloc),
            joined: false,
            origin: Origin {
                file: 0,
                span: nowhere,
                place: TextPlace::MacroBody,
                site: nowhere,
                site_file: 0,
            },
        },
        when: Formula::True,
    }
}

/// What has left the unit is dead; and so is what a node around it would take, since none is around it.
#[tactic(auto, using(choice_states::specs::StateLaws::state_kinds, crate::proofs::UnitLemmas::still_kinds))]
pub fn still_in_unit(alloc: Global, state: State) -> Result<State, NoMemory>
    ensures { IfOk result (λ new. (on : ℕ → Bool) (parts : Parts) → IsInUnit (standing state on parts) (standing new on parts)) }
{
    match state {
        State::Closed(_) => Ok(State::Dead),
        State::Unbegun(..) => Ok(State::Dead),
        State::Taken(..) => Ok(State::Dead),
        State::Split(f, first, second) => {
            let first = still_in_unit(alloc, Box::into_inner(first))?;
            let second = still_in_unit(alloc, Box::into_inner(second))?;
            let state = split(alloc, f, first, second)?;
            Ok(state)
        }
        State::At(place, new) => Ok(State::At(place, new)),
        State::In(place, parts, rest) => Ok(State::In(place, parts, rest)),
        State::Dead => Ok(State::Dead),
    }
}

fn is_unit(kind: Option<Kind>) -> bool
    ensures unit { IsTrue result → kind ≡ Some Unit }
    ensures other { result ≡ false → whole_fits_in kind None ≡ false }
{
    match kind {
        Some(Kind::Unit) => true,
        _ => false,
    }
}

/// Refused on the path too.
fn refused_on(alloc: Global, path: &[Formula], refused: Formula) -> Result<Formula, NoMemory>
    ensures { IfOk result (λ new. (on : ℕ → Bool) → value on (condition_of new) ≡ (value on (condition_of refused) || all_true on (conditions_of path.now))) }
{
    let here = conjoined(alloc, path)?;
    Formula::or(alloc, refused, here)
}

/// Where the state, at the end of the text, isn't a whole unit.
#[tactic(auto, using(choice_states::specs::StateLaws::state_kinds, crate::proofs::UnitLemmas::end_kinds))]
pub fn refused_in(
    alloc: Global,
    state: &State,
    path: &[Formula],
    refused: Formula,
) -> Result<Formula, NoMemory>
    ensures { IfOk result (λ new. (on : ℕ → Bool) (parts : Parts) → IsRefusedHere (standing state.now on parts) parts (all_true on (conditions_of path.now)) (value on (condition_of refused)) (value on (condition_of new))) }
{
    match state {
        State::Closed(closing) => if is_unit(closing.kind) {
            Ok(refused)
        } else {
            refused_on(alloc, path, refused)
        },
        State::Taken(..) => refused_on(alloc, path, refused),
        State::Split(f, first, second) => {
            let first_path = with(alloc, path, f)?;
            let refused = refused_in(alloc, first, &first_path, refused)?;
            let second_path = without(alloc, path, f)?;
            refused_in(alloc, second, &second_path, refused)
        }
        State::Unbegun(..) => refused_on(alloc, path, refused),
        State::At(..) => refused_on(alloc, path, refused),
        State::In(..) => refused_on(alloc, path, refused),
        State::Dead => refused_on(alloc, path, refused),
    }
}
