//! What the tokens ahead do at a place.

ghost use Rattle.std.specs.Prelude.{◌≡◌, Option, IsTrue, IfOk, IfSome};
ghost use Rattle.c_tree.specs.Places.{move};
ghost use Rattle.grammar_moves.specs.PlainPlaces.{plain_place};
ghost use Rattle.grammar_moves.specs.PlainMoves.{plain_action};
ghost use Rattle.choice_lookahead.specs.Ahead.{plain_ending, begins_part, AgreesWith, EachEnds, NoneBegins};

use c_tree::{Kind, Terminal, terminal};
use cond_formula::{Formula, NoMemory};
use cond_tokens::CondToken;
use grammar_moves::{Action, Place, next_move};
use path_conditions::{copied, exclude, follows, is_excluded};
use std::alloc::Global;

/// How a token ends a node: so many parts are left out, and it is a node of this kind, or its one part.
#[derive(Clone, Copy)]
pub struct Ending {
    pub skipped: usize,
    pub kind: Option<Kind>,
}

fn is_entering(action: Action) -> bool
    ensures { result ≡ begins_part (plain_action action) }
{
    match action {
        Action::Shifts(_) => false,
        Action::Enters(..) => true,
        Action::Takes(..) => false,
        Action::Finishes(_) => false,
        Action::Passes => false,
        Action::Fails => false,
    }
}

/// Whether a part begins with a token at a place.
pub fn enters(place: Place, token: Terminal) -> bool
    ensures { result ≡ begins_part (move (plain_place place) token) }
{
    let next = next_move(place, token);
    is_entering(next.action)
}

/// How a token ends the node at a place. A unit is ended by the end of the text alone.
fn ending_at(place: Place, token: Terminal) -> Option<Ending>
    ensures { IfSome result (λ ending. move (plain_place place) token ≡ plain_ending ending) }
{
    let next = next_move(place, token);
    match next.action {
        Action::Finishes(Kind::Unit) => None,
        Action::Finishes(kind) => Some(Ending {
            skipped: next.skipped,
            kind: Some(kind),
        }),
        Action::Passes => Some(Ending {
            skipped: next.skipped,
            kind: None,
        }),
        _ => None,
    }
}

fn is_same_kind(a: Kind, b: Kind) -> bool
    ensures { IsTrue result → a ≡ b }
{
    a == b
}

fn are_same_kinds(a: Option<Kind>, b: Option<Kind>) -> bool
    ensures { IsTrue result → a ≡ b }
{
    match (a, b) {
        (Some(kind), Some(other)) => is_same_kind(kind, other),
        (None, None) => true,
        _ => false,
    }
}

#[tactic(auto, using(crate::proofs::Asking::same_ending))]
fn is_same_ending(a: Ending, b: Ending) -> bool
    ensures { IsTrue result → plain_ending a ≡ plain_ending b }
{
    a.skipped == b.skipped && are_same_kinds(a.kind, b.kind)
}

/// How a token ends the node, if it is as others do.
fn also_ending(place: Place, token: Terminal, others: Option<Ending>) -> Option<Ending>
    ensures ends { IfSome result (λ ending. move (plain_place place) token ≡ plain_ending ending) }
    ensures others { IfSome result (λ ending. AgreesWith others ending) }
{
    let ending = ending_at(place, token)?;
    match others {
        Some(other) if !is_same_ending(ending, other) => None,
        _ => Some(ending),
    }
}

/// How the next token ends the node at a place, if each does so in the same way that may come next on the path.
pub fn next_ending(
    alloc: Global,
    path: &[Formula],
    place: Place,
    ahead: &[CondToken],
) -> Result<Option<Ending>, NoMemory>
    ensures { IfOk result (λ found. IfSome found (EachEnds path.now (plain_place place) ahead.now)) }
{
    let mut known = copied(alloc, path)?;
    let mut found = None;
    for entry in ahead {
        if !is_excluded(&entry.when, &known) {
            let Some(ending) = also_ending(place, terminal(&entry.token), found) else {
                return Ok(None);
            };
            if follows(&entry.when, &known) {
                return Ok(Some(ending));
            }
            exclude(&mut known, alloc, &entry.when)?;
            found = Some(ending);
        }
    }
    Ok(also_ending(place, Terminal::Other, found))
}

/// Whether no part begins at a place with any token that may come next on the path.
pub fn begins_nothing(
    alloc: Global,
    path: &[Formula],
    place: Place,
    ahead: &[CondToken],
) -> Result<bool, NoMemory>
    ensures { IfOk result (NoneBegins path.now (plain_place place) ahead.now) }
{
    let mut known = copied(alloc, path)?;
    for entry in ahead {
        if !is_excluded(&entry.when, &known) {
            if enters(place, terminal(&entry.token)) {
                return Ok(false);
            }
            if follows(&entry.when, &known) {
                return Ok(true);
            }
            exclude(&mut known, alloc, &entry.when)?;
        }
    }
    Ok(!enters(place, Terminal::Other))
}
