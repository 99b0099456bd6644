//! The tokens that are reached from one.

ghost use Rattle.std.specs.Prelude.{◌↔◌, IsTrue, Contains, IfOk};
ghost use Rattle.program_occurrences.specs.Classes.{PlainFileToken};
ghost use Rattle.tied_tokens.specs.Tokens.{plain_file_token, plain_file_tokens, AreInOrder};
ghost use Rattle.tied_tokens.specs.Ties.{plain_tie, plain_tied_tokens, NamesFeaturesBelow};
ghost use Rattle.tied_tokens.specs.Reached.{IsReached, OccursBy, OccursSomewhere};

use crate::questions::{first_tried, is_possible};
use crate::steps::visit;
use crate::ties::{Tie, TiedTokens};
use crate::tokens::{in_order, is_same};
use c_text::FileToken;
use cond_formula::{Config, NoMemory};
use std::alloc::Global;

/// The tokens that are reached, in the order in which they are found.
fn reached_from(
    alloc: Global,
    all: &TiedTokens<'_>,
    place: &FileToken,
) -> Result<Vec<FileToken>, NoMemory>
    requires { NamesFeaturesBelow 128 (plain_tied_tokens all.now) }
    ensures { IfOk result (λ found. (token : PlainFileToken) → Contains (plain_file_tokens found.items) token ↔ IsReached (plain_tied_tokens all.now) (plain_file_token place.now) token) }
{
    let mut found = vec![in alloc; *place]?;
    let mut tried = first_tried(alloc)?;
    let mut next = 0;
    while next < found.len() {
        let member = found[next];
        visit(alloc, all, &member, &mut found, &mut tried)?;
        next += 1;
    }
    Ok(found)
}

/// The tokens that are reached from the place along ties, each of which is true in some configuration that the model admits and that
/// is accepted: in the order of the files and of their texts, each once.
pub fn class_of_ties(
    alloc: Global,
    all: &TiedTokens<'_>,
    place: &FileToken,
) -> Result<Vec<FileToken>, NoMemory>
    requires { NamesFeaturesBelow 128 (plain_tied_tokens all.now) }
    ensures reached { IfOk result (λ class. (token : PlainFileToken) → Contains (plain_file_tokens class.items) token ↔ IsReached (plain_tied_tokens all.now) (plain_file_token place.now) token) }
    ensures in_order { IfOk result (λ class. AreInOrder (plain_file_tokens class.items)) }
{
    let found = reached_from(alloc, all, place)?;
    in_order(alloc, &found)
}

/// Whether the tie's identifier stands at the place and is declared somewhere.
fn occurs_by(
    alloc: Global,
    all: &TiedTokens<'_>,
    tie: &Tie,
    place: &FileToken,
    tried: &mut Vec<Config>,
) -> Result<bool, NoMemory>
    requires numbered { NamesFeaturesBelow 128 (plain_tied_tokens all.now) }
    requires among { Contains (plain_tied_tokens all.now).ties (plain_tie tie.now) }
    ensures { IfOk result (λ b. IsTrue b ↔ OccursBy (plain_tied_tokens all.now) (plain_file_token place.now) (plain_tie tie.now)) }
{
    if !is_same(&tie.identifier, place) {
        return Ok(false);
    }
    is_possible(alloc, all, &tie.when, tried)
}

/// Whether the token at the place is that of an identifier which is declared, in some configuration that the model admits and that
/// is accepted.
pub fn occurs_somewhere(
    alloc: Global,
    all: &TiedTokens<'_>,
    place: &FileToken,
) -> Result<bool, NoMemory>
    requires { NamesFeaturesBelow 128 (plain_tied_tokens all.now) }
    ensures { IfOk result (λ b. IsTrue b ↔ OccursSomewhere (plain_tied_tokens all.now) (plain_file_token place.now)) }
{
    let mut tried = first_tried(alloc)?;
    for tie in all.ties {
        if occurs_by(alloc, all, tie, place, &mut tried)? {
            return Ok(true);
        }
    }
    Ok(false)
}
