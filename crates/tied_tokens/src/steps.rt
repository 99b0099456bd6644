//! What one token is tied to.

ghost use Rattle.std.specs.Prelude.{◌≡◌, All, Contains, OnOk};
ghost use Rattle.cond_formula.specs.Conditions.{condition_of, VarsBelow};
ghost use Rattle.tied_tokens.specs.Tokens.{plain_file_token, plain_file_tokens};
ghost use Rattle.tied_tokens.specs.Ties.{plain_tie, plain_declared_name, plain_tied_tokens, NamesFeaturesBelow};
ghost use Rattle.tied_tokens.specs.Search.{Grows, IsTried, LeadsOn, LeadsBack, LeadsInto, NameLeadsInto, NamesLeadInto, IsVisited};

use crate::names::{DeclaredName, is_same_name};
use crate::questions::is_possible;
use crate::ties::{Tie, TiedTokens};
use crate::tokens::{is_among, is_same};
use c_text::FileToken;
use cond_formula::{Config, Formula, NoMemory};
use std::alloc::Global;

/// Finds the token where the condition is possible. Nothing is asked of a token that is found already.
fn try_token(
    alloc: Global,
    all: &TiedTokens<'_>,
    when: &Formula,
    token: &FileToken,
    found: &mut Vec<FileToken>,
    tried: &mut Vec<Config>,
) -> Result<(), NoMemory>
    requires numbered { NamesFeaturesBelow 128 (plain_tied_tokens all.now) }
    requires condition { VarsBelow 128 (condition_of when.now) }
    ensures { OnOk result (IsTried (plain_tied_tokens all.now) (condition_of when.now) (plain_file_token token.now) (plain_file_tokens found.old.items) (plain_file_tokens found.new.items)) }
{
    if is_among(found, token) {
        return Ok(());
    }
    if is_possible(alloc, all, when, tried)? {
        found.push(*token)?;
    }
    Ok(())
}

/// Goes from an identifier to what declares it.
fn try_declaration(
    alloc: Global,
    all: &TiedTokens<'_>,
    member: &FileToken,
    tie: &Tie,
    found: &mut Vec<FileToken>,
    tried: &mut Vec<Config>,
) -> Result<(), NoMemory>
    requires numbered { NamesFeaturesBelow 128 (plain_tied_tokens all.now) }
    requires among { Contains (plain_tied_tokens all.now).ties (plain_tie tie.now) }
    ensures grows { OnOk result (Grows (plain_tied_tokens all.now) (plain_file_token member.now) (plain_file_tokens found.old.items) (plain_file_tokens found.new.items)) }
    ensures leads { OnOk result (LeadsOn (plain_tied_tokens all.now) (plain_file_token member.now) (plain_file_tokens found.new.items) (plain_tie tie.now)) }
{
    if is_same(&tie.identifier, member) {
        try_token(alloc, all, &tie.when, &tie.declared_by, found, tried)?;
    }
    Ok(())
}

/// Goes from what declares an identifier to it.
fn try_identifier(
    alloc: Global,
    all: &TiedTokens<'_>,
    member: &FileToken,
    tie: &Tie,
    found: &mut Vec<FileToken>,
    tried: &mut Vec<Config>,
) -> Result<(), NoMemory>
    requires numbered { NamesFeaturesBelow 128 (plain_tied_tokens all.now) }
    requires among { Contains (plain_tied_tokens all.now).ties (plain_tie tie.now) }
    ensures grows { OnOk result (Grows (plain_tied_tokens all.now) (plain_file_token member.now) (plain_file_tokens found.old.items) (plain_file_tokens found.new.items)) }
    ensures leads { OnOk result (LeadsBack (plain_tied_tokens all.now) (plain_file_token member.now) (plain_file_tokens found.new.items) (plain_tie tie.now)) }
{
    if is_same(&tie.declared_by, member) {
        try_token(alloc, all, &tie.when, &tie.identifier, found, tried)?;
    }
    Ok(())
}

/// Goes along a tie.
fn try_tie(
    alloc: Global,
    all: &TiedTokens<'_>,
    member: &FileToken,
    tie: &Tie,
    found: &mut Vec<FileToken>,
    tried: &mut Vec<Config>,
) -> Result<(), NoMemory>
    requires numbered { NamesFeaturesBelow 128 (plain_tied_tokens all.now) }
    requires among { Contains (plain_tied_tokens all.now).ties (plain_tie tie.now) }
    ensures grows { OnOk result (Grows (plain_tied_tokens all.now) (plain_file_token member.now) (plain_file_tokens found.old.items) (plain_file_tokens found.new.items)) }
    ensures leads { OnOk result (LeadsInto (plain_tied_tokens all.now) (plain_file_token member.now) (plain_file_tokens found.new.items) (plain_tie tie.now)) }
{
    try_declaration(alloc, all, member, tie, found, tried)?;
    try_identifier(alloc, all, member, tie, found, tried)?;
    Ok(())
}

/// Goes along all ties.
fn try_ties(
    alloc: Global,
    all: &TiedTokens<'_>,
    member: &FileToken,
    found: &mut Vec<FileToken>,
    tried: &mut Vec<Config>,
) -> Result<(), NoMemory>
    requires numbered { NamesFeaturesBelow 128 (plain_tied_tokens all.now) }
    ensures grows { OnOk result (Grows (plain_tied_tokens all.now) (plain_file_token member.now) (plain_file_tokens found.old.items) (plain_file_tokens found.new.items)) }
    ensures leads { OnOk result (All (LeadsInto (plain_tied_tokens all.now) (plain_file_token member.now) (plain_file_tokens found.new.items)) (plain_tied_tokens all.now).ties) }
{
    for tie in all.ties {
        try_tie(alloc, all, member, tie, found, tried)?;
    }
    Ok(())
}

/// Finds the token of the other name, where both are declared.
fn try_both(
    alloc: Global,
    all: &TiedTokens<'_>,
    own: &DeclaredName,
    other: &DeclaredName,
    found: &mut Vec<FileToken>,
    tried: &mut Vec<Config>,
) -> Result<(), NoMemory>
    requires numbered { NamesFeaturesBelow 128 (plain_tied_tokens all.now) }
    requires own { Contains (plain_tied_tokens all.now).names (plain_declared_name own.now) }
    requires other { Contains (plain_tied_tokens all.now).names (plain_declared_name other.now) }
    requires same { (plain_declared_name own.now).name ≡ (plain_declared_name other.now).name }
    ensures grows { OnOk result (Grows (plain_tied_tokens all.now) (plain_file_token own.now.token) (plain_file_tokens found.old.items) (plain_file_tokens found.new.items)) }
    ensures leads { OnOk result (NameLeadsInto (plain_tied_tokens all.now) (plain_declared_name own.now) (plain_file_tokens found.new.items) (plain_declared_name other.now)) }
{
    let when = own.when.try_clone(alloc)?;
    let also = other.when.try_clone(alloc)?;
    let both = Formula::and(alloc, when, also)?;
    try_token(alloc, all, &both, &other.token, found, tried)?;
    Ok(())
}

/// Goes from one name to another.
fn try_name(
    alloc: Global,
    all: &TiedTokens<'_>,
    own: &DeclaredName,
    other: &DeclaredName,
    found: &mut Vec<FileToken>,
    tried: &mut Vec<Config>,
) -> Result<(), NoMemory>
    requires numbered { NamesFeaturesBelow 128 (plain_tied_tokens all.now) }
    requires own { Contains (plain_tied_tokens all.now).names (plain_declared_name own.now) }
    requires other { Contains (plain_tied_tokens all.now).names (plain_declared_name other.now) }
    ensures grows { OnOk result (Grows (plain_tied_tokens all.now) (plain_file_token own.now.token) (plain_file_tokens found.old.items) (plain_file_tokens found.new.items)) }
    ensures leads { OnOk result (NameLeadsInto (plain_tied_tokens all.now) (plain_declared_name own.now) (plain_file_tokens found.new.items) (plain_declared_name other.now)) }
{
    if is_same_name(&own.name, &other.name) && !is_among(found, &other.token) {
        try_both(alloc, all, own, other, found, tried)?;
    }
    Ok(())
}

/// Goes from a name to all that are the same.
fn try_names_from(
    alloc: Global,
    all: &TiedTokens<'_>,
    own: &DeclaredName,
    found: &mut Vec<FileToken>,
    tried: &mut Vec<Config>,
) -> Result<(), NoMemory>
    requires numbered { NamesFeaturesBelow 128 (plain_tied_tokens all.now) }
    requires own { Contains (plain_tied_tokens all.now).names (plain_declared_name own.now) }
    ensures grows { OnOk result (Grows (plain_tied_tokens all.now) (plain_file_token own.now.token) (plain_file_tokens found.old.items) (plain_file_tokens found.new.items)) }
    ensures leads { OnOk result (All (NameLeadsInto (plain_tied_tokens all.now) (plain_declared_name own.now) (plain_file_tokens found.new.items)) (plain_tied_tokens all.now).names) }
{
    for other in all.names {
        try_name(alloc, all, own, other, found, tried)?;
    }
    Ok(())
}

/// Goes from a name, if the member declares it.
fn try_own_name(
    alloc: Global,
    all: &TiedTokens<'_>,
    member: &FileToken,
    own: &DeclaredName,
    found: &mut Vec<FileToken>,
    tried: &mut Vec<Config>,
) -> Result<(), NoMemory>
    requires numbered { NamesFeaturesBelow 128 (plain_tied_tokens all.now) }
    requires own { Contains (plain_tied_tokens all.now).names (plain_declared_name own.now) }
    ensures grows { OnOk result (Grows (plain_tied_tokens all.now) (plain_file_token member.now) (plain_file_tokens found.old.items) (plain_file_tokens found.new.items)) }
    ensures lead { OnOk result (NamesLeadInto (plain_tied_tokens all.now) (plain_file_token member.now) (plain_file_tokens found.new.items) (plain_declared_name own.now)) }
{
    if is_same(&own.token, member) {
        try_names_from(alloc, all, own, found, tried)?;
    }
    Ok(())
}

/// Goes from each name that the member declares.
fn try_names(
    alloc: Global,
    all: &TiedTokens<'_>,
    member: &FileToken,
    found: &mut Vec<FileToken>,
    tried: &mut Vec<Config>,
) -> Result<(), NoMemory>
    requires numbered { NamesFeaturesBelow 128 (plain_tied_tokens all.now) }
    ensures grows { OnOk result (Grows (plain_tied_tokens all.now) (plain_file_token member.now) (plain_file_tokens found.old.items) (plain_file_tokens found.new.items)) }
    ensures lead { OnOk result (All (NamesLeadInto (plain_tied_tokens all.now) (plain_file_token member.now) (plain_file_tokens found.new.items)) (plain_tied_tokens all.now).names) }
{
    for own in all.names {
        try_own_name(alloc, all, member, own, found, tried)?;
    }
    Ok(())
}

/// Finds all tokens that a member is tied to.
pub(crate) fn visit(
    alloc: Global,
    all: &TiedTokens<'_>,
    member: &FileToken,
    found: &mut Vec<FileToken>,
    tried: &mut Vec<Config>,
) -> Result<(), NoMemory>
    requires numbered { NamesFeaturesBelow 128 (plain_tied_tokens all.now) }
    ensures grows { OnOk result (Grows (plain_tied_tokens all.now) (plain_file_token member.now) (plain_file_tokens found.old.items) (plain_file_tokens found.new.items)) }
    ensures visited { OnOk result (IsVisited (plain_tied_tokens all.now) (plain_file_tokens found.new.items) (plain_file_token member.now)) }
{
    try_ties(alloc, all, member, found, tried)?;
    try_names(alloc, all, member, found, tried)?;
    Ok(())
}
