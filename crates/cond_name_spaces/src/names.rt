//! Identifiers that stand in name spaces.
ghost use Rattle.std.specs.Prelude.{◌≡◌, ℕ, Bool, List, [], ◌∷◌, ◌++◌, Some, IfOk};
ghost use Rattle.cond_formula.specs.Conditions.{condition_of, value};
ghost use Rattle.c_text.specs.Token.{plain_token};
ghost use Rattle.c_tree.specs.Trees.{leaf};
ghost use Rattle.conditional.specs.Entries.{seen, under, entries_of, listed};
ghost use Rattle.scope_readings.specs.Walks as walks;
ghost use Rattle.name_spaces.specs.Spaces.{space_by};
ghost use Rattle.cond_name_spaces.specs.Spaced.{plain_space, plain_name, numbered};
ghost use Rattle.cond_name_spaces.specs.Progress.{plain_tag, space_of, one_name, member_by, Logs, spaces_of_part};

use crate::entries::{Space, SpacedName, Tag};
use crate::roles::{Declares, declared_by, is_name};
use c_text::Token;
use c_tree::Kind;
use cond_formula::{Formula, NoMemory};
use conditional::{CondList, Guarded};
use conditional_steps::both_of;
use reduced_conditions::{is_never, without};
use std::alloc::Global;

/// Where a part stands: in a node of a kind, in a declaration of a kind.
#[derive(Clone, Copy)]
pub(crate) struct Around {
    pub(crate) declaration: Kind,
    pub(crate) kind: Kind,
}

/// A token that is a name.
#[derive(Clone, Copy)]
pub(crate) struct Name<'a> {
    /// The number of the token in the unit's stream.
    pub(crate) number: u32,
    pub(crate) token: &'a Token,
}

/// One name more, where the condition is true.
fn push(
    alloc: Global,
    when: Formula,
    name: Name,
    space: Space,
    log: &mut CondList<SpacedName>,
) -> Result<(), NoMemory>
    ensures { IfOk result (λ _. (on : ℕ → Bool) → seen on (listed plain_name log.new)
        ≡ seen on (listed plain_name log.old) ++ under (value on (condition_of when)) (one_name (numbered name.entry.number (plain_token name.entry.token.now)) (Some (plain_space space)))) }
{
    if is_never(&when) {
        return Ok(());
    }
    let spaced = SpacedName {
        number: name.number,
        token: name.token.try_clone(alloc)?,
        space,
    };
    log.push(when, spaced)?;
    Ok(())
}

/// A member of the struct whose tag one of these is.
fn push_member(
    alloc: Global,
    when: &Formula,
    tags: &[Guarded<Tag>],
    name: Name,
    log: &mut CondList<SpacedName>,
) -> Result<(), NoMemory>
    ensures { IfOk result (λ _. (on : ℕ → Bool) → seen on (listed plain_name log.new)
        ≡ seen on (listed plain_name log.old)
        ++ under (value on (condition_of when.now)) (seen on (entries_of (member_by (numbered name.entry.number (plain_token name.entry.token.now))) tags.now))) }
{
    for tag in tags {
        let here = both_of(alloc, &tag.when, when)?;
        let text = Vec::from_slice(alloc, &tag.what.text)?;
        push(alloc, here, name, Space::MembersOf(text), log)?;
    }
    Ok(())
}

/// A name of which is known what it declares.
fn push_as(
    alloc: Global,
    when: Formula,
    declares: Declares,
    tags: &CondList<Tag>,
    name: Name,
    log: &mut CondList<SpacedName>,
) -> Result<(), NoMemory>
    ensures { IfOk result (λ _. (on : ℕ → Bool) (tag : List ℕ) → seen on (listed plain_tag tags.now) ≡ tag ∷ [] → seen on (listed plain_name log.new)
        ≡ seen on (listed plain_name log.old) ++ under (value on (condition_of when)) (one_name (numbered name.entry.number (plain_token name.entry.token.now)) (space_of tag declares))) }
{
    match declares {
        Declares::Nothing => {}
        Declares::Ordinary => push(alloc, when, name, Space::Ordinary, log)?,
        Declares::Tag => push(alloc, when, name, Space::Tags, log)?,
        Declares::Member => push_member(alloc, &when, &tags.entries, name, log)?,
    }
    Ok(())
}

/// A name, which is another thing where a token before it in the node turned what names are.
fn push_name(
    alloc: Global,
    when: &Formula,
    around: Around,
    tags: &CondList<Tag>,
    turned: &Formula,
    name: Name,
    log: &mut CondList<SpacedName>,
) -> Result<(), NoMemory>
    ensures { IfOk result (λ _. (on : ℕ → Bool) (tag : List ℕ) → seen on (listed plain_tag tags.now) ≡ tag ∷ [] → seen on (listed plain_name log.new)
        ≡ seen on (listed plain_name log.old) ++ under (value on (condition_of when.now))
        (one_name (numbered name.entry.number (plain_token name.entry.token.now)) (space_by around.declaration tag (walks.role around.kind (value on (condition_of turned.now)))))) }
{
    let before = without(alloc, when.try_clone(alloc)?, turned)?;
    let declares = declared_by(around.declaration, around.kind, false);
    push_as(alloc, before, declares, tags, name, log)?;
    let behind = both_of(alloc, when, turned)?;
    let declares = declared_by(around.declaration, around.kind, true);
    push_as(alloc, behind, declares, tags, name, log)?;
    Ok(())
}

/// A token of a node.
pub(crate) fn push_token(
    alloc: Global,
    when: &Formula,
    around: Around,
    tags: &CondList<Tag>,
    turned: &Formula,
    number: u32,
    token: &Token,
    log: &mut CondList<SpacedName>,
) -> Result<(), NoMemory>
    ensures { IfOk result (λ _. (on : ℕ → Bool) (tag : List ℕ) → seen on (listed plain_tag tags.now) ≡ tag ∷ []
        → Logs (value on (condition_of when.now)) (λ behind. numbered number (plain_token token.now) ∷ behind)
        (spaces_of_part around.declaration tag around.kind (value on (condition_of turned.now)) (leaf (plain_token token.now)))
        (seen on (listed plain_name log.old)) (seen on (listed plain_name log.new))) }
{
    if !is_name(token) {
        return Ok(());
    }
    push_name(
        alloc,
        when,
        around,
        tags,
        turned,
        Name { number, token },
        log,
    )?;
    Ok(())
}
