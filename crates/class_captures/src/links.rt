//! Where declarations are linked otherwise than before.
ghost use Rattle.std.specs.Prelude.{◌≡◌, ◌↔◌, ◌&&◌, ◌||◌, ℕ, Bool, map, IsTrue, IfOk};
ghost use Rattle.std.specs.List.{list_any};
ghost use Rattle.cond_formula.specs.Conditions.{condition_of, value};
ghost use Rattle.tied_tokens.specs.Tokens.{plain_file_token};
ghost use Rattle.tied_tokens.specs.Ties.{plain_common_name, plain_declared_name};
ghost use Rattle.told_ties.specs.Ties.{named, named_seen};
ghost use Rattle.class_captures.specs.Links as spec;
ghost use Rattle.class_captures.specs.Links.{LinksOtherwise};

use c_text::FileToken;
use cond_formula::{Formula, NoMemory};
use conditional_steps::never;
use core_meaning::BuiltIn;
use plain_link::built_in_named;
use reduced_conditions::{both, either};
use std::alloc::Global;
use tied_tokens::{CommonName, DeclaredName};

/// Whether they are one token.
fn is_same(token: &FileToken, other: &FileToken) -> bool
    ensures { result ≡ spec.is_same (plain_file_token token.now) other.now }
{
    token.file == other.file
        && token.span.start == other.span.start
        && token.span.end == other.span.end
}

/// Whether the token is one of the class.
fn is_listed(token: &FileToken, class: &[FileToken]) -> bool
    ensures { result ≡ spec.is_listed class.now (plain_file_token token.now) }
{
    for other in class {
        if is_same(token, other) {
            return true;
        }
    }
    false
}

/// Whether a token of the class declares a name with external linkage.
fn is_renamed(entry: &DeclaredName, class: &[FileToken]) -> bool
    ensures { result ≡ spec.is_renamed class.now (named (plain_file_token entry.now.token) (plain_common_name entry.now.name)) }
{
    match &entry.name {
        CommonName::External(_) => is_listed(&entry.token, class),
        _ => false,
    }
}

/// Whether a token that isn't of the class declares this name, with external linkage.
fn is_taken(entry: &DeclaredName, class: &[FileToken], new: &[u8]) -> bool
    ensures { result ≡ spec.is_taken class.now new.now (named (plain_file_token entry.now.token) (plain_common_name entry.now.name)) }
{
    match &entry.name {
        CommonName::External(name) => name.as_slice() == new && !is_listed(&entry.token, class),
        _ => false,
    }
}

/// Where it was found so far, and where this is true if it passes.
fn with_entry(
    alloc: Global,
    so_far: Formula,
    passes: bool,
    when: &Formula,
) -> Result<Formula, NoMemory>
    ensures { IfOk result (λ f. (on : ℕ → Bool) → value on (condition_of f) ≡ (value on (condition_of so_far) || (passes && value on (condition_of when.now)))) }
{
    if !passes {
        return Ok(so_far);
    }
    let here = when.try_clone(alloc)?;
    let f = either(alloc, so_far, here)?;
    Ok(f)
}

/// Where some token of the class declares a name with external linkage.
fn where_renamed(
    alloc: Global,
    names: &[DeclaredName],
    class: &[FileToken],
) -> Result<Formula, NoMemory>
    ensures { IfOk result (λ f. (on : ℕ → Bool) → value on (condition_of f) ≡ list_any (spec.is_renamed class.now) (named_seen on (map plain_declared_name names.now))) }
{
    let mut renamed = never()?;
    for entry in names {
        renamed = with_entry(alloc, renamed, is_renamed(entry, class), &entry.when)?;
    }
    Ok(renamed)
}

/// Where some token that isn't of the class declares this name, with external linkage.
fn where_taken(
    alloc: Global,
    names: &[DeclaredName],
    class: &[FileToken],
    new: &[u8],
) -> Result<Formula, NoMemory>
    ensures { IfOk result (λ f. (on : ℕ → Bool) → value on (condition_of f) ≡ list_any (spec.is_taken class.now new.now) (named_seen on (map plain_declared_name names.now))) }
{
    let mut taken = never()?;
    for entry in names {
        taken = with_entry(alloc, taken, is_taken(entry, class, new), &entry.when)?;
    }
    Ok(taken)
}

/// Whether both are the same function of a built-in header, or both are none.
fn is_same_built_in(one: Option<BuiltIn>, other: Option<BuiltIn>) -> bool
    ensures { IsTrue result ↔ one ≡ other }
{
    match (one, other) {
        (None, None) => true,
        (Some(BuiltIn::Putchar), Some(BuiltIn::Putchar)) => true,
        (Some(BuiltIn::Getchar), Some(BuiltIn::Getchar)) => true,
        (Some(BuiltIn::Puts), Some(BuiltIn::Puts)) => true,
        (Some(BuiltIn::Exit), Some(BuiltIn::Exit)) => true,
        _ => false,
    }
}

/// Where the renaming of a class of tokens from the old name to the new one links some declaration otherwise, by the names that tokens declare: a
/// name with external linkage is renamed, and the new one is declared elsewhere, or isn't that of the same built-in function.
pub fn where_linked_otherwise(
    alloc: Global,
    names: &[DeclaredName],
    class: &[FileToken],
    old: &[u8],
    new: &[u8],
) -> Result<Formula, NoMemory>
    ensures { IfOk result (λ f. (on : ℕ → Bool) → IsTrue (value on (condition_of f)) ↔ LinksOtherwise class.now old.now new.now (named_seen on (map plain_declared_name names.now))) }
{
    let renamed = where_renamed(alloc, names, class)?;
    if !is_same_built_in(built_in_named(old), built_in_named(new)) {
        return Ok(renamed);
    }
    let taken = where_taken(alloc, names, class, new)?;
    let f = both(alloc, renamed, taken)?;
    Ok(f)
}
