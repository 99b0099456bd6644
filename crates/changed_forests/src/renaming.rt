//! Trees with a new name for some tokens.

ghost use Rattle.std.specs.Prelude.{◌≡◌, IfOk, OnOk, OnErr};
ghost use Rattle.std.specs.List.{list_any};
ghost use Rattle.c_text.specs.Token.{plain_token};
ghost use Rattle.choice_trees.specs.ChoiceTrees.{plain_choices};
ghost use Rattle.changed_forests.specs.Renamed as spec;
ghost use Rattle.changed_forests.specs.Renamed.{IsRenamed};

use crate::changing::{TokenChange, changed};
use c_text::{FileToken, Token, TokenKind};
use choice_trees::Forest;
use cond_formula::NoMemory;
use std::alloc::Global;

/// Whether the token is a copy of this token of a file.
fn copies(token: &Token, of: &FileToken) -> bool
    ensures { result ≡ spec.copies of.now (plain_token token.now) }
{
    token.origin.file == of.file
        && token.origin.span.start == of.span.start
        && token.origin.span.end == of.span.end
}

/// Whether the token is a copy of one of these tokens of files.
pub fn copies_any(token: &Token, class: &[FileToken]) -> bool
    ensures { result ≡ list_any (λ of. spec.copies of (plain_token token.now)) class.now }
{
    for of in class {
        if copies(token, of) {
            return true;
        }
    }
    false
}

/// Whether it is an identifier.
fn is_name(token: &Token) -> bool
    ensures { result ≡ spec.is_name token.now.kind }
{
    match token.kind {
        TokenKind::Name => true,
        _ => false,
    }
}

/// A new name for the identifiers that copy a token of a class.
#[derive(Clone, Copy)]
struct NewName<'a> {
    class: &'a [FileToken],
    name: &'a [u8],
}

impl TokenChange for NewName<'_> {
    ghost change = { λ self. spec.renaming self.class.now self.name.now };

    fn token(&self, alloc: Global, _number: u32, token: &Token) -> Result<Token, NoMemory> {
        let mut renamed = token.try_clone(alloc)?;
        if is_name(token) && copies_any(token, self.class) {
            renamed.text = Vec::from_slice(alloc, self.name)?;
        }
        Ok(renamed)
    }
}

/// Gives the name to each identifier that copies a token of the class. After want of memory the trees are as before.
pub fn rename(
    alloc: Global,
    forest: &mut Forest,
    class: &[FileToken],
    name: &[u8],
) -> Result<(), NoMemory>
    ensures renamed { OnOk result (IsRenamed class.now name.now forest.old forest.new) }
    ensures kept { OnErr result (forest.new ≡ forest.old) }
{
    let new = changed(alloc, &NewName { class, name }, forest)?;
    *forest = new;
    Ok(())
}

/// Each token stays what it is.
#[derive(Clone, Copy)]
struct Unchanged;

impl TokenChange for Unchanged {
    ghost change = { λ self number t. t };

    fn token(&self, alloc: Global, _number: u32, token: &Token) -> Result<Token, NoMemory> {
        token.try_clone(alloc)
    }
}

/// The same trees once more.
pub fn copied(alloc: Global, forest: &Forest) -> Result<Forest, NoMemory>
    ensures { IfOk result (λ copy. plain_choices copy.items.items ≡ plain_choices forest.now.items.items) }
{
    let copy = changed(alloc, &Unchanged, forest)?;
    Ok(copy)
}
