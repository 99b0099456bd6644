//! How many bytes texts in a row have (ISO/IEC 9899:2011, 6.4.5).
ghost use Rattle.std.specs.Prelude.{◌≡◌, ℕ, Bool, IfOk};
ghost use Rattle.c_text.specs.Token.{plain_token};
ghost use Rattle.c_text.specs.Constants.{quoted_values};
ghost use Rattle.c_tree.specs.Trees.{none};
ghost use Rattle.choice_trees.specs.ChoiceTrees.{plain_item, item_at};
ghost use Rattle.choice_variants.specs.Variants.{part_at, before};
ghost use Rattle.cond_typing.specs.Texts as spec;
ghost use Rattle.cond_typing.specs.Texts.{Length, same_length};
ghost use Rattle.cond_typing.specs.declared.lengths.TextLength.TheVariants.{Bytes};

use c_constants::quoted_values;
use c_text::Token;
use choice_trees::Item;
use choice_variants::Part;
use cond_formula::NoMemory;
use conditional::Plain;
use std::alloc::{AllocError, Global};

/// The length of what texts in a row stand for together.
#[derive(Clone, Copy, Debug, PartialEq, Eq)]
pub enum TextLength {
    NoText,
    Bytes(u32),
    /// One of them is no text that the engine reads.
    Unreadable,
}

impl Plain for TextLength {
    ghost Form = { Length };

    ghost form = { same_length };

    fn is_same(&self, other: &TextLength) -> bool {
        *self == *other
    }

    fn try_clone(&self, _alloc: Global) -> Result<TextLength, NoMemory> {
        Ok(*self)
    }
}

/// A length that no array of 32 bits has is want of memory.
fn sum(m: u32, n: u32) -> Result<TextLength, NoMemory>
    ensures { IfOk result (λ length. length ≡ spec.joined (Bytes m) (Bytes n)) }
{
    let total = m.checked_add(n).ok_or(AllocError)?;
    Ok(TextLength::Bytes(total))
}

/// The length of texts that are joined.
pub(crate) fn joined(a: TextLength, b: TextLength) -> Result<TextLength, NoMemory>
    ensures { IfOk result (λ length. length ≡ spec.joined a b) }
{
    match (a, b) {
        (TextLength::Unreadable, _) | (_, TextLength::Unreadable) => Ok(TextLength::Unreadable),
        (TextLength::NoText, _) => Ok(b),
        (_, TextLength::NoText) => Ok(a),
        (TextLength::Bytes(m), TextLength::Bytes(n)) => sum(m, n),
    }
}

fn token_length(alloc: Global, token: &Token) -> Result<TextLength, NoMemory>
    ensures { IfOk result (λ length. length ≡ spec.length_of_bytes (quoted_values (plain_token token.now).text)) }
{
    match quoted_values(alloc, &token.text)? {
        Some(bytes) => {
            let length = u32::try_from(bytes.len()).map_err(|_| AllocError)?;
            Ok(TextLength::Bytes(length))
        }
        None => Ok(TextLength::Unreadable),
    }
}

#[tactic(auto, using(choice_trees::specs::ItemLaws::item_kinds))]
fn item_length(alloc: Global, item: &Item) -> Result<TextLength, NoMemory>
    ensures { IfOk result (λ length. (on : ℕ → Bool) → length ≡ spec.text_length (item_at on (plain_item item.now))) }
{
    match item {
        Item::Leaf(_, token) => {
            let length = token_length(alloc, token)?;
            Ok(length)
        }
        Item::Node(..) => Ok(TextLength::Unreadable),
    }
}

fn part_length(alloc: Global, part: &Part) -> Result<TextLength, NoMemory>
    ensures { IfOk result (λ length. (on : ℕ → Bool) → length ≡ spec.text_length (part_at on part.now)) }
{
    match part {
        Part::Item(item) => item_length(alloc, item),
        Part::NoStatement => Ok(TextLength::Unreadable),
    }
}

/// The length of the texts among which no alternatives are left.
pub(crate) fn length(alloc: Global, parts: &[Part]) -> Result<TextLength, NoMemory>
    ensures { IfOk result (λ length. (on : ℕ → Bool) → length ≡ spec.row_length (before on parts.now none)) }
{
    let mut all = TextLength::NoText;
    for part in parts {
        let more = part_length(alloc, part)?;
        all = joined(all, more)?;
    }
    Ok(all)
}
