//! The words of a cast.
ghost use Rattle.std.specs.Prelude.{◌≡◌, ℕ, Bool, List, IsTrue, IfOk};
ghost use Rattle.cond_formula.specs.Features.{has};
ghost use Rattle.cond_formula.specs.Conditions.{value};
ghost use Rattle.c_tree.specs.Trees.{none};
ghost use Rattle.c_tree.specs.declared.kinds.Kind.TheVariants as k;
ghost use Rattle.conditional.specs.Entries.{alternatives, Stands};
ghost use Rattle.core_meaning.specs.Expressions.{has_terminal, words_type, arithmetic_words};
ghost use Rattle.choice_trees.specs.ChoiceTrees.{plain_item, plain_choices, item_at, parts_at};
ghost use Rattle.choice_variants.specs.Variants.{part_at, before};
ghost use Rattle.cond_nodes.specs.Reads.{cast_type};
ghost use Rattle.cond_typing.specs.PartsProgress.{is_wanted};

use c_tree::{Kind, Terminal, terminal};
use choice_trees::{Choice, Item};
use choice_variants::{Part, variants};
use cond_formula::{NoMemory, Oracle};
use cond_nodes::CastType;
use conditional::CondValue;
use std::alloc::Global;

/// Whether an item is this word.
#[tactic(auto, using(choice_trees::specs::ItemLaws::item_kinds))]
fn is_word_item(wanted: Terminal, item: &Item) -> bool
    ensures { (on : ℕ → Bool) → result ≡ is_wanted wanted (item_at on (plain_item item.now)) }
{
    match item {
        Item::Leaf(_, token) => wanted.is(terminal(token)),
        Item::Node(..) => false,
    }
}

/// Whether a part is this word.
fn is_word(wanted: Terminal, part: &Part) -> bool
    ensures { (on : ℕ → Bool) → result ≡ is_wanted wanted (part_at on part.now) }
{
    match part {
        Part::Item(item) => is_word_item(wanted, item),
        Part::NoStatement => false,
    }
}

/// Whether this word is among the parts.
fn has_word(wanted: Terminal, parts: &[Part]) -> bool
    ensures { (on : ℕ → Bool) → result ≡ has_terminal wanted (before on parts.now none) }
{
    for part in parts {
        if is_word(wanted, part) {
            return true;
        }
    }
    false
}

/// The type by its words.
fn type_of_words(is_void: bool, is_unsigned: bool, is_char: bool, is_long: bool) -> CastType
    ensures { cast_type result ≡ words_type is_void is_unsigned is_char is_long }
{
    match (is_void, is_char, is_long, is_unsigned) {
        (true, _, _, _) => CastType::Void,
        (false, true, _, true) => CastType::UChar,
        (false, true, _, false) => CastType::Char,
        (false, false, true, true) => CastType::ULong,
        (false, false, true, false) => CastType::Long,
        (false, false, false, true) => CastType::UInt,
        (false, false, false, false) => CastType::Int,
    }
}

fn arithmetic_type(parts: &[Part]) -> CastType
    ensures { (on : ℕ → Bool) → cast_type result ≡ arithmetic_words (before on parts.now none) }
{
    type_of_words(
        has_word(Terminal::Void, parts),
        has_word(Terminal::Unsigned, parts),
        has_word(Terminal::Char, parts),
        has_word(Terminal::Long, parts),
    )
}

/// The types that words stand for, variant by variant.
pub fn words<O: Oracle>(
    alloc: Global,
    oracle: &mut O,
    parts: &[Choice<Item>],
) -> Result<CondValue<CastType>, NoMemory>
    ensures kept { O.admits oracle.new ≡ O.admits oracle.old }
    ensures stands { IfOk result (λ z. (c : List Bool) → IsTrue (value (has c) (O.admits oracle.old))
        → Stands (has c) (arithmetic_words (parts_at (has c) k.Specifiers 0 (plain_choices parts.now))) (alternatives cast_type z)) }
{
    let variants = variants(alloc, Kind::Specifiers, parts, oracle)?;
    let mut all = CondValue::nothing(alloc);
    for variant in &variants {
        let when = variant.when.try_clone(alloc)?;
        all.place(alloc, when, arithmetic_type(&variant.parts))?;
    }
    Ok(all)
}
