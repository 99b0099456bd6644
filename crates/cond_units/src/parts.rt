//! What stands where among the parts of a function's declarator (6.7.6).
ghost use Rattle.std.specs.Prelude.{◌≡◌, ℕ, Bool, [], ◌∷◌, option_map, IfOk};
ghost use Rattle.c_text.specs.Token.{plain_token};
ghost use Rattle.c_types.specs.Types.{plain_type};
ghost use Rattle.c_tree.specs.Grammar as grammar;
ghost use Rattle.c_tree.specs.Heights as heights;
ghost use Rattle.c_tree.specs.Trees.{none};
ghost use Rattle.core_meaning.specs.Declarations as spec;
ghost use Rattle.choice_trees.specs.ChoiceTrees.{plain_item, item_at};
ghost use Rattle.choice_variants.specs.Variants.{part_at, before};

use c_text::Token;
use c_tree::{Terminal, terminal};
use c_types::CType;
use choice_trees::Item;
use choice_variants::Part;
use cond_formula::NoMemory;
use plain_scope::copied;
use std::alloc::Global;

/// The first name among the parts; what stands in `[ ]` is none of them.
#[tactic(auto, using(choice_trees::specs::ItemLaws::item_kinds))]
pub(crate) fn name_in<'a>(parts: &[Part<'a>]) -> Option<&'a Token>
    ensures { (on : ℕ → Bool) → option_map (λ t. plain_token t.now) result ≡ spec.name_in (before on parts.now none) }
{
    let (first, rest) = parts.split_first()?;
    let Part::Item(item) = *first else {
        return None;
    };
    let Item::Leaf(_, token) = item else {
        return None;
    };
    if Terminal::Name.is(terminal(token)) {
        Some(token)
    } else if Terminal::OpenBracket.is(terminal(token)) {
        None
    } else {
        name_in(rest)
    }
}

/// What stands behind the first word of a terminal.
#[tactic(auto, using(choice_trees::specs::ItemLaws::item_kinds))]
pub(crate) fn behind_word<'a>(parts: &[Part<'a>], wanted: Terminal) -> Option<Part<'a>>
    ensures { (on : ℕ → Bool) → option_map (part_at on) result ≡ spec.behind_word wanted (before on parts.now none) }
{
    let (first, rest) = parts.split_first()?;
    let Part::Item(item) = *first else {
        return None;
    };
    let Item::Leaf(_, token) = item else {
        return None;
    };
    let (next, _) = rest.split_first()?;
    if wanted.is(terminal(token)) {
        Some(*next)
    } else {
        behind_word(rest, wanted)
    }
}

/// Whether an item is a star.
#[tactic(auto, using(choice_trees::specs::ItemLaws::item_kinds))]
fn is_star_item(item: &Item) -> bool
    ensures { (on : ℕ → Bool) → result ≡ grammar.is_word (Terminal.Star ∷ []) (item_at on (plain_item item.now)) }
{
    match item {
        Item::Leaf(_, token) => Terminal::Star.is(terminal(token)),
        Item::Node(..) => false,
    }
}

/// Whether a part is a star.
fn is_star(part: &Part) -> bool
    ensures { (on : ℕ → Bool) → result ≡ grammar.is_word (Terminal.Star ∷ []) (part_at on part.now) }
{
    match part {
        Part::Item(item) => is_star_item(item),
        Part::NoStatement => false,
    }
}

/// How many stars are among the parts.
pub(crate) fn count_of_stars(parts: &[Part]) -> usize
    ensures { (on : ℕ → Bool) → result ≡ heights.count_stars (before on parts.now none) }
{
    let mut count = 0;
    for part in parts {
        if is_star(part) {
            count += 1;
        }
    }
    count
}

/// The type behind so many stars.
#[tactic(auto, using(c_types::specs::TypeLaws::type_kinds, plain_declarators::specs::Bound::one_more_pointer))]
pub fn behind_stars(alloc: Global, stars: usize, base: &CType) -> Result<CType, NoMemory>
    ensures { IfOk result (λ ty. plain_type ty ≡ spec.pointers stars (plain_type base.now)) }
{
    let mut ty = copied(alloc, base)?;
    for _ in 0..stars {
        ty = CType::Pointer(Box::new(alloc, ty)?);
    }
    Ok(ty)
}
