//! The tags of structs that are defined.
ghost use Rattle.std.specs.Prelude.{◌≡◌, ℕ, Bool, List, [], ◌∷◌, option_map, IsTrue, IfOk};
ghost use Rattle.cond_formula.specs.Features.{has};
ghost use Rattle.cond_formula.specs.Conditions.{value};
ghost use Rattle.c_text.specs.Token.{plain_token};
ghost use Rattle.c_tree.specs.declared.kinds.Kind.TheVariants as k;
ghost use Rattle.c_tree.specs.Trees.{PlainTrees, none, more};
ghost use Rattle.core_meaning.specs.Declarations as spec;
ghost use Rattle.bindings.specs.Bindings.{tag_text};
ghost use Rattle.choice_trees.specs.ChoiceTrees.{plain_choices, parts_at};
ghost use Rattle.choice_variants.specs.Variants.{part_at, before};
ghost use Rattle.conditional.specs.Entries.{seen, listed};
ghost use Rattle.name_spaces.specs.Spaces.{defined_tag};
ghost use Rattle.cond_name_spaces.specs.Progress.{plain_tag};

use crate::entries::Tag;
use c_text::Token;
use c_tree::{Kind, Terminal, terminal};
use choice_trees::{Choice, Item};
use choice_variants::{Part, variants};
use cond_formula::{Formula, NoMemory, Oracle};
use conditional::CondList;
use std::alloc::Global;

/// The first name among words; what stands in `[ ]` is none of them.
#[tactic(auto, using(choice_trees::specs::ItemLaws::item_kinds))]
fn name_in<'a>(words: &[Part<'a>]) -> Option<&'a Token>
    ensures { (on : ℕ → Bool) → option_map (λ t. plain_token t.now) result ≡ spec.name_in (before on words.now none) }
{
    let (first, rest) = words.split_first()?;
    match first {
        Part::Item(Item::Leaf(_, token)) => {
            if Terminal::Name.is(terminal(token)) {
                Some(token)
            } else if Terminal::OpenBracket.is(terminal(token)) {
                None
            } else {
                name_in(rest)
            }
        }
        Part::Item(Item::Node(..)) => None,
        Part::NoStatement => None,
    }
}

/// The tag among words, or an empty one.
fn tag_among(alloc: Global, words: &[Part]) -> Result<Tag, NoMemory>
    ensures { IfOk result (λ tag. (on : ℕ → Bool) → plain_tag tag ≡ tag_text (spec.name_in (before on words.now none))) }
{
    let text = match name_in(words) {
        Some(name) => Vec::from_slice(alloc, &name.text)?,
        None => Vec::new(alloc),
    };
    Ok(Tag { text })
}

/// The tag among the words of a node.
fn tags_among<O: Oracle>(
    alloc: Global,
    oracle: &mut O,
    kind: Kind,
    words: &[Choice<Item>],
) -> Result<CondList<Tag>, NoMemory>
    ensures kept { O.admits oracle.new ≡ O.admits oracle.old }
    ensures seen { IfOk result (λ tags. (c : List Bool) → IsTrue (value (has c) (O.admits oracle.old))
        → seen (has c) (listed plain_tag tags) ≡ tag_text (spec.name_in (parts_at (has c) kind 0 (plain_choices words.now))) ∷ []) }
{
    let variants = variants(alloc, kind, words, oracle)?;
    let mut tags = CondList::empty(alloc);
    for variant in &variants {
        let tag = tag_among(alloc, &variant.parts)?;
        tags.push(variant.when.try_clone(alloc)?, tag)?;
    }
    Ok(tags)
}

/// An empty tag in all configurations.
#[tactic(auto, using(cond_formula::specs::ConditionLaws::formula_kinds))]
pub(crate) fn no_tag(alloc: Global) -> Result<CondList<Tag>, NoMemory>
    ensures { IfOk result (λ tags. (on : ℕ → Bool) → seen on (listed plain_tag tags) ≡ [] ∷ []) }
{
    let text = Vec::new(alloc);
    let mut tags = CondList::empty(alloc);
    tags.push(Formula::True, Tag { text })?;
    Ok(tags)
}

/// The tag of a struct whose words are this part.
#[tactic(auto, using(choice_trees::specs::ItemLaws::item_kinds))]
fn tags_by<O: Oracle>(
    alloc: Global,
    oracle: &mut O,
    words: &Part,
) -> Result<CondList<Tag>, NoMemory>
    ensures kept { O.admits oracle.new ≡ O.admits oracle.old }
    ensures seen { IfOk result (λ tags. (c : List Bool) (rest : PlainTrees) → IsTrue (value (has c) (O.admits oracle.old))
        → seen (has c) (listed plain_tag tags) ≡ defined_tag (more (part_at (has c) words.now) rest) ∷ []) }
{
    match words {
        Part::Item(Item::Node(kind, words)) => tags_among(alloc, oracle, *kind, words),
        Part::Item(Item::Leaf(..)) => no_tag(alloc),
        Part::NoStatement => no_tag(alloc),
    }
}

/// The tag of a struct that is defined by these parts.
fn tags_of_parts<O: Oracle>(
    alloc: Global,
    oracle: &mut O,
    parts: &[Part],
) -> Result<CondList<Tag>, NoMemory>
    ensures kept { O.admits oracle.new ≡ O.admits oracle.old }
    ensures seen { IfOk result (λ tags. (c : List Bool) → IsTrue (value (has c) (O.admits oracle.old))
        → seen (has c) (listed plain_tag tags) ≡ defined_tag (before (has c) parts.now none) ∷ []) }
{
    match parts {
        [words, ..] => tags_by(alloc, oracle, words),
        [] => no_tag(alloc),
    }
}

/// The tag of a struct that is defined, variant by variant.
pub(crate) fn tags_of<O: Oracle>(
    alloc: Global,
    oracle: &mut O,
    parts: &[Choice<Item>],
) -> Result<CondList<Tag>, NoMemory>
    ensures kept { O.admits oracle.new ≡ O.admits oracle.old }
    ensures seen { IfOk result (λ tags. (c : List Bool) → IsTrue (value (has c) (O.admits oracle.old))
        → seen (has c) (listed plain_tag tags) ≡ defined_tag (parts_at (has c) k.StructDefinition 0 (plain_choices parts.now)) ∷ []) }
{
    let variants = variants(alloc, Kind::StructDefinition, parts, oracle)?;
    let mut tags = CondList::empty(alloc);
    for variant in &variants {
        let own = tags_of_parts(alloc, oracle, &variant.parts)?;
        tags.append_under(alloc, &variant.when, &own)?;
    }
    Ok(tags)
}
