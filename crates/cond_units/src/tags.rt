//! Where the first name among words is a given tag (6.7.2.3).
ghost use Rattle.std.specs.Prelude.{◌≡◌, ℕ, Bool, ◌&&◌, ◌||◌, List, None, IfOk};
ghost use Rattle.std.specs.Str.{bytes_eq};
ghost use Rattle.cond_formula.specs.Conditions.{condition_of, value};
ghost use Rattle.c_tree.specs.declared.kinds.Kind.{Kind};
ghost use Rattle.c_text.specs.Token.{plain_token};
ghost use Rattle.c_tree.specs.Trees.{PlainTrees, leaf, more};
ghost use Rattle.choice_trees.specs.ChoiceTrees.{plain_item, plain_branches, plain_choices, with_part, item_at, branch_at, parts_at};
ghost use Rattle.cond_units.specs.Tags as spec;

use c_text::Token;
use c_tree::{Kind, Terminal, terminal};
use choice_trees::{Choice, Item, needs_statement};
use cond_formula::{Formula, NoMemory};
use reduced_conditions::{both_of, either, without};
use std::alloc::Global;

/// What a word is to the search for a tag.
#[derive(Clone, Copy, Debug)]
pub(crate) enum Word {
    Tag,
    /// Another name, or what no name stands behind.
    Other,
    /// The search goes on behind it.
    Passed,
}

/// How far a search has come: where it has found, and where it goes on.
#[derive(Drop)]
pub(crate) struct Search {
    pub(crate) found: Formula,
    pub(crate) left: Formula,
}

/// What a name is.
fn word_of_name(text: &[u8], tag: &[u8]) -> Word
    ensures { (behind : Bool) → spec.comes result behind ≡ bytes_eq text.now tag.now }
{
    if text == tag { Word::Tag } else { Word::Other }
}

/// What a token is.
fn word_of_token(token: &Token, tag: &[u8]) -> Word
    ensures { (rest : PlainTrees) → spec.comes result (spec.has_tag tag.now rest) ≡ spec.has_tag tag.now (more (leaf (plain_token token.now)) rest) }
{
    let what = terminal(token);
    if Terminal::Name.is(what) {
        return word_of_name(&token.text, tag);
    }
    if Terminal::OpenBracket.is(what) {
        return Word::Other;
    }
    Word::Passed
}

/// What an item among words is.
#[tactic(auto, using(choice_trees::specs::ItemLaws::item_kinds))]
fn word_of(item: &Item, tag: &[u8]) -> Word
    ensures { (on : ℕ → Bool) (rest : PlainTrees) → spec.comes result (spec.has_tag tag.now rest) ≡ spec.has_tag tag.now (more (item_at on (plain_item item.now)) rest) }
{
    match item {
        Item::Leaf(_, token) => word_of_token(token, tag),
        Item::Node(..) => Word::Other,
    }
}

/// The tag is found where the condition is true.
fn found_at(alloc: Global, search: Search, here: Formula) -> Result<Search, NoMemory>
    ensures { IfOk result (λ s. (on : ℕ → Bool) (behind : Bool) → spec.ends on s behind ≡ (spec.ends on search behind || value on (condition_of here))) }
{
    let Search { found, left } = search;
    let found = either(alloc, found, here)?;
    Ok(Search { found, left })
}

/// The search goes on where the condition is true.
fn passed_at(alloc: Global, search: Search, here: Formula) -> Result<Search, NoMemory>
    ensures { IfOk result (λ s. (on : ℕ → Bool) (behind : Bool) → spec.ends on s behind ≡ (spec.ends on search behind || (value on (condition_of here) && behind))) }
{
    let Search { found, left } = search;
    let left = either(alloc, left, here)?;
    Ok(Search { found, left })
}

/// The search behind a word that is there where the condition is true.
fn after_word(alloc: Global, search: Search, here: Formula, word: Word) -> Result<Search, NoMemory>
    ensures { IfOk result (λ s. (on : ℕ → Bool) (behind : Bool) → spec.ends on s behind ≡ (spec.ends on search behind || (value on (condition_of here) && spec.comes word behind))) }
{
    match word {
        Word::Tag => found_at(alloc, search, here),
        Word::Other => Ok(search),
        Word::Passed => passed_at(alloc, search, here),
    }
}

/// The search where none of the alternatives for a part holds.
fn after_none(
    alloc: Global,
    search: Search,
    here: Formula,
    needed: bool,
) -> Result<Search, NoMemory>
    ensures { IfOk result (λ s. (on : ℕ → Bool) (tag : List ℕ) (rest : PlainTrees) → spec.ends on s (spec.has_tag tag rest)
        ≡ (spec.ends on search (spec.has_tag tag rest) || (value on (condition_of here) && spec.has_tag tag (with_part needed None rest)))) }
{
    if needed {
        return Ok(search);
    }
    passed_at(alloc, search, here)
}

/// A search that has come to the end of its words where nothing is left.
#[tactic(auto, using(cond_formula::specs::ConditionLaws::formula_kinds))]
fn with_nothing_left(found: Formula) -> Search
    ensures { (on : ℕ → Bool) (behind : Bool) → spec.ends on result behind ≡ value on (condition_of found) }
{
    Search {
        found,
        left: Formula::False,
    }
}

/// The search behind the alternatives for a part.
fn after_choice(
    alloc: Global,
    search: Search,
    needed: bool,
    choice: &Choice<Item>,
    tag: &[u8],
) -> Result<Search, NoMemory>
    ensures { IfOk result (λ s. (on : ℕ → Bool) (rest : PlainTrees) → spec.ends on s (spec.has_tag tag.now rest)
        ≡ spec.ends on search (spec.has_tag tag.now (with_part needed (branch_at on (plain_branches choice.now.branches.items)) rest))) }
{
    let Search { found, left } = search;
    let mut untaken = left;
    let mut searched = with_nothing_left(found);
    for (when, item) in &choice.branches {
        let here = both_of(alloc, &untaken, when)?;
        let word = word_of(item, tag);
        searched = after_word(alloc, searched, here, word)?;
        untaken = without(alloc, untaken, when)?;
    }
    let ended = after_none(alloc, searched, untaken, needed)?;
    Ok(ended)
}

/// A search that begins.
#[tactic(auto, using(cond_formula::specs::ConditionLaws::formula_kinds))]
pub(crate) fn begun() -> Search
    ensures { (on : ℕ → Bool) (behind : Bool) → spec.ends on result behind ≡ behind }
{
    Search {
        found: Formula::False,
        left: Formula::True,
    }
}

/// Where it has found.
pub(crate) fn where_found(search: Search) -> Formula
    ensures { result ≡ search.found }
{
    let Search { found, left: _ } = search;
    found
}

/// Where the first name among words is the tag.
fn where_among(
    alloc: Global,
    kind: Kind,
    words: &[Choice<Item>],
    tag: &[u8],
) -> Result<Formula, NoMemory>
    ensures { IfOk result (λ f. (on : ℕ → Bool) → value on (condition_of f) ≡ spec.has_tag tag.now (parts_at on kind 0 (plain_choices words.now))) }
{
    let mut search = begun();
    for (place, choice) in words.iter().enumerate() {
        search = after_choice(alloc, search, needs_statement(kind, place), choice, tag)?;
    }
    Ok(where_found(search))
}

/// Where the words of a part have the tag.
#[tactic(auto, using(choice_trees::specs::ItemLaws::item_kinds))]
pub(crate) fn where_part_has_tag(
    alloc: Global,
    part: &Item,
    tag: &[u8],
) -> Result<Formula, NoMemory>
    ensures { IfOk result (λ f. (on : ℕ → Bool) → value on (condition_of f) ≡ spec.part_has_tag tag.now (item_at on (plain_item part.now))) }
{
    match part {
        Item::Leaf(..) => conditional_steps::never(),
        Item::Node(kind, words) => where_among(alloc, *kind, words, tag),
    }
}
