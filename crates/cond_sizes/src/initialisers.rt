//! How many elements initialisers give arrays that are declared without a size (6.7.9).
ghost use Rattle.std.specs.Prelude.{◌≡◌, ℕ, Bool, List, IsTrue, IfOk, Result};
ghost use Rattle.cond_formula.specs.Features.{has};
ghost use Rattle.cond_formula.specs.Conditions.{value};
ghost use Rattle.conditional.specs.Entries.{Stands};
ghost use Rattle.conditional.specs.Judgements.{fine, refused, checked};
ghost use Rattle.c_text.specs.Constants as constants;
ghost use Rattle.c_types.specs.Types.{PlainType};
ghost use Rattle.c_tree.specs.Trees.{PlainTree, PlainTrees, none, more, node};
ghost use Rattle.choice_trees.specs.ChoiceTrees.{plain_item, plain_choices, item_at, parts_at};
ghost use Rattle.choice_variants.specs.Variants.{part_at, before, shown};
ghost use Rattle.core_meaning.specs.Expressions.{count_entries};
ghost use Rattle.core_meaning.specs.Constancy.{count_by_initialiser, is_character_type};
ghost use Rattle.operand_rules.specs.PlainOperandTypes.{reason};
ghost use Rattle.cond_sizes.specs.Sizes.{plain_count, given, ShowsCount};
ghost use Rattle.cond_sizes.specs.Totals.{one_each, half_up, length_of, text_length, with_zero};

use crate::elements::Count;
use crate::totals::{Measure, totals};
use c_constants::quoted_values;
use c_text::Token;
use c_tree::Kind;
use choice_trees::{Choice, Item};
use choice_variants::{Part, Variant, variants};
use cond_formula::{Formula, NoMemory, Oracle};
use conditional::{Judgement, Outcomes, judged};
use operand_rules::Refused;
use std::alloc::{AllocError, Global};

/// Each part counts as one.
#[derive(Clone, Copy)]
struct OneEach;

impl Measure for OneEach {
    ghost measure = { λ _. one_each };

    fn of_item(&self, _alloc: Global, _item: &Item) -> Result<Result<Count, Refused>, NoMemory> {
        Ok(Ok(Count { elements: 1 }))
    }

    fn of_no_statement(&self) -> Result<Count, Refused> {
        Ok(Count { elements: 1 })
    }
}

/// How many entries so many parts are, with commas between them.
#[derive(Clone, Copy)]
struct HalfUp;

impl Judgement<Count, Count, Refused> for HalfUp {
    ghost answers = { λ _ a r. checked plain_count reason r ≡ half_up (plain_count a) };

    fn judge(&self, _alloc: Global, a: &Count) -> Result<Result<Count, Refused>, NoMemory> {
        Ok(Ok(Count {
            elements: a.elements / 2 + a.elements % 2,
        }))
    }
}

/// How many bytes a text has.
fn text_length(alloc: Global, token: &Token) -> Result<Result<Count, Refused>, NoMemory>
    ensures { IfOk result (λ r. checked plain_count reason r ≡ length_of (constants.quoted_values token.now.text.items)) }
{
    let Some(bytes) = quoted_values(alloc, token.text.as_slice())? else {
        return Ok(Err(Refused));
    };
    match u32::try_from(bytes.len()) {
        Ok(elements) => Ok(Ok(Count { elements })),
        Err(_) => Err(AllocError),
    }
}

/// Each part counts by the bytes of its text.
#[derive(Clone, Copy)]
struct TextLength;

impl Measure for TextLength {
    ghost measure = { λ _. text_length };

    #[tactic(auto, using(choice_trees::specs::ItemLaws::item_kinds))]
    fn of_item(&self, alloc: Global, item: &Item) -> Result<Result<Count, Refused>, NoMemory> {
        match item {
            Item::Leaf(_, token) => text_length(alloc, token),
            Item::Node(..) => Ok(Err(Refused)),
        }
    }

    fn of_no_statement(&self) -> Result<Count, Refused> {
        Err(Refused)
    }
}

/// So many bytes and the zero behind them.
#[derive(Clone, Copy)]
struct WithZero;

impl Judgement<Count, Count, Refused> for WithZero {
    ghost answers = { λ _ a r. checked plain_count reason r ≡ with_zero (plain_count a) };

    fn judge(&self, _alloc: Global, a: &Count) -> Result<Result<Count, Refused>, NoMemory> {
        match a.elements.checked_add(1) {
            Some(elements) => Ok(Ok(Count { elements })),
            None => Err(AllocError),
        }
    }
}

fn nothing_given(alloc: Global) -> Result<Outcomes<Count, Refused>, NoMemory>
    ensures { IfOk result (λ all. (on : ℕ → Bool) → ShowsCount on (refused tt) all) }
{
    let mut all = Outcomes::nothing(alloc);
    all.place(alloc, Formula::True, Err(Refused))?;
    Ok(all)
}

/// How many entries a list has.
fn entries<O: Oracle>(
    alloc: Global,
    oracle: &mut O,
    kind: Kind,
    parts: &[Choice<Item>],
) -> Result<Outcomes<Count, Refused>, NoMemory>
    ensures kept { O.admits oracle.new ≡ O.admits oracle.old }
    ensures shows { IfOk result (λ all. (c : List Bool) → IsTrue (value (has c) (O.admits oracle.old))
        → ShowsCount (has c) (fine (count_entries (parts_at (has c) kind 0 (plain_choices parts.now)))) all) }
{
    let total = totals(alloc, oracle, &OneEach, kind, 0, parts)?;
    let counts = judged(alloc, &HalfUp, total)?;
    Ok(counts)
}

/// How many elements a list in braces gives.
#[tactic(auto, using(choice_trees::specs::ItemLaws::item_kinds))]
fn list_in_braces<O: Oracle>(
    alloc: Global,
    oracle: &mut O,
    list: &Item,
) -> Result<Outcomes<Count, Refused>, NoMemory>
    ensures kept { O.admits oracle.new ≡ O.admits oracle.old }
    ensures shows { IfOk result (λ all. (c : List Bool) (element : PlainType) (brace last : PlainTree) → IsTrue (value (has c) (O.admits oracle.old))
        → ShowsCount (has c) (given (count_by_initialiser element (node Kind.Braces (more brace (more (item_at (has c) (plain_item list.now)) (more last none)))))) all) }
{
    match list {
        Item::Leaf(..) => nothing_given(alloc),
        Item::Node(kind, parts) => entries(alloc, oracle, *kind, parts),
    }
}

fn part_in_braces<O: Oracle>(
    alloc: Global,
    oracle: &mut O,
    list: &Part<'_>,
) -> Result<Outcomes<Count, Refused>, NoMemory>
    ensures kept { O.admits oracle.new ≡ O.admits oracle.old }
    ensures shows { IfOk result (λ all. (c : List Bool) (element : PlainType) (brace last : PlainTree) → IsTrue (value (has c) (O.admits oracle.old))
        → ShowsCount (has c) (given (count_by_initialiser element (node Kind.Braces (more brace (more (part_at (has c) list.now) (more last none)))))) all) }
{
    match list {
        Part::Item(item) => list_in_braces(alloc, oracle, item),
        Part::NoStatement => Outcomes::one(alloc, Count { elements: 1 }),
    }
}

/// How many elements braces with these parts give.
fn parts_of_braces<O: Oracle>(
    alloc: Global,
    oracle: &mut O,
    parts: &[Part<'_>],
) -> Result<Outcomes<Count, Refused>, NoMemory>
    ensures kept { O.admits oracle.new ≡ O.admits oracle.old }
    ensures shows { IfOk result (λ all. (c : List Bool) (element : PlainType) → IsTrue (value (has c) (O.admits oracle.old))
        → ShowsCount (has c) (given (count_by_initialiser element (node Kind.Braces (before (has c) parts.now none)))) all) }
{
    if parts.len() == 3 {
        let counts = part_in_braces(alloc, oracle, &parts[1])?;
        Ok(counts)
    } else {
        let none = nothing_given(alloc)?;
        Ok(none)
    }
}

/// What the variants of braces give, each where its condition is true.
fn variants_of_braces<O: Oracle>(
    alloc: Global,
    oracle: &mut O,
    variants: &[Variant<'_>],
) -> Result<Outcomes<Count, Refused>, NoMemory>
    ensures kept { O.admits oracle.new ≡ O.admits oracle.old }
    ensures shows { IfOk result (λ all. (c : List Bool) (element : PlainType) (parts : PlainTrees) → IsTrue (value (has c) (O.admits oracle.old))
        → Stands (has c) parts (shown (has c) variants.now) → ShowsCount (has c) (given (count_by_initialiser element (node Kind.Braces parts))) all) }
{
    let mut all = Outcomes::nothing(alloc);
    for variant in variants {
        let given = parts_of_braces(alloc, oracle, &variant.parts)?;
        all.place_under(alloc, &variant.when, &given)?;
    }
    Ok(all)
}

fn in_braces<O: Oracle>(
    alloc: Global,
    oracle: &mut O,
    parts: &[Choice<Item>],
) -> Result<Outcomes<Count, Refused>, NoMemory>
    ensures kept { O.admits oracle.new ≡ O.admits oracle.old }
    ensures shows { IfOk result (λ all. (c : List Bool) (element : PlainType) → IsTrue (value (has c) (O.admits oracle.old))
        → ShowsCount (has c) (given (count_by_initialiser element (node Kind.Braces (parts_at (has c) Kind.Braces 0 (plain_choices parts.now))))) all) }
{
    let all = variants(alloc, Kind::Braces, parts, oracle)?;
    let given = variants_of_braces(alloc, oracle, &all)?;
    Ok(given)
}

/// How many elements texts give an array of characters.
fn in_texts<O: Oracle>(
    alloc: Global,
    oracle: &mut O,
    parts: &[Choice<Item>],
) -> Result<Outcomes<Count, Refused>, NoMemory>
    ensures kept { O.admits oracle.new ≡ O.admits oracle.old }
    ensures shows { IfOk result (λ all. (c : List Bool) (element : PlainType) → IsTrue (value (has c) (O.admits oracle.old)) → IsTrue (is_character_type element)
        → ShowsCount (has c) (given (count_by_initialiser element (node Kind.Texts (parts_at (has c) Kind.Texts 0 (plain_choices parts.now))))) all) }
{
    let total = totals(alloc, oracle, &TextLength, Kind::Texts, 0, parts)?;
    let counts = judged(alloc, &WithZero, total)?;
    Ok(counts)
}

/// What texts give an array whose elements are characters or not.
fn given_by_texts<O: Oracle>(
    alloc: Global,
    oracle: &mut O,
    of_characters: bool,
    parts: &[Choice<Item>],
) -> Result<Outcomes<Count, Refused>, NoMemory>
    ensures kept { O.admits oracle.new ≡ O.admits oracle.old }
    ensures shows { IfOk result (λ all. (c : List Bool) (element : PlainType) → IsTrue (value (has c) (O.admits oracle.old)) → is_character_type element ≡ of_characters
        → ShowsCount (has c) (given (count_by_initialiser element (node Kind.Texts (parts_at (has c) Kind.Texts 0 (plain_choices parts.now))))) all) }
{
    if of_characters {
        let counts = in_texts(alloc, oracle, parts)?;
        Ok(counts)
    } else {
        let none = nothing_given(alloc)?;
        Ok(none)
    }
}

/// How many elements an initialiser gives an array that is declared without a size, in all configurations: as many as a list in braces has
/// entries; as many as texts have bytes, and one more, if the elements are characters. A refusal stands where it gives no number. Numbers
/// from 2^32 on are answered as want of memory.
#[tactic(auto, using(choice_trees::specs::ItemLaws::item_kinds))]
pub fn counts_by_initialiser<O: Oracle>(
    alloc: Global,
    oracle: &mut O,
    of_characters: bool,
    initialiser: &Item,
) -> Result<Outcomes<Count, Refused>, NoMemory>
    ensures kept { O.admits oracle.new ≡ O.admits oracle.old }
    ensures shows { IfOk result (λ all. (c : List Bool) (element : PlainType) → IsTrue (value (has c) (O.admits oracle.old)) → is_character_type element ≡ of_characters
        → ShowsCount (has c) (given (count_by_initialiser element (item_at (has c) (plain_item initialiser.now)))) all) }
{
    match initialiser {
        Item::Leaf(..) => nothing_given(alloc),
        Item::Node(kind, parts) => match kind {
            Kind::Braces => in_braces(alloc, oracle, parts),
            Kind::Texts => given_by_texts(alloc, oracle, of_characters, parts),
            _ => nothing_given(alloc),
        },
    }
}
