//! Functions by their declarators (6.7.6).
ghost use Rattle.std.specs.Prelude.{◌≡◌, Bool, ◌&&◌, List, [], ◌∷◌, Some, IsTrue, IfOk};
ghost use Rattle.cond_formula.specs.Features.{has};
ghost use Rattle.cond_formula.specs.Conditions.{condition_of, value};
ghost use Rattle.conditional.specs.Entries.{seen};
ghost use Rattle.c_text.specs.Token.{plain_token};
ghost use Rattle.c_tree.specs.Trees.{PlainTrees, node, none};
ghost use Rattle.choice_trees.specs.ChoiceTrees.{plain_item, plain_choices, item_at, parts_at};
ghost use Rattle.choice_variants.specs.Variants.{before, shown};
ghost use Rattle.core_meaning.specs.Declarations as meaning;
ghost use Rattle.c_tree.specs.declared.terminals.Terminal.TheVariants as t;
ghost use Rattle.c_tree.specs.Heights.{count_stars};
ghost use Rattle.cond_parameters.specs.Parameters.{IsList};
ghost use Rattle.cond_units.specs.Seen.{seen_unit};
ghost use Rattle.cond_units.specs.Declaring.{Declares};
ghost use Rattle.cond_units.specs.Functions.{IsFunctionDeclarator, HasList, judged_parts, judged_declarator};
ghost use Rattle.cond_units.specs.Where.{Where};

use crate::UnitTables;
use crate::function_types::read_by_types;
use crate::heads::{FunctionHead, HeadReader};
use crate::parts::{behind_word, count_of_stars, name_in};
use c_text::Token;
use c_tree::{Kind, Terminal};
use choice_trees::{Choice, Item};
use choice_variants::{Part, Variant, variants};
use cond_formula::{Formula, NoMemory, Oracle};
use conditional::Outcomes;
use conditional_steps::{both_of, never};
use operand_rules::Refused;
use reduced_conditions::either;
use std::alloc::Global;
use type_tables::DeclaredType;

/// What reads the head of a function, and the type before it.
#[derive(Clone, Copy)]
struct Reading<'d, R> {
    reader: &'d R,
    base: &'d Outcomes<DeclaredType, Refused>,
}

/// The function of a head, where the condition is true.
fn read_listed<R: HeadReader, O: Oracle>(
    alloc: Global,
    oracle: &mut O,
    unit: &mut UnitTables,
    when: &Formula,
    reading: &Reading<'_, R>,
    head: &FunctionHead<'_>,
) -> Result<Formula, NoMemory>
    ensures kept { O.admits oracle.new ≡ O.admits oracle.old }
    ensures declares { IfOk result (λ f. (c : List Bool) → IsTrue (value (has c) (O.admits oracle.old))
        → Where (value (has c) (condition_of when.now))
        (Declares (has c) reading.now.base.now (R.judged reading.now.reader.now c head.now.stars (plain_token head.now.name.now) (Some (item_at (has c) (plain_item head.now.list.now)))) (IsList (item_at (has c) (plain_item head.now.list.now)) × R.ready reading.now.reader.now c))
        (seen_unit (has c) unit.old) (seen_unit (has c) unit.new) (value (has c) (condition_of f))) }
{
    let alternatives = reading.base.fine.alternatives.as_slice();
    let refused = read_by_types(
        alloc,
        oracle,
        unit,
        when,
        reading.reader,
        head,
        alternatives,
    )?;
    Ok(refused)
}

/// The function of a name and what stands for its list, where the condition is true.
fn read_named<R: HeadReader, O: Oracle>(
    alloc: Global,
    oracle: &mut O,
    unit: &mut UnitTables,
    when: &Formula,
    reading: &Reading<'_, R>,
    name: &Token,
    parts: &[Part<'_>],
) -> Result<Formula, NoMemory>
    ensures kept { O.admits oracle.new ≡ O.admits oracle.old }
    ensures declares { IfOk result (λ f. (c : List Bool) → IsTrue (value (has c) (O.admits oracle.old))
        → Where (value (has c) (condition_of when.now))
        (Declares (has c) reading.now.base.now (λ unit ty. R.judged reading.now.reader.now c (count_stars (before (has c) parts.now none)) (plain_token name.now) (meaning.behind_word t.OpenParenthesis (before (has c) parts.now none)) unit ty) (HasList (before (has c) parts.now none) × R.ready reading.now.reader.now c))
        (seen_unit (has c) unit.old) (seen_unit (has c) unit.new) (value (has c) (condition_of f))) }
{
    let Some(Part::Item(list)) = behind_word(parts, Terminal::OpenParenthesis) else {
        return when.try_clone(alloc);
    };
    let head = FunctionHead {
        stars: count_of_stars(parts),
        name,
        list,
    };
    let refused = read_listed(alloc, oracle, unit, when, reading, &head)?;
    Ok(refused)
}

/// The function of a declarator with these parts, where the condition is true.
fn read_parts<R: HeadReader, O: Oracle>(
    alloc: Global,
    oracle: &mut O,
    unit: &mut UnitTables,
    when: &Formula,
    reading: &Reading<'_, R>,
    parts: &[Part<'_>],
) -> Result<Formula, NoMemory>
    ensures kept { O.admits oracle.new ≡ O.admits oracle.old }
    ensures declares { IfOk result (λ f. (c : List Bool) → IsTrue (value (has c) (O.admits oracle.old))
        → Where (value (has c) (condition_of when.now))
        (Declares (has c) reading.now.base.now (judged_parts (R.judged reading.now.reader.now c) (before (has c) parts.now none)) (HasList (before (has c) parts.now none) × R.ready reading.now.reader.now c))
        (seen_unit (has c) unit.old) (seen_unit (has c) unit.new) (value (has c) (condition_of f))) }
{
    let Some(name) = name_in(parts) else {
        return when.try_clone(alloc);
    };
    let refused = read_named(alloc, oracle, unit, when, reading, name, parts)?;
    Ok(refused)
}

/// The function of one variant of a declarator, where the condition is true and that variant stands.
fn read_variant<R: HeadReader, O: Oracle>(
    alloc: Global,
    oracle: &mut O,
    unit: &mut UnitTables,
    when: &Formula,
    reading: &Reading<'_, R>,
    variant: &Variant<'_>,
) -> Result<Formula, NoMemory>
    ensures kept { O.admits oracle.new ≡ O.admits oracle.old }
    ensures declares { IfOk result (λ f. (c : List Bool) → IsTrue (value (has c) (O.admits oracle.old))
        → Where (value (has c) (condition_of when.now) && value (has c) (condition_of variant.now.when))
        (Declares (has c) reading.now.base.now (judged_parts (R.judged reading.now.reader.now c) (before (has c) variant.now.parts.items none)) (HasList (before (has c) variant.now.parts.items none) × R.ready reading.now.reader.now c))
        (seen_unit (has c) unit.old) (seen_unit (has c) unit.new) (value (has c) (condition_of f))) }
{
    let here = both_of(alloc, when, &variant.when)?;
    let parts = variant.parts.as_slice();
    let refused = read_parts(alloc, oracle, unit, &here, reading, parts)?;
    Ok(refused)
}

/// The function of the variants of a declarator, of which one stands in each configuration.
fn read_each<R: HeadReader, O: Oracle>(
    alloc: Global,
    oracle: &mut O,
    unit: &mut UnitTables,
    when: &Formula,
    reading: &Reading<'_, R>,
    variants: &[Variant<'_>],
) -> Result<Formula, NoMemory>
    ensures kept { O.admits oracle.new ≡ O.admits oracle.old }
    ensures declares { IfOk result (λ f. (c : List Bool) (parts : PlainTrees) → IsTrue (value (has c) (O.admits oracle.old)) → seen (has c) (shown (has c) variants.now) ≡ parts ∷ []
        → Where (value (has c) (condition_of when.now))
        (Declares (has c) reading.now.base.now (judged_parts (R.judged reading.now.reader.now c) parts) (HasList parts × R.ready reading.now.reader.now c))
        (seen_unit (has c) unit.old) (seen_unit (has c) unit.new) (value (has c) (condition_of f))) }
{
    let mut refused = never()?;
    for variant in variants {
        let found = read_variant(alloc, oracle, unit, when, reading, variant)?;
        refused = either(alloc, refused, found)?;
    }
    Ok(refused)
}

/// The function of a declarator that is a node.
fn read_node<R: HeadReader, O: Oracle>(
    alloc: Global,
    oracle: &mut O,
    unit: &mut UnitTables,
    when: &Formula,
    reading: &Reading<'_, R>,
    kind: Kind,
    parts: &[Choice<Item>],
) -> Result<Formula, NoMemory>
    ensures kept { O.admits oracle.new ≡ O.admits oracle.old }
    ensures declares { IfOk result (λ f. (c : List Bool) → IsTrue (value (has c) (O.admits oracle.old))
        → Where (value (has c) (condition_of when.now))
        (Declares (has c) reading.now.base.now (judged_declarator (R.judged reading.now.reader.now c) (node kind (parts_at (has c) kind 0 (plain_choices parts.now)))) (IsFunctionDeclarator (node kind (parts_at (has c) kind 0 (plain_choices parts.now))) × R.ready reading.now.reader.now c))
        (seen_unit (has c) unit.old) (seen_unit (has c) unit.new) (value (has c) (condition_of f))) }
{
    let all = variants(alloc, kind, parts, oracle)?;
    let refused = read_each(alloc, oracle, unit, when, reading, &all)?;
    Ok(refused)
}

/// The function of a declarator, where the condition is true: its head is read behind each type that stands before it. The answer is where it is
/// refused. A declarator with alternatives for its parts is read once for each of them.
#[tactic(auto, using(choice_trees::specs::ItemLaws::item_kinds))]
pub fn read_function<R: HeadReader, O: Oracle>(
    alloc: Global,
    oracle: &mut O,
    unit: &mut UnitTables,
    when: &Formula,
    reader: &R,
    base: &Outcomes<DeclaredType, Refused>,
    declarator: &Item,
) -> Result<Formula, NoMemory>
    ensures kept { O.admits oracle.new ≡ O.admits oracle.old }
    ensures declares { IfOk result (λ f. (c : List Bool) → IsTrue (value (has c) (O.admits oracle.old))
        → Where (value (has c) (condition_of when.now))
        (Declares (has c) base.now (judged_declarator (R.judged reader.now c) (item_at (has c) (plain_item declarator.now))) (IsFunctionDeclarator (item_at (has c) (plain_item declarator.now)) × R.ready reader.now c))
        (seen_unit (has c) unit.old) (seen_unit (has c) unit.new) (value (has c) (condition_of f))) }
{
    match declarator {
        Item::Leaf(..) => when.try_clone(alloc),
        Item::Node(kind, parts) => {
            let reading = Reading { reader, base };
            let refused = read_node(alloc, oracle, unit, when, &reading, *kind, parts)?;
            Ok(refused)
        }
    }
}
