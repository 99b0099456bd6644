//! Types by their words, where these declare no struct (6.7.2).
ghost use Rattle.std.specs.Prelude.{◌≡◌, Bool, false, List, Some, IsTrue, IfOk};
ghost use Rattle.cond_formula.specs.Features.{has};
ghost use Rattle.cond_formula.specs.Conditions.{value};
ghost use Rattle.conditional.specs.Entries.{Stands};
ghost use Rattle.c_types.specs.Types.{structure};
ghost use Rattle.c_tree.specs.Trees.{PlainTree, plain_tree, plain_trees};
ghost use Rattle.choice_trees.specs.ChoiceTrees.{plain_item, item_at};
ghost use Rattle.choice_expansions.specs.Expansions.{expanded};
ghost use Rattle.core_meaning.specs.Entities.{Scope};
ghost use Rattle.core_meaning.specs.Declarations.{based};
ghost use Rattle.operand_types.specs.OperandTypes.{outcome_as};
ghost use Rattle.type_tables.specs.Forms.{declared_type_form};
ghost use Rattle.type_tables.specs.Questions.{where_declared};
ghost use Rattle.type_tables.specs.Seen.{seen_tables};
ghost use Rattle.type_tables.specs.Follows.{Follows};
ghost use Rattle.cond_declarators.specs.Types.{ShowsType, based_in, base_type};
ghost use Rattle.cond_declarators.specs.Elements.{struct_if_any};

use crate::shown::refused_everywhere;
use c_tree::{Terminal, Tree};
use c_types::CType;
use choice_expansions::{Expansion, expansions};
use choice_trees::Item;
use cond_formula::{Formula, NoMemory, Oracle};
use conditional::Outcomes;
use operand_rules::Refused;
use plain_declarators::name_in;
use plain_scope::{arithmetic_words, has_terminal};
use std::alloc::Global;
use type_tables::{DeclaredType, Tables};

/// The type of the struct with this number.
#[tactic(auto, using(c_types::specs::TypeLaws::type_kinds))]
pub(crate) fn struct_type(number: u32) -> DeclaredType
    ensures { declared_type_form result ≡ structure number }
{
    DeclaredType {
        ty: CType::Struct(number),
    }
}

/// The struct with this number, where it is declared.
fn types_of_struct<O: Oracle>(
    alloc: Global,
    oracle: &mut O,
    tables: &Tables,
    number: u32,
) -> Result<Outcomes<DeclaredType, Refused>, NoMemory>
    ensures kept { O.admits oracle.new ≡ O.admits oracle.old }
    ensures shows { IfOk result (λ all. (c : List Bool) → IsTrue (value (has c) (O.admits oracle.old))
        → ShowsType (has c) (struct_if_any (where_declared (seen_tables (has c) tables.now) (Some number))) all) }
{
    let mut all = Outcomes::nothing(alloc);
    let declared = tables.where_declared(alloc, number)?;
    let elsewhere = Formula::not(alloc, declared.try_clone(alloc)?)?;
    all.place_possible(alloc, oracle, declared, Ok(struct_type(number)))?;
    all.place_possible(alloc, oracle, elsewhere, Err(Refused))?;
    Ok(all)
}

/// The struct of a tag, where it is visible.
fn types_of_tag<O: Oracle>(
    alloc: Global,
    oracle: &mut O,
    tables: &Tables,
    tag: &[u8],
) -> Result<Outcomes<DeclaredType, Refused>, NoMemory>
    ensures kept { O.admits oracle.new ≡ O.admits oracle.old }
    ensures shows { IfOk result (λ all. (c : List Bool) → IsTrue (value (has c) (O.admits oracle.old))
        → ShowsType (has c) (struct_if_any ((seen_tables (has c) tables.now).tags tag.now)) all) }
{
    match tables.tagged(tag) {
        Some(number) => {
            let types = types_of_struct(alloc, oracle, tables, number)?;
            Ok(types)
        }
        None => {
            let none = refused_everywhere(alloc)?;
            Ok(none)
        }
    }
}

/// The type that words name.
fn types_of_words<O: Oracle>(
    alloc: Global,
    oracle: &mut O,
    tables: &Tables,
    words: &[Tree],
) -> Result<Outcomes<DeclaredType, Refused>, NoMemory>
    ensures kept { O.admits oracle.new ≡ O.admits oracle.old }
    ensures shows { IfOk result (λ all. (c : List Bool) (scope : Scope) (f : Follows (seen_tables (has c) tables.now) scope) → IsTrue (value (has c) (O.admits oracle.old))
        → ShowsType (has c) (outcome_as (base_type f.by) (based false scope (plain_trees words.now))) all) }
{
    if !has_terminal(words, Terminal::Struct) {
        let ty = arithmetic_words(words);
        let types = Outcomes::one(alloc, DeclaredType { ty })?;
        return Ok(types);
    }
    match name_in(words) {
        Some(tag) => {
            let types = types_of_tag(alloc, oracle, tables, tag.text.as_slice())?;
            Ok(types)
        }
        None => {
            let none = refused_everywhere(alloc)?;
            Ok(none)
        }
    }
}

/// The type that the words in a tree name.
#[tactic(auto, using(c_tree::specs::TreeLaws::tree_kinds))]
fn types_of_tree<O: Oracle>(
    alloc: Global,
    oracle: &mut O,
    tables: &Tables,
    words: &Tree,
) -> Result<Outcomes<DeclaredType, Refused>, NoMemory>
    ensures kept { O.admits oracle.new ≡ O.admits oracle.old }
    ensures shows { IfOk result (λ all. (c : List Bool) (scope : Scope) (f : Follows (seen_tables (has c) tables.now) scope) → IsTrue (value (has c) (O.admits oracle.old))
        → ShowsType (has c) (outcome_as (base_type f.by) (based_in false scope (plain_tree words.now))) all) }
{
    match words {
        Tree::Leaf(_) => refused_everywhere(alloc),
        Tree::Node(_, parts) => types_of_words(alloc, oracle, tables, parts),
    }
}

/// The types that the words name, each where its condition is true.
fn types_of_each<O: Oracle>(
    alloc: Global,
    oracle: &mut O,
    tables: &Tables,
    expansions: &[Expansion],
) -> Result<Outcomes<DeclaredType, Refused>, NoMemory>
    ensures kept { O.admits oracle.new ≡ O.admits oracle.old }
    ensures shows { IfOk result (λ all. (c : List Bool) (scope : Scope) (f : Follows (seen_tables (has c) tables.now) scope) (words : PlainTree)
        → IsTrue (value (has c) (O.admits oracle.old)) → Stands (has c) words (expanded expansions.now)
        → ShowsType (has c) (outcome_as (base_type f.by) (based_in false scope words)) all) }
{
    let mut all = Outcomes::nothing(alloc);
    for expansion in expansions {
        let types = types_of_tree(alloc, oracle, tables, &expansion.tree)?;
        all.place_under(alloc, &expansion.when, &types)?;
    }
    Ok(all)
}

/// The type that words name where they declare no struct, in all configurations. Equal types are one.
pub fn base_of<O: Oracle>(
    alloc: Global,
    oracle: &mut O,
    tables: &Tables,
    words: &Item,
) -> Result<Outcomes<DeclaredType, Refused>, NoMemory>
    ensures kept { O.admits oracle.new ≡ O.admits oracle.old }
    ensures shows { IfOk result (λ all. (c : List Bool) (scope : Scope) (f : Follows (seen_tables (has c) tables.now) scope) → IsTrue (value (has c) (O.admits oracle.old))
        → ShowsType (has c) (outcome_as (base_type f.by) (based_in false scope (item_at (has c) (plain_item words.now)))) all) }
{
    let expansions = expansions(alloc, oracle, words)?;
    let types = types_of_each(alloc, oracle, tables, &expansions)?;
    Ok(types)
}
