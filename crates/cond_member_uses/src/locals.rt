//! The uses of members in declarations among statements (6.7, 6.8.2).
ghost use Rattle.std.specs.Prelude.{◌≡◌, Bool, ◌&&◌, List, [], ◌∷◌, IsTrue, OnOk};
ghost use Rattle.cond_formula.specs.Features.{has};
ghost use Rattle.cond_formula.specs.Conditions.{condition_of, value};
ghost use Rattle.c_tree.specs.declared.kinds.Kind.TheVariants as k;
ghost use Rattle.c_tree.specs.Trees.{PlainTree, PlainTrees, none, more};
ghost use Rattle.conditional.specs.Entries.{seen};
ghost use Rattle.choice_trees.specs.ChoiceTrees.{plain_item, plain_choices, item_at, parts_at};
ghost use Rattle.choice_variants.specs.Variants.{part_at, before, shown};
ghost use Rattle.type_tables.specs.Blocks.{OnlyLocals};
ghost use Rattle.cond_member_uses.specs.Noted.{noted_at, NotesLocals, Where};

use crate::declarators::note_list;
use c_tree::Kind;
use choice_trees::{Choice, Item};
use choice_variants::{Part, Variant, variants};
use cond_declarators::base_of;
use cond_formula::{Formula, NoMemory, Oracle};
use cond_selections::Selection;
use conditional::CondList;
use conditional_steps::both_of;
use member_uses::locals_are_used;
use std::alloc::Global;
use type_tables::Tables;

/// The uses in a declaration with these words and this list of declarators, where the condition is true; words use none.
fn note_words<O: Oracle>(
    alloc: Global,
    oracle: &mut O,
    tables: &mut Tables,
    when: &Formula,
    words: &Item,
    list: &Item,
    log: &mut CondList<Selection>,
) -> Result<(), NoMemory>
    ensures kept { O.admits oracle.new ≡ O.admits oracle.old }
    ensures outside { OnOk result (OnlyLocals tables.old tables.new) }
    ensures notes { OnOk result ((c : List Bool) (end : PlainTree) → IsTrue (value (has c) (O.admits oracle.old))
        → Where (value (has c) (condition_of when.now)) (NotesLocals (more (item_at (has c) (plain_item words.now)) (more (item_at (has c) (plain_item list.now)) (more end none)))) (noted_at (has c) tables.old log.old) (noted_at (has c) tables.new log.new)) }
{
    locals_are_used();
    let base = base_of(alloc, oracle, tables, words)?;
    note_list(alloc, oracle, tables, when, &base, list, log)
}

/// Those in a declaration with these words, by what stands for its list.
fn note_behind<O: Oracle>(
    alloc: Global,
    oracle: &mut O,
    tables: &mut Tables,
    when: &Formula,
    words: &Item,
    list: &Part<'_>,
    log: &mut CondList<Selection>,
) -> Result<(), NoMemory>
    ensures kept { O.admits oracle.new ≡ O.admits oracle.old }
    ensures outside { OnOk result (OnlyLocals tables.old tables.new) }
    ensures notes { OnOk result ((c : List Bool) (end : PlainTree) → IsTrue (value (has c) (O.admits oracle.old))
        → Where (value (has c) (condition_of when.now)) (NotesLocals (more (item_at (has c) (plain_item words.now)) (more (part_at (has c) list.now) (more end none)))) (noted_at (has c) tables.old log.old) (noted_at (has c) tables.new log.new)) }
{
    match list {
        Part::Item(list) => note_words(alloc, oracle, tables, when, words, list, log),
        Part::NoStatement => Ok(()),
    }
}

/// Those in a declaration, by what stands for its words and its list.
fn note_two<O: Oracle>(
    alloc: Global,
    oracle: &mut O,
    tables: &mut Tables,
    when: &Formula,
    words: &Part<'_>,
    list: &Part<'_>,
    log: &mut CondList<Selection>,
) -> Result<(), NoMemory>
    ensures kept { O.admits oracle.new ≡ O.admits oracle.old }
    ensures outside { OnOk result (OnlyLocals tables.old tables.new) }
    ensures notes { OnOk result ((c : List Bool) (end : PlainTree) → IsTrue (value (has c) (O.admits oracle.old))
        → Where (value (has c) (condition_of when.now)) (NotesLocals (more (part_at (has c) words.now) (more (part_at (has c) list.now) (more end none)))) (noted_at (has c) tables.old log.old) (noted_at (has c) tables.new log.new)) }
{
    match words {
        Part::Item(words) => note_behind(alloc, oracle, tables, when, words, list, log),
        Part::NoStatement => Ok(()),
    }
}

/// Those in a declaration with the parts of a variant, where the condition is true and the variant holds.
fn note_variant<O: Oracle>(
    alloc: Global,
    oracle: &mut O,
    tables: &mut Tables,
    when: &Formula,
    variant: &Variant<'_>,
    log: &mut CondList<Selection>,
) -> Result<(), NoMemory>
    ensures kept { O.admits oracle.new ≡ O.admits oracle.old }
    ensures outside { OnOk result (OnlyLocals tables.old tables.new) }
    ensures notes { OnOk result ((c : List Bool) → IsTrue (value (has c) (O.admits oracle.old))
        → Where (value (has c) (condition_of when.now) && value (has c) (condition_of variant.now.when)) (NotesLocals (before (has c) variant.now.parts.items none)) (noted_at (has c) tables.old log.old) (noted_at (has c) tables.new log.new)) }
{
    if variant.parts.len() != 3 {
        return Ok(());
    }
    let here = both_of(alloc, when, &variant.when)?;
    let words = &variant.parts[0];
    let list = &variant.parts[1];
    note_two(alloc, oracle, tables, &here, words, list, log)
}

/// Those in a declaration, by the variants of its parts, of which one holds in each configuration.
fn note_each<O: Oracle>(
    alloc: Global,
    oracle: &mut O,
    tables: &mut Tables,
    when: &Formula,
    variants: &[Variant<'_>],
    log: &mut CondList<Selection>,
) -> Result<(), NoMemory>
    ensures kept { O.admits oracle.new ≡ O.admits oracle.old }
    ensures outside { OnOk result (OnlyLocals tables.old tables.new) }
    ensures notes { OnOk result ((c : List Bool) (parts : PlainTrees) → IsTrue (value (has c) (O.admits oracle.old)) → seen (has c) (shown (has c) variants.now) ≡ parts ∷ []
        → Where (value (has c) (condition_of when.now)) (NotesLocals parts) (noted_at (has c) tables.old log.old) (noted_at (has c) tables.new log.new)) }
{
    for variant in variants {
        note_variant(alloc, oracle, tables, when, variant, log)?;
    }
    Ok(())
}

/// The uses in a declaration with these parts, where the condition is true; what it declares is visible behind it.
pub(crate) fn note_locals<O: Oracle>(
    alloc: Global,
    oracle: &mut O,
    tables: &mut Tables,
    when: &Formula,
    parts: &[Choice<Item>],
    log: &mut CondList<Selection>,
) -> Result<(), NoMemory>
    ensures kept { O.admits oracle.new ≡ O.admits oracle.old }
    ensures outside { OnOk result (OnlyLocals tables.old tables.new) }
    ensures notes { OnOk result ((c : List Bool) → IsTrue (value (has c) (O.admits oracle.old))
        → Where (value (has c) (condition_of when.now)) (NotesLocals (parts_at (has c) k.LocalDeclaration 0 (plain_choices parts.now))) (noted_at (has c) tables.old log.old) (noted_at (has c) tables.new log.new)) }
{
    let all = variants(alloc, Kind::LocalDeclaration, parts, oracle)?;
    note_each(alloc, oracle, tables, when, &all, log)
}
