//! Nodes by the variants of their parts.
ghost use Rattle.std.specs.Prelude.{◌≡◌, ℕ, Bool, ◌&&◌, List, [], ◌∷◌, IsTrue, OnOk};
ghost use Rattle.cond_formula.specs.Features.{has};
ghost use Rattle.cond_formula.specs.Conditions.{condition_of, value};
ghost use Rattle.conditional.specs.Entries.{seen};
ghost use Rattle.c_tree.specs.Trees.{PlainTrees, none};
ghost use Rattle.choice_trees.specs.ChoiceTrees.{plain_item, plain_choices, item_at, parts_at};
ghost use Rattle.choice_variants.specs.Variants.{before, shown};
ghost use Rattle.type_tables.specs.Seen.{seen_tables};
ghost use Rattle.cond_member_uses.specs.Noted.{Noted, noted_at, Where};
ghost use Rattle.cond_unit_uses.specs.Functions.{NotesNode};

use c_tree::Kind;
use choice_trees::{Choice, Item};
use choice_variants::{Part, Variant, variants};
use cond_formula::{Formula, NoMemory, Oracle};
use cond_selections::Selection;
use conditional::CondList;
use conditional_steps::both_of;
use std::alloc::Global;
use type_tables::Tables;

/// What is noted of a node by its parts.
pub(crate) trait PartsReader {
    ghost notes: { Self → List Bool → PlainTrees → Noted → Noted → Type 0 };

    /// Notes the uses in these parts where the condition is true, in the order of the text.
    fn note_parts<O: Oracle>(
        &self,
        alloc: Global,
        oracle: &mut O,
        tables: &mut Tables,
        when: &Formula,
        parts: &[Part<'_>],
        log: &mut CondList<Selection>,
    ) -> Result<(), NoMemory>
        ensures kept { O.admits oracle.new ≡ O.admits oracle.old }
        ensures same { OnOk result ((on : ℕ → Bool) → seen_tables on tables.new ≡ seen_tables on tables.old) }
        ensures notes { OnOk result ((c : List Bool) → IsTrue (value (has c) (O.admits oracle.old))
            → Where (value (has c) (condition_of when.now)) (notes self.now c (before (has c) parts.now none)) (noted_at (has c) tables.old log.old) (noted_at (has c) tables.new log.new)) };
}

/// The uses in the parts of a variant, where the condition is true and the variant holds.
fn note_variant<R: PartsReader, O: Oracle>(
    alloc: Global,
    oracle: &mut O,
    tables: &mut Tables,
    when: &Formula,
    reader: &R,
    variant: &Variant<'_>,
    log: &mut CondList<Selection>,
) -> Result<(), NoMemory>
    ensures kept { O.admits oracle.new ≡ O.admits oracle.old }
    ensures same { OnOk result ((on : ℕ → Bool) → seen_tables on tables.new ≡ seen_tables on tables.old) }
    ensures notes { OnOk result ((c : List Bool) → IsTrue (value (has c) (O.admits oracle.old))
        → Where (value (has c) (condition_of when.now) && value (has c) (condition_of variant.now.when)) (R.notes reader.now c (before (has c) variant.now.parts.items none)) (noted_at (has c) tables.old log.old) (noted_at (has c) tables.new log.new)) }
{
    let here = both_of(alloc, when, &variant.when)?;
    let parts = variant.parts.as_slice();
    reader.note_parts(alloc, oracle, tables, &here, parts, log)?;
    Ok(())
}

/// Those in the variants of the parts of a node, of which one holds in each configuration.
fn note_each<R: PartsReader, O: Oracle>(
    alloc: Global,
    oracle: &mut O,
    tables: &mut Tables,
    when: &Formula,
    reader: &R,
    variants: &[Variant<'_>],
    log: &mut CondList<Selection>,
) -> Result<(), NoMemory>
    ensures kept { O.admits oracle.new ≡ O.admits oracle.old }
    ensures same { OnOk result ((on : ℕ → Bool) → seen_tables on tables.new ≡ seen_tables on tables.old) }
    ensures notes { OnOk result ((c : List Bool) (parts : PlainTrees) → IsTrue (value (has c) (O.admits oracle.old)) → seen (has c) (shown (has c) variants.now) ≡ parts ∷ []
        → Where (value (has c) (condition_of when.now)) (R.notes reader.now c parts) (noted_at (has c) tables.old log.old) (noted_at (has c) tables.new log.new)) }
{
    for variant in variants {
        note_variant(alloc, oracle, tables, when, reader, variant, log)?;
    }
    Ok(())
}

/// Those in a node with these parts.
fn note_kind<R: PartsReader, O: Oracle>(
    alloc: Global,
    oracle: &mut O,
    tables: &mut Tables,
    when: &Formula,
    reader: &R,
    kind: Kind,
    parts: &[Choice<Item>],
    log: &mut CondList<Selection>,
) -> Result<(), NoMemory>
    ensures kept { O.admits oracle.new ≡ O.admits oracle.old }
    ensures same { OnOk result ((on : ℕ → Bool) → seen_tables on tables.new ≡ seen_tables on tables.old) }
    ensures notes { OnOk result ((c : List Bool) → IsTrue (value (has c) (O.admits oracle.old))
        → Where (value (has c) (condition_of when.now)) (R.notes reader.now c (parts_at (has c) kind 0 (plain_choices parts.now))) (noted_at (has c) tables.old log.old) (noted_at (has c) tables.new log.new)) }
{
    let all = variants(alloc, kind, parts, oracle)?;
    note_each(alloc, oracle, tables, when, reader, &all, log)?;
    Ok(())
}

/// Those in an item where the condition is true, by its parts if it is a node.
#[tactic(auto, using(choice_trees::specs::ItemLaws::item_kinds))]
pub(crate) fn note_node<R: PartsReader, O: Oracle>(
    alloc: Global,
    oracle: &mut O,
    tables: &mut Tables,
    when: &Formula,
    reader: &R,
    item: &Item,
    log: &mut CondList<Selection>,
) -> Result<(), NoMemory>
    ensures kept { O.admits oracle.new ≡ O.admits oracle.old }
    ensures same { OnOk result ((on : ℕ → Bool) → seen_tables on tables.new ≡ seen_tables on tables.old) }
    ensures notes { OnOk result ((c : List Bool) → IsTrue (value (has c) (O.admits oracle.old))
        → Where (value (has c) (condition_of when.now)) (NotesNode (R.notes reader.now c) (item_at (has c) (plain_item item.now))) (noted_at (has c) tables.old log.old) (noted_at (has c) tables.new log.new)) }
{
    match item {
        Item::Leaf(..) => Ok(()),
        Item::Node(kind, parts) => note_kind(
            alloc, oracle, tables, when, reader, *kind, parts, log,
        ),
    }
}
