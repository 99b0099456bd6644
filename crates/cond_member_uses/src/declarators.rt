//! The uses of members in the initialisers of declarators, one after the other (6.7).
ghost use Rattle.std.specs.Prelude.{◌≡◌, Bool, false, ◌&&◌, List, ◌++◌, IsTrue, OnOk, option_map};
ghost use Rattle.cond_formula.specs.Features.{has};
ghost use Rattle.cond_formula.specs.Conditions.{condition_of, value};
ghost use Rattle.conditional.specs.Entries.{seen, under, listed};
ghost use Rattle.c_tree.specs.declared.kinds.Kind.TheVariants as k;
ghost use Rattle.c_tree.specs.Trees.{PlainTrees, node};
ghost use Rattle.choice_trees.specs.ChoiceTrees.{plain_item, plain_choices, item_at, parts_at};
ghost use Rattle.declarator_lists.specs.Lists.{declared_in, trees_of};
ghost use Rattle.declarator_lists.specs.Entries.{listed_at};
ghost use Rattle.member_uses.specs.Declarations.{uses_initially};
ghost use Rattle.type_tables.specs.Tables.{known_in};
ghost use Rattle.type_tables.specs.Seen.{seen_tables};
ghost use Rattle.type_tables.specs.Blocks.{OnlyLocals};
ghost use Rattle.cond_selections.specs.Selected.{plain_selection};
ghost use Rattle.cond_member_uses.specs.Noted.{noted_at, Where};
ghost use Rattle.cond_member_uses.specs.Declared.{NotesOne, NotesList};

use choice_trees::{Choice, Item};
use cond_formula::{Formula, NoMemory, Oracle};
use cond_locals::declare_local;
use cond_selections::{Selection, push_selections};
use conditional::{CondList, Outcomes};
use conditional_steps::both_of;
use declaration_readings::locals_are_read;
use declarator_lists::{ListedDeclarator, listed_declarators};
use known_tables::Visible;
use member_uses::locals_use_initialisers;
use operand_rules::Refused;
use std::alloc::Global;
use type_tables::{DeclaredType, Tables};

/// Notes the uses of an initialiser, if there is one, where the condition is true, with what is visible by the tables.
pub(crate) fn note_initialiser<O: Oracle>(
    alloc: Global,
    oracle: &mut O,
    tables: &Tables,
    when: &Formula,
    initialiser: Option<&Item>,
    log: &mut CondList<Selection>,
) -> Result<(), NoMemory>
    ensures kept { O.admits oracle.new ≡ O.admits oracle.old }
    ensures notes { OnOk result ((c : List Bool) → IsTrue (value (has c) (O.admits oracle.old))
        → seen (has c) (listed plain_selection log.new)
        ≡ seen (has c) (listed plain_selection log.old)
        ++ under (value (has c) (condition_of when.now)) (uses_initially (known_in (seen_tables (has c) tables.now)) (option_map (λ item. item_at (has c) (plain_item item.now)) initialiser.entry))) }
{
    match initialiser {
        None => Ok(()),
        Some(item) => {
            let visible = Visible { tables };
            push_selections(alloc, &visible, oracle, when, item, log)
        }
    }
}

/// Those of a declarator of a list, where the condition is true and it is there; what it declares is visible in its initialiser.
fn note_listed<O: Oracle>(
    alloc: Global,
    oracle: &mut O,
    tables: &mut Tables,
    when: &Formula,
    base: &Outcomes<DeclaredType, Refused>,
    listed: &ListedDeclarator<'_>,
    log: &mut CondList<Selection>,
) -> Result<(), NoMemory>
    ensures kept { O.admits oracle.new ≡ O.admits oracle.old }
    ensures outside { OnOk result (OnlyLocals tables.old tables.new) }
    ensures notes { OnOk result ((c : List Bool) → IsTrue (value (has c) (O.admits oracle.old))
        → Where (value (has c) (condition_of when.now) && value (has c) (condition_of listed.now.when))
        (NotesOne (has c) base.now (item_at (has c) (plain_item listed.now.declarator.now)) (option_map (λ item. item_at (has c) (plain_item item.now)) listed.now.initialiser))
        (noted_at (has c) tables.old log.old) (noted_at (has c) tables.new log.new)) }
{
    let here = both_of(alloc, when, &listed.when)?;
    let initialiser = listed.initialiser;
    declare_local(
        alloc,
        oracle,
        tables,
        &here,
        base,
        listed.declarator,
        initialiser,
    )?;
    note_initialiser(alloc, oracle, tables, &here, initialiser, log)
}

/// Those of the declarators of a list, one after the other.
fn note_each<O: Oracle>(
    alloc: Global,
    oracle: &mut O,
    tables: &mut Tables,
    when: &Formula,
    base: &Outcomes<DeclaredType, Refused>,
    all: &[ListedDeclarator<'_>],
    log: &mut CondList<Selection>,
) -> Result<(), NoMemory>
    ensures kept { O.admits oracle.new ≡ O.admits oracle.old }
    ensures outside { OnOk result (OnlyLocals tables.old tables.new) }
    ensures notes { OnOk result ((c : List Bool) (list : PlainTrees) → IsTrue (value (has c) (O.admits oracle.old)) → seen (has c) (listed_at (has c) all.now) ≡ declared_in (trees_of list)
        → Where (value (has c) (condition_of when.now)) (NotesList (has c) base.now list) (noted_at (has c) tables.old log.old) (noted_at (has c) tables.new log.new)) }
{
    locals_are_read();
    locals_use_initialisers();
    for listed in all {
        note_listed(alloc, oracle, tables, when, base, listed, log)?;
    }
    Ok(())
}

/// Those of the parts of a list of declarators.
fn note_parts<O: Oracle>(
    alloc: Global,
    oracle: &mut O,
    tables: &mut Tables,
    when: &Formula,
    base: &Outcomes<DeclaredType, Refused>,
    parts: &[Choice<Item>],
    log: &mut CondList<Selection>,
) -> Result<(), NoMemory>
    ensures kept { O.admits oracle.new ≡ O.admits oracle.old }
    ensures outside { OnOk result (OnlyLocals tables.old tables.new) }
    ensures notes { OnOk result ((c : List Bool) → IsTrue (value (has c) (O.admits oracle.old))
        → Where (value (has c) (condition_of when.now)) (NotesList (has c) base.now (parts_at (has c) k.Declarators 0 (plain_choices parts.now))) (noted_at (has c) tables.old log.old) (noted_at (has c) tables.new log.new)) }
{
    let all = listed_declarators(alloc, oracle, parts)?;
    note_each(alloc, oracle, tables, when, base, &all, log)
}

/// Those of a list of declarators, where the condition is true.
#[tactic(auto, using(choice_trees::specs::ItemLaws::item_kinds))]
pub(crate) fn note_list<O: Oracle>(
    alloc: Global,
    oracle: &mut O,
    tables: &mut Tables,
    when: &Formula,
    base: &Outcomes<DeclaredType, Refused>,
    list: &Item,
    log: &mut CondList<Selection>,
) -> Result<(), NoMemory>
    ensures kept { O.admits oracle.new ≡ O.admits oracle.old }
    ensures outside { OnOk result (OnlyLocals tables.old tables.new) }
    ensures notes { OnOk result ((c : List Bool) (parts : PlainTrees) → IsTrue (value (has c) (O.admits oracle.old)) → item_at (has c) (plain_item list.now) ≡ node k.Declarators parts
        → Where (value (has c) (condition_of when.now)) (NotesList (has c) base.now parts) (noted_at (has c) tables.old log.old) (noted_at (has c) tables.new log.new)) }
    ensures elsewhere { OnOk result ((c : List Bool) → IsTrue (value (has c) (O.admits oracle.old)) → value (has c) (condition_of when.now) ≡ false → noted_at (has c) tables.new log.new ≡ noted_at (has c) tables.old log.old) }
{
    match list {
        Item::Leaf(..) => Ok(()),
        Item::Node(_, parts) => note_parts(alloc, oracle, tables, when, base, parts, log),
    }
}
