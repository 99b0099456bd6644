//! The uses of members in definitions of functions that have been declared (6.9.1).
ghost use Rattle.std.specs.Prelude.{◌≡◌, ℕ, Bool, List, IsTrue, OnOk};
ghost use Rattle.cond_formula.specs.Features.{has};
ghost use Rattle.cond_formula.specs.Conditions.{condition_of, value};
ghost use Rattle.choice_trees.specs.ChoiceTrees.{plain_item, item_at};
ghost use Rattle.type_tables.specs.Seen.{seen_tables};
ghost use Rattle.cond_member_uses.specs.Noted.{noted_at, Where};
ghost use Rattle.cond_unit_uses.specs.Functions.{NotesDeclared, NotesListed, NotesDefined, NotesBehind};
ghost use Rattle.cond_unit_uses.specs.Functions as spec;

use crate::blocks::note_block;
use crate::parts::{item_in, list_in};
use crate::variants::{PartsReader, note_node};
use c_tree::Kind;
use choice_trees::Item;
use choice_variants::Part;
use cond_formula::{Formula, NoMemory, Oracle};
use cond_selections::Selection;
use cond_sizes::counts_need_no_names;
use conditional::CondList;
use member_uses::bodies_are_used;
use std::alloc::Global;
use type_tables::Tables;
use unit_member_uses::{
    declarations_use_nothing, functions_are_used, scopes_keep_names, structs_use_nothing,
};

/// The parts of a function's declarator, by which its parameters are found.
#[derive(Clone, Copy)]
struct DeclaratorParts<'b> {
    body: &'b Item,
}

/// The parts of the list that holds the declarator alone.
#[derive(Clone, Copy)]
struct ListParts<'b> {
    body: &'b Item,
}

/// The parts of the definition.
#[derive(Clone, Copy)]
struct DefinitionParts;

impl<'b> PartsReader for DeclaratorParts<'b> {
    ghost notes = { λ self c. NotesDeclared (item_at (has c) (plain_item self.body.now)) };

    fn note_parts<O: Oracle>(
        &self,
        alloc: Global,
        oracle: &mut O,
        tables: &mut Tables,
        when: &Formula,
        parts: &[Part<'_>],
        log: &mut CondList<Selection>,
    ) -> Result<(), NoMemory> {
        let Some(list) = list_in(parts) else {
            return Ok(());
        };
        let body = self.body;
        note_block(alloc, oracle, tables, when, list, body, log)?;
        Ok(())
    }
}

impl<'b> PartsReader for ListParts<'b> {
    ghost notes = { λ self c. NotesListed (item_at (has c) (plain_item self.body.now)) };

    fn note_parts<O: Oracle>(
        &self,
        alloc: Global,
        oracle: &mut O,
        tables: &mut Tables,
        when: &Formula,
        parts: &[Part<'_>],
        log: &mut CondList<Selection>,
    ) -> Result<(), NoMemory> {
        let Some(declarator) = item_in(parts, 0) else {
            return Ok(());
        };
        let reader = DeclaratorParts { body: self.body };
        note_node(alloc, oracle, tables, when, &reader, declarator, log)?;
        Ok(())
    }
}

impl PartsReader for DefinitionParts {
    ghost notes = { λ self c. NotesDefined };

    fn note_parts<O: Oracle>(
        &self,
        alloc: Global,
        oracle: &mut O,
        tables: &mut Tables,
        when: &Formula,
        parts: &[Part<'_>],
        log: &mut CondList<Selection>,
    ) -> Result<(), NoMemory> {
        let Some(list) = item_in(parts, 1) else {
            return Ok(());
        };
        let Some(body) = item_in(parts, 2) else {
            return Ok(());
        };
        let reader = ListParts { body };
        note_node(alloc, oracle, tables, when, &reader, list, log)?;
        Ok(())
    }
}

/// Whether an item is the definition of a function.
#[tactic(auto, using(choice_trees::specs::ItemLaws::item_kinds))]
fn is_definition(item: &Item) -> bool
    ensures { (on : ℕ → Bool) → result ≡ spec.is_definition (item_at on (plain_item item.now)) }
{
    match item {
        Item::Leaf(..) => false,
        Item::Node(kind, _) => is_function(*kind),
    }
}

fn is_function(kind: Kind) -> bool
    ensures { result ≡ spec.is_function kind }
{
    matches!(kind, Kind::Function)
}

/// Notes the uses in an item of a unit that has been declared, where the condition is true, in the order of the text: those in the block of a
/// function. Other items use no member.
pub(crate) fn note_item<O: Oracle>(
    alloc: Global,
    oracle: &mut O,
    tables: &mut Tables,
    when: &Formula,
    item: &Item,
    log: &mut CondList<Selection>,
) -> Result<(), NoMemory>
    ensures kept { O.admits oracle.new ≡ O.admits oracle.old }
    ensures same { OnOk result ((on : ℕ → Bool) → seen_tables on tables.new ≡ seen_tables on tables.old) }
    ensures notes { OnOk result ((c : List Bool) → IsTrue (value (has c) (O.admits oracle.old))
        → Where (value (has c) (condition_of when.now)) (NotesBehind (item_at (has c) (plain_item item.now))) (noted_at (has c) tables.old log.old) (noted_at (has c) tables.new log.new)) }
{
    counts_need_no_names();
    bodies_are_used();
    functions_are_used();
    scopes_keep_names();
    declarations_use_nothing();
    structs_use_nothing();
    if is_definition(item) {
        return note_node(alloc, oracle, tables, when, &DefinitionParts, item, log);
    }
    Ok(())
}
