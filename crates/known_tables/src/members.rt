//! Members of structs (6.5.2.3).
ghost use Rattle.std.specs.Prelude.{ℕ, Bool, List, ◌∷◌, Option, None, IfOk, OnOk};
ghost use Rattle.c_types.specs.Tags.{PlainMember};
ghost use Rattle.conditional.specs.Entries.{Entry, entry_of, entries_of, alternatives, seen, Sees};
ghost use Rattle.operand_types.specs.OperandTypes as spec;
ghost use Rattle.operand_rules.specs.PlainOperandTypes.{plain_operand_type};
ghost use Rattle.type_tables.specs.Tables.{known_in};
ghost use Rattle.type_tables.specs.Forms.{member_form};
ghost use Rattle.type_tables.specs.Seen.{seen_tables};
ghost use Rattle.known_tables.specs.Searches.{Finds};
ghost use Rattle.known_tables.specs.Lookups.{member_type};

use crate::operands::operand_of_type;
use crate::searches::Search;
use cond_formula::NoMemory;
use conditional::{CondValue, Guarded};
use operand_rules::{Category, OperandType};
use std::alloc::Global;
use type_tables::{Member, Tables};

/// One member, if it has the name.
fn find_member(
    alloc: Global,
    tables: &Tables,
    name: &[u8],
    member: &Guarded<Member>,
    search: &mut Search<OperandType>,
) -> Result<(), NoMemory>
    ensures { OnOk result ((on : ℕ → Bool) (whole : Option spec.OperandType) (later : List (Entry PlainMember))
        → Finds plain_operand_type on whole (member_type (seen_tables on tables.now) (seen on (entry_of member_form member.now ∷ later)) name.now) search.old
        → Finds plain_operand_type on whole (member_type (seen_tables on tables.now) (seen on later) name.now) search.new) }
{
    if name != member.what.name.as_slice() {
        return Ok(());
    }
    let operand = operand_of_type(alloc, tables, &member.what.ty, Category::Object(true))?;
    search.find(alloc, &member.when, &operand)
}

/// The first member of a name.
fn member_named(
    alloc: Global,
    tables: &Tables,
    members: &[Guarded<Member>],
    name: &[u8],
) -> Result<CondValue<OperandType>, NoMemory>
    ensures { IfOk result (λ z. (on : ℕ → Bool) → Sees on (member_type (seen_tables on tables.now) (seen on (entries_of member_form members.now)) name.now) (alternatives plain_operand_type z)) }
{
    let mut search = Search::new(alloc);
    for member in members {
        find_member(alloc, tables, name, member, &mut search)?;
    }
    Ok(search.end())
}

/// The member of a struct.
pub(crate) fn member(
    alloc: Global,
    tables: &Tables,
    structure: u32,
    name: &[u8],
) -> Result<CondValue<OperandType>, NoMemory>
    ensures { IfOk result (λ z. (on : ℕ → Bool) → Sees on ((known_in (seen_tables on tables.now)).members structure name.now) (alternatives plain_operand_type z)) }
{
    match tables.structs.get(structure as usize) {
        Some(s) => member_named(alloc, tables, &s.members.entries, name),
        None => Ok(CondValue::nothing(alloc)),
    }
}
