//! Definitions of structs.
ghost use Rattle.std.specs.Prelude.{◌≡◌, ℕ, Bool, true, false, List, ◌&&◌, ◌||◌, IsTrue, IfOk, OnOk};
ghost use Rattle.cond_formula.specs.Features.{has};
ghost use Rattle.cond_formula.specs.Conditions.{condition_of, value};
ghost use Rattle.conditional.specs.Entries.{some_holds, Carry, entries_of};
ghost use Rattle.c_types.specs.Types.{PlainType, structure, plain_type};
ghost use Rattle.c_tree.specs.declared.kinds.Kind.TheVariants as k;
ghost use Rattle.c_tree.specs.Grammar.{tag, member};
ghost use Rattle.tree_derivations.specs.Derivations.{Derivation, Each};
ghost use Rattle.choice_trees.specs.ChoiceTrees.{plain_item, plain_choices, item_at, parts_at};
ghost use Rattle.core_meaning.specs.UnitNames.{UnitState, defined_struct};
ghost use Rattle.operand_rules.specs.PlainOperandTypes.{reason};
ghost use Rattle.type_tables.specs.Tables.{is_complete_type};
ghost use Rattle.type_tables.specs.Forms.{declared_type_form};
ghost use Rattle.type_tables.specs.Seen.{seen_tables};
ghost use Rattle.type_tables.specs.Steps.{with_completed, where_true};
ghost use Rattle.type_tables.specs.Follows.{Follows};
ghost use Rattle.cond_structs.specs.Gathered.{gathered};
ghost use Rattle.cond_structs.specs.Standing.{parts_of, DefinesStruct};

use crate::collecting::{Gathering, where_refused};
use crate::laws::declarations_are_read;
use crate::listing::declarations;
use crate::reading::read_all;
use c_types::CType;
use choice_trees::{Choice, Item};
use cond_declarators::declared_base;
use cond_formula::{Formula, NoMemory, Oracle};
use conditional::{Guarded, Outcomes};
use operand_rules::Refused;
use reduced_conditions::{both, both_of, either, without};
use std::alloc::{AllocError, Global};
use type_tables::{DeclaredType, Tables};

/// Where this was found, or the type is there and complete.
fn or_complete(
    alloc: Global,
    tables: &Tables,
    found: Formula,
    entry: &Guarded<DeclaredType>,
) -> Result<Formula, NoMemory>
    ensures { IfOk result (λ f. (on : ℕ → Bool) → value on (condition_of f) ≡ (value on (condition_of found) || (value on (condition_of entry.now.when) && is_complete_type (seen_tables on tables.now) (declared_type_form entry.now.what)))) }
{
    let complete = tables.where_complete(alloc, &entry.what.ty)?;
    let here = both(alloc, entry.when.try_clone(alloc)?, complete)?;
    let f = either(alloc, found, here)?;
    Ok(f)
}

/// Where the type that is seen of these is complete.
#[tactic(auto, using(cond_formula::specs::ConditionLaws::formula_kinds))]
fn where_complete(
    alloc: Global,
    tables: &Tables,
    types: &[Guarded<DeclaredType>],
) -> Result<Formula, NoMemory>
    ensures { IfOk result (λ f. (on : ℕ → Bool) (ty : PlainType) → Carry on ty (entries_of declared_type_form types.now)
        → value on (condition_of f) ≡ (some_holds on (entries_of declared_type_form types.now) && is_complete_type (seen_tables on tables.now) ty)) }
{
    let mut found = Formula::False;
    for entry in types {
        found = or_complete(alloc, tables, found, entry)?;
    }
    Ok(found)
}

/// A struct is complete where the condition is true, with these members. Words of a tag name nothing but structs of the tables.
#[tactic(auto, using(c_types::specs::TypeLaws::type_kinds))]
fn complete_one(
    alloc: Global,
    tables: &mut Tables,
    when: Formula,
    ty: &CType,
    all: &Gathering,
) -> Result<(), NoMemory>
    ensures elsewhere { OnOk result ((on : ℕ → Bool) → value on (condition_of when) ≡ false → seen_tables on tables.new ≡ seen_tables on tables.old) }
    ensures completes { OnOk result ((on : ℕ → Bool) (n : ℕ) → plain_type ty.now ≡ structure n
        → seen_tables on tables.new ≡ where_true (value on (condition_of when)) (with_completed n (gathered on all.now).members (gathered on all.now).scalars) (seen_tables on tables.old)) }
{
    let CType::Struct(number) = ty else {
        return Err(AllocError);
    };
    if *number as usize >= tables.structs.len() {
        return Err(AllocError);
    }
    tables.complete_struct(alloc, *number, when, &all.members, &all.scalars)
}

/// The struct that is seen of these types is complete where the condition is true, with these members.
fn complete_each(
    alloc: Global,
    tables: &mut Tables,
    when: Formula,
    types: &[Guarded<DeclaredType>],
    all: &Gathering,
) -> Result<(), NoMemory>
    ensures elsewhere { OnOk result ((on : ℕ → Bool) → value on (condition_of when) ≡ false → seen_tables on tables.new ≡ seen_tables on tables.old) }
    ensures completes { OnOk result ((on : ℕ → Bool) (n : ℕ) → Carry on (structure n) (entries_of declared_type_form types.now)
        → seen_tables on tables.new ≡ where_true (value on (condition_of when) && some_holds on (entries_of declared_type_form types.now)) (with_completed n (gathered on all.now).members (gathered on all.now).scalars) (seen_tables on tables.old)) }
{
    let mut left = when;
    for entry in types {
        let here = both_of(alloc, &left, &entry.when)?;
        complete_one(alloc, tables, here, &entry.what.ty, all)?;
        left = without(alloc, left, &entry.when)?;
    }
    Ok(())
}

/// Where the condition is true and the words are refused, or name a struct that is complete already.
fn where_unusable(
    alloc: Global,
    tables: &Tables,
    when: &Formula,
    base: &Outcomes<DeclaredType, Refused>,
) -> Result<Formula, NoMemory>
    ensures { IfOk result (λ f. (on : ℕ → Bool) (ty : PlainType) → Carry on ty (entries_of declared_type_form base.now.fine.alternatives.items)
        → value on (condition_of f) ≡ ((value on (condition_of when.now) && some_holds on (entries_of reason base.now.refused.entries.items))
        || (some_holds on (entries_of declared_type_form base.now.fine.alternatives.items) && is_complete_type (seen_tables on tables.now) ty))) }
{
    let refused = where_refused(alloc, when, base)?;
    let complete = where_complete(alloc, tables, &base.fine.alternatives)?;
    let f = either(alloc, refused, complete)?;
    Ok(f)
}

/// A struct is defined where the condition is true: it is declared by its tag, and complete behind its last member. The answer is where the
/// definition is refused (6.7.2.1).
pub fn define_struct<O: Oracle>(
    alloc: Global,
    oracle: &mut O,
    tables: &mut Tables,
    when: &Formula,
    words: &Item,
    members: &[Choice<Item>],
) -> Result<Formula, NoMemory>
    ensures kept { O.admits oracle.new ≡ O.admits oracle.old }
    ensures elsewhere { IfOk result (λ f. (on : ℕ → Bool) → value on (condition_of when.now) ≡ false
        → (seen_tables on tables.new ≡ seen_tables on tables.old) × (value on (condition_of f) ≡ false)) }
    ensures defined { IfOk result (λ f. (c : List Bool) → IsTrue (value (has c) (O.admits oracle.old)) → value (has c) (condition_of when.now) ≡ true
        → (unit : UnitState) (follows : Follows (seen_tables (has c) tables.old) unit.scope) → Derivation tag (item_at (has c) (plain_item words.now))
        → Each member (parts_at (has c) k.Members 0 (plain_choices members.now))
        → DefinesStruct unit.scope.structs follows.by (seen_tables (has c) tables.new) (value (has c) (condition_of f))
        (defined_struct unit (parts_of (item_at (has c) (plain_item words.now))) (parts_at (has c) k.Members 0 (plain_choices members.now)))) }
{
    declarations_are_read();
    let list = declarations(alloc, oracle, members)?;
    let base = declared_base(alloc, oracle, tables, when, words)?;
    let unusable = where_unusable(alloc, tables, when, &base)?;
    let all = Gathering::new(alloc, unusable);
    let all = read_all(alloc, oracle, tables, when, &list, all)?;
    let accepted = without(alloc, when.try_clone(alloc)?, &all.refused)?;
    complete_each(alloc, tables, accepted, &base.fine.alternatives, &all)?;
    let refused = both_of(alloc, when, &all.refused)?;
    Ok(refused)
}
