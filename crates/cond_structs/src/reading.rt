//! The members that declarations declare.
ghost use Rattle.std.specs.Prelude.{◌≡◌, ℕ, Bool, true, false, List, IsTrue, IfOk, if◌then◌else◌};
ghost use Rattle.cond_formula.specs.Features.{has};
ghost use Rattle.cond_formula.specs.Conditions.{condition_of, value};
ghost use Rattle.conditional.specs.Entries.{seen};
ghost use Rattle.choice_expansions.specs.Steps.{after_each};
ghost use Rattle.c_tree.specs.Grammar.{member_of, declarators};
ghost use Rattle.tree_derivations.specs.Derivations.{Derivation};
ghost use Rattle.choice_trees.specs.ChoiceTrees.{plain_item, item_at};
ghost use Rattle.core_meaning.specs.Entities.{Struct};
ghost use Rattle.core_meaning.specs.UnitNames.{AllMembers};
ghost use Rattle.declaration_readings.specs.Readings.{Going, after};
ghost use Rattle.type_tables.specs.Seen.{seen_tables};
ghost use Rattle.cond_structs.specs.Gathered.{gathered};
ghost use Rattle.cond_structs.specs.Standing.{GathersSoFar, StandsSoFar};
ghost use Rattle.cond_structs.specs.Walks.{members_in, declared_next, AreDerived};
ghost use Rattle.cond_structs.specs.Listing.{declarations_at};
ghost use Rattle.cond_structs.specs.Declaring.{Declaring, IsBefore};

use crate::collecting::{Gathering, where_refused};
use crate::declaring::Declaration;
use crate::listing::MemberDeclaration;
use choice_trees::Item;
use cond_declarators::declared_base;
use cond_formula::{Formula, NoMemory, Oracle};
use conditional::Outcomes;
use declaration_readings::members_are_read;
use declarator_lists::for_each_declarator;
use operand_rules::Refused;
use reduced_conditions::both_of;
use std::alloc::Global;
use type_tables::{DeclaredType, Tables};

/// The members of a list of declarators, where the condition is true.
#[tactic(auto, using(choice_trees::specs::ItemLaws::item_kinds))]
fn read_list<O: Oracle>(
    alloc: Global,
    oracle: &mut O,
    tables: &Tables,
    base: &Outcomes<DeclaredType, Refused>,
    here: Formula,
    list: &Item,
    all: Gathering,
) -> Result<Gathering, NoMemory>
    ensures kept { O.admits oracle.new ≡ O.admits oracle.old }
    ensures gathers { IfOk result (λ new. (c : List Bool) (m : Declaring) → IsTrue (value (has c) (O.admits oracle.old)) → value (has c) (condition_of here) ≡ m.here
        → (m.here ≡ true → Derivation (declarators member_of) (item_at (has c) (plain_item list.now))) → GathersSoFar m.by m.scope.structs (gathered (has c) all) m.known
        → (m.here ≡ true → m.known.refused ≡ false → IsBefore (has c) (seen_tables (has c) tables.now) base.now m)
        → GathersSoFar m.by m.scope.structs (gathered (has c) new) (if m.here then after m.known (members_in m.scope m.number m.known.state m.ty (item_at (has c) (plain_item list.now))) else m.known)) }
{
    members_are_read();
    match list {
        Item::Leaf(..) => Ok(all),
        Item::Node(_, parts) => {
            let mut one = Declaration {
                tables,
                base,
                here,
                all,
            };
            for_each_declarator(alloc, oracle, parts, &mut one)?;
            Ok(one.all)
        }
    }
}

/// The members of one declaration more where the condition is true. Its words may declare a struct.
fn read_declaration<O: Oracle>(
    alloc: Global,
    oracle: &mut O,
    tables: &mut Tables,
    here: &Formula,
    words: &Item,
    list: &Item,
    all: Gathering,
) -> Result<Gathering, NoMemory>
    ensures kept { O.admits oracle.new ≡ O.admits oracle.old }
    ensures elsewhere { IfOk result (λ _. (on : ℕ → Bool) → value on (condition_of here.now) ≡ false → seen_tables on tables.new ≡ seen_tables on tables.old) }
    ensures stands { IfOk result (λ new. (c : List Bool) (by : ℕ → ℕ) (before : List Struct) (number : ℕ) (k : Going AllMembers) → IsTrue (value (has c) (O.admits oracle.old))
        → (value (has c) (condition_of here.now) ≡ true → Derivation (declarators member_of) (item_at (has c) (plain_item list.now)))
        → StandsSoFar by before (seen_tables (has c) tables.old) (gathered (has c) all) k
        → StandsSoFar by before (seen_tables (has c) tables.new) (gathered (has c) new)
        (if value (has c) (condition_of here.now) then declared_next number k (record { words = item_at (has c) (plain_item words.now); list = item_at (has c) (plain_item list.now) }) else k)) }
{
    let base = declared_base(alloc, oracle, tables, here, words)?;
    let refused = where_refused(alloc, here, &base)?;
    let mut all = all;
    all.refuse(alloc, refused)?;
    let here = here.try_clone(alloc)?;
    let members = read_list(alloc, oracle, tables, &base, here, list, all)?;
    Ok(members)
}

/// The members of all declarations where the condition is true, one after the other.
pub(crate) fn read_all<O: Oracle>(
    alloc: Global,
    oracle: &mut O,
    tables: &mut Tables,
    when: &Formula,
    list: &[MemberDeclaration<'_>],
    all: Gathering,
) -> Result<Gathering, NoMemory>
    ensures kept { O.admits oracle.new ≡ O.admits oracle.old }
    ensures elsewhere { IfOk result (λ _. (on : ℕ → Bool) → value on (condition_of when.now) ≡ false → seen_tables on tables.new ≡ seen_tables on tables.old) }
    ensures stands { IfOk result (λ new. (c : List Bool) (by : ℕ → ℕ) (before : List Struct) (number : ℕ) (k : Going AllMembers) → IsTrue (value (has c) (O.admits oracle.old))
        → value (has c) (condition_of when.now) ≡ true → AreDerived (seen (has c) (declarations_at (has c) list.now)) → StandsSoFar by before (seen_tables (has c) tables.old) (gathered (has c) all) k
        → StandsSoFar by before (seen_tables (has c) tables.new) (gathered (has c) new) (after_each (declared_next number) k (seen (has c) (declarations_at (has c) list.now)))) }
{
    let mut members = all;
    for d in list {
        let here = both_of(alloc, when, &d.when)?;
        members = read_declaration(alloc, oracle, tables, &here, d.words, d.list, members)?;
    }
    Ok(members)
}
