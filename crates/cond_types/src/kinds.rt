//! The kinds of a unit's items (6.7, 6.9).
ghost use Rattle.std.specs.Prelude.{◌≡◌, ℕ, Bool, List, IsTrue, IfOk};
ghost use Rattle.cond_formula.specs.Features.{has};
ghost use Rattle.cond_formula.specs.Conditions.{condition_of, value};
ghost use Rattle.c_tree.specs.declared.kinds.Kind.TheVariants as k;
ghost use Rattle.c_tree.specs.Grammar.{file_item};
ghost use Rattle.c_tree.specs.Trees.{PlainTrees, none, node};
ghost use Rattle.tree_derivations.specs.Derivations.{Derivation};
ghost use Rattle.choice_variants.specs.Variants.{before};
ghost use Rattle.cond_units.specs.Seen.{seen_unit};
ghost use Rattle.cond_units.specs.Where.{Where};
ghost use Rattle.cond_units.specs.Items.{DeclaresItem};
ghost use Rattle.cond_units.specs.Units.{one_item};

use crate::functions::{AroundList, define_listed};
use crate::parts::{declarators_in, item_in, members_in};
use choice_variants::Part;
use cond_formula::{Formula, NoMemory, Oracle};
use cond_structs::define_struct;
use cond_units::{Behind, Surroundings, UnitTables, declare, declare_alone};
use conditional_steps::never;
use std::alloc::Global;

/// The definition of a struct with these parts, where the condition is true. The answer is where it is refused (6.7.2.1).
pub(crate) fn define_with_members<O: Oracle>(
    alloc: Global,
    oracle: &mut O,
    unit: &mut UnitTables,
    when: &Formula,
    parts: &[Part<'_>],
) -> Result<Formula, NoMemory>
    ensures kept { O.admits oracle.new ≡ O.admits oracle.old }
    ensures declares { IfOk result (λ f. (c : List Bool) (globals : ℕ) (rest : PlainTrees) → IsTrue (value (has c) (O.admits oracle.old))
        → Where (value (has c) (condition_of when.now))
        (DeclaresItem (one_item globals (node k.StructDefinition (before (has c) parts.now none)) rest) (Derivation file_item (node k.StructDefinition (before (has c) parts.now none))))
        (seen_unit (has c) unit.old) (seen_unit (has c) unit.new) (value (has c) (condition_of f))) }
{
    let Some(words) = item_in(parts, 0) else {
        return never();
    };
    let Some(members) = members_in(parts, 2) else {
        return never();
    };
    let refused = define_struct(alloc, oracle, &mut unit.tables, when, words, members)?;
    Ok(refused)
}

/// The declaration of a struct with these parts, where the condition is true. The answer is where it is refused (6.7.2.3).
pub(crate) fn declare_tag<O: Oracle>(
    alloc: Global,
    oracle: &mut O,
    unit: &mut UnitTables,
    when: &Formula,
    parts: &[Part<'_>],
) -> Result<Formula, NoMemory>
    ensures kept { O.admits oracle.new ≡ O.admits oracle.old }
    ensures declares { IfOk result (λ f. (c : List Bool) (globals : ℕ) (rest : PlainTrees) → IsTrue (value (has c) (O.admits oracle.old))
        → Where (value (has c) (condition_of when.now))
        (DeclaresItem (one_item globals (node k.StructDeclaration (before (has c) parts.now none)) rest) (Derivation file_item (node k.StructDeclaration (before (has c) parts.now none))))
        (seen_unit (has c) unit.old) (seen_unit (has c) unit.new) (value (has c) (condition_of f))) }
{
    let Some(words) = item_in(parts, 0) else {
        return never();
    };
    let refused = declare_alone(alloc, oracle, unit, when, words)?;
    Ok(refused)
}

/// The declaration with these parts, where the condition is true. The answer is where it is refused (6.7).
pub(crate) fn declare_listed<B: Behind, O: Oracle>(
    alloc: Global,
    oracle: &mut O,
    unit: &mut UnitTables,
    when: &Formula,
    behind: &B,
    parts: &[Part<'_>],
) -> Result<Formula, NoMemory>
    ensures kept { O.admits oracle.new ≡ O.admits oracle.old }
    ensures declares { IfOk result (λ f. (c : List Bool) (globals : ℕ) → IsTrue (value (has c) (O.admits oracle.old))
        → Where (value (has c) (condition_of when.now))
        (DeclaresItem (one_item globals (node k.Declaration (before (has c) parts.now none)) (B.rest behind.now c)) (Derivation file_item (node k.Declaration (before (has c) parts.now none))))
        (seen_unit (has c) unit.old) (seen_unit (has c) unit.new) (value (has c) (condition_of f))) }
{
    let Some(words) = item_in(parts, 0) else {
        return never();
    };
    let Some(list) = declarators_in(parts, 1) else {
        return never();
    };
    let surroundings = Surroundings { behind };
    let refused = declare(alloc, oracle, unit, when, &surroundings, words, list)?;
    Ok(refused)
}

/// The definition of a function with these parts, where the condition is true. The answer is where it is refused (6.9.1).
pub(crate) fn define_with_body<O: Oracle>(
    alloc: Global,
    oracle: &mut O,
    unit: &mut UnitTables,
    when: &Formula,
    parts: &[Part<'_>],
) -> Result<Formula, NoMemory>
    ensures kept { O.admits oracle.new ≡ O.admits oracle.old }
    ensures declares { IfOk result (λ f. (c : List Bool) (globals : ℕ) (rest : PlainTrees) → IsTrue (value (has c) (O.admits oracle.old))
        → Where (value (has c) (condition_of when.now))
        (DeclaresItem (one_item globals (node k.Function (before (has c) parts.now none)) rest) (Derivation file_item (node k.Function (before (has c) parts.now none))))
        (seen_unit (has c) unit.old) (seen_unit (has c) unit.new) (value (has c) (condition_of f))) }
{
    let Some(words) = item_in(parts, 0) else {
        return never();
    };
    let Some(list) = declarators_in(parts, 1) else {
        return never();
    };
    let Some(body) = item_in(parts, 2) else {
        return never();
    };
    let around = AroundList { words, body };
    let refused = define_listed(alloc, oracle, unit, when, &around, list)?;
    Ok(refused)
}
