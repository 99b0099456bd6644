//! Items of a unit, by their kinds and the variants of their parts (6.9).
ghost use Rattle.std.specs.Prelude.{◌≡◌, ℕ, Bool, ◌&&◌, List, [], ◌∷◌, IsTrue, IfOk};
ghost use Rattle.cond_formula.specs.Features.{has};
ghost use Rattle.cond_formula.specs.Conditions.{condition_of, value};
ghost use Rattle.conditional.specs.Entries.{seen};
ghost use Rattle.c_tree.specs.Grammar.{file_item};
ghost use Rattle.c_tree.specs.Trees.{PlainTrees, none, node};
ghost use Rattle.tree_derivations.specs.Derivations.{Derivation};
ghost use Rattle.choice_trees.specs.ChoiceTrees.{plain_choices, parts_at};
ghost use Rattle.choice_variants.specs.Variants.{before, shown};
ghost use Rattle.cond_units.specs.Seen.{seen_unit};
ghost use Rattle.cond_units.specs.Where.{Where};
ghost use Rattle.cond_units.specs.Items.{DeclaresItem};
ghost use Rattle.cond_units.specs.Units.{one_item};

use crate::kinds::{declare_listed, declare_tag, define_with_body, define_with_members};
use c_tree::Kind;
use choice_trees::{Choice, Item};
use choice_variants::{Part, Variant, variants};
use cond_formula::{Formula, NoMemory, Oracle};
use cond_units::{Behind, FileItems, UnitTables};
use conditional_steps::{both_of, never};
use reduced_conditions::either;
use std::alloc::Global;

/// The item of a kind with these parts, where the condition is true. The answer is where it is refused.
fn declare_kind<B: Behind, O: Oracle>(
    alloc: Global,
    oracle: &mut O,
    unit: &mut UnitTables,
    when: &Formula,
    behind: &B,
    kind: Kind,
    parts: &[Part<'_>],
) -> Result<Formula, NoMemory>
    ensures kept { O.admits oracle.new ≡ O.admits oracle.old }
    ensures declares { IfOk result (λ f. (c : List Bool) (globals : ℕ) → IsTrue (value (has c) (O.admits oracle.old))
        → Where (value (has c) (condition_of when.now))
        (DeclaresItem (one_item globals (node kind (before (has c) parts.now none)) (B.rest behind.now c)) (Derivation file_item (node kind (before (has c) parts.now none))))
        (seen_unit (has c) unit.old) (seen_unit (has c) unit.new) (value (has c) (condition_of f))) }
{
    match kind {
        Kind::StructDefinition => define_with_members(alloc, oracle, unit, when, parts),
        Kind::StructDeclaration => declare_tag(alloc, oracle, unit, when, parts),
        Kind::Declaration => declare_listed(alloc, oracle, unit, when, behind, parts),
        Kind::Function => define_with_body(alloc, oracle, unit, when, parts),
        _ => never(),
    }
}

/// The item with the parts of a variant, where the condition is true and the variant holds.
fn declare_variant<B: Behind, O: Oracle>(
    alloc: Global,
    oracle: &mut O,
    unit: &mut UnitTables,
    when: &Formula,
    behind: &B,
    kind: Kind,
    variant: &Variant<'_>,
) -> Result<Formula, NoMemory>
    ensures kept { O.admits oracle.new ≡ O.admits oracle.old }
    ensures declares { IfOk result (λ f. (c : List Bool) (globals : ℕ) → IsTrue (value (has c) (O.admits oracle.old))
        → Where (value (has c) (condition_of when.now) && value (has c) (condition_of variant.now.when))
        (DeclaresItem (one_item globals (node kind (before (has c) variant.now.parts.items none)) (B.rest behind.now c)) (Derivation file_item (node kind (before (has c) variant.now.parts.items none))))
        (seen_unit (has c) unit.old) (seen_unit (has c) unit.new) (value (has c) (condition_of f))) }
{
    let here = both_of(alloc, when, &variant.when)?;
    let parts = variant.parts.as_slice();
    let refused = declare_kind(alloc, oracle, unit, &here, behind, kind, parts)?;
    Ok(refused)
}

/// The item of a kind, by the variants of its parts, of which one holds in each configuration.
fn declare_each<B: Behind, O: Oracle>(
    alloc: Global,
    oracle: &mut O,
    unit: &mut UnitTables,
    when: &Formula,
    behind: &B,
    kind: Kind,
    variants: &[Variant<'_>],
) -> Result<Formula, NoMemory>
    ensures kept { O.admits oracle.new ≡ O.admits oracle.old }
    ensures declares { IfOk result (λ f. (c : List Bool) (globals : ℕ) (parts : PlainTrees) → IsTrue (value (has c) (O.admits oracle.old)) → seen (has c) (shown (has c) variants.now) ≡ parts ∷ []
        → Where (value (has c) (condition_of when.now)) (DeclaresItem (one_item globals (node kind parts) (B.rest behind.now c)) (Derivation file_item (node kind parts)))
        (seen_unit (has c) unit.old) (seen_unit (has c) unit.new) (value (has c) (condition_of f))) }
{
    let mut refused = never()?;
    for variant in variants {
        let found = declare_variant(alloc, oracle, unit, when, behind, kind, variant)?;
        refused = either(alloc, refused, found)?;
    }
    Ok(refused)
}

/// The item that is a node of this kind.
fn declare_node<B: Behind, O: Oracle>(
    alloc: Global,
    oracle: &mut O,
    unit: &mut UnitTables,
    when: &Formula,
    behind: &B,
    kind: Kind,
    parts: &[Choice<Item>],
) -> Result<Formula, NoMemory>
    ensures kept { O.admits oracle.new ≡ O.admits oracle.old }
    ensures declares { IfOk result (λ f. (c : List Bool) (globals : ℕ) → IsTrue (value (has c) (O.admits oracle.old))
        → Where (value (has c) (condition_of when.now))
        (DeclaresItem (one_item globals (node kind (parts_at (has c) kind 0 (plain_choices parts.now))) (B.rest behind.now c)) (Derivation file_item (node kind (parts_at (has c) kind 0 (plain_choices parts.now)))))
        (seen_unit (has c) unit.old) (seen_unit (has c) unit.new) (value (has c) (condition_of f))) }
{
    let all = variants(alloc, kind, parts, oracle)?;
    let refused = declare_each(alloc, oracle, unit, when, behind, kind, &all)?;
    Ok(refused)
}

/// The items of a unit: definitions and declarations of structs, declarations of names, and definitions of functions.
#[derive(Clone, Copy, Debug)]
pub struct UnitItems;

impl FileItems for UnitItems {
    #[tactic(auto, using(choice_trees::specs::ItemLaws::item_kinds))]
    fn declare_item<B: Behind, O: Oracle>(
        &self,
        alloc: Global,
        oracle: &mut O,
        unit: &mut UnitTables,
        when: &Formula,
        behind: &B,
        item: &Item,
    ) -> Result<Formula, NoMemory> {
        match item {
            Item::Leaf(..) => never(),
            Item::Node(kind, parts) => declare_node(
                alloc, oracle, unit, when, behind, *kind, parts,
            ),
        }
    }
}
