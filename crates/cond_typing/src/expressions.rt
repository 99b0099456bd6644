//! Expressions, node by node. A node is read variant by variant, and its arguments one by one.
ghost use Rattle.std.specs.Prelude.{◌≡◌, Bool, List, [], ◌∷◌, false, IsTrue, IfOk, OnOk};
ghost use Rattle.cond_formula.specs.Features.{has};
ghost use Rattle.cond_formula.specs.Conditions.{value};
ghost use Rattle.c_tree.specs.Trees.{node, none};
ghost use Rattle.c_tree.specs.declared.kinds.Kind.{Kind};
ghost use Rattle.c_tree.specs.declared.kinds.Kind.TheVariants as k;
ghost use Rattle.choice_trees.specs.ChoiceTrees.{plain_item, plain_branches, plain_choices, with_part, item_at, branch_at, parts_at};
ghost use Rattle.choice_variants.specs.Variants.{part_at, before};
ghost use Rattle.expression_types.specs.Reading as spec;
ghost use Rattle.cond_nodes.specs.Reads.{ShowsRead, ShowsParts, ShowsEach};
ghost use Rattle.cond_typing.specs.PartsProgress.{ReadsPart};
ghost use Rattle.cond_typing.specs.Readings.{node_of, first_read, read_if_any, arguments_in};

use crate::arguments::{no_argument, push_argument, with_argument};
use crate::roles::{Role, is_texts, role_of};
use crate::texts::texts;
use crate::variants::{VariantReads, nothing_read};
use crate::{no_parts, push_leaf, push_refused, single, words};
use c_tree::Kind;
use choice_trees::{Choice, Item};
use choice_variants::{Part, variants};
use cond_formula::{NoMemory, Oracle};
use cond_nodes::{CondParts, CondRead, Knowledge, node_read};
use cond_operands::Operands;
use conditional::Guarded;
use std::alloc::Global;
use std::slice;

/// What an expression is in each configuration.
#[tactic(auto, using(choice_trees::specs::ItemLaws::item_kinds))]
pub fn read_expression<K: Knowledge, O: Oracle>(
    alloc: Global,
    known: &K,
    oracle: &mut O,
    item: &Item,
) -> Result<CondRead, NoMemory>
    ensures kept { O.admits oracle.new ≡ O.admits oracle.old }
    ensures shows { IfOk result (λ z. (c : List Bool) → IsTrue (value (has c) (K.admits known.now)) → IsTrue (value (has c) (O.admits oracle.old))
        → ShowsRead (has c) (K.callable known.now c) (spec.read_expression (K.known known.now c) (item_at (has c) (plain_item item.now))) z) }
{
    match item {
        Item::Leaf(_, token) => single(alloc, known, token),
        Item::Node(kind, parts) => read_node(alloc, known, oracle, *kind, parts),
    }
}

/// What a node is.
#[cycle(reading)]
fn read_node<K: Knowledge, O: Oracle>(
    alloc: Global,
    known: &K,
    oracle: &mut O,
    kind: Kind,
    parts: &[Choice<Item>],
) -> Result<CondRead, NoMemory>
    ensures kept { O.admits oracle.new ≡ O.admits oracle.old }
    ensures shows { IfOk result (λ z. (c : List Bool) → IsTrue (value (has c) (K.admits known.now)) → IsTrue (value (has c) (O.admits oracle.old))
        → ShowsRead (has c) (K.callable known.now c) (spec.read_expression (K.known known.now c) (node kind (parts_at (has c) kind 0 (plain_choices parts.now)))) z) }
{
    if is_texts(kind) {
        texts(alloc, oracle, parts)
    } else {
        read_variants(alloc, known, oracle, kind, parts)
    }
}

/// What a node is by its variants.
#[cycle(reading)]
fn read_variants<K: Knowledge, O: Oracle>(
    alloc: Global,
    known: &K,
    oracle: &mut O,
    kind: Kind,
    parts: &[Choice<Item>],
) -> Result<CondRead, NoMemory>
    ensures kept { O.admits oracle.new ≡ O.admits oracle.old }
    ensures shows { IfOk result (λ z. (c : List Bool) → IsTrue (value (has c) (K.admits known.now)) → IsTrue (value (has c) (O.admits oracle.old))
        → ShowsRead (has c) (K.callable known.now c) (node_of (K.known known.now c) kind (parts_at (has c) kind 0 (plain_choices parts.now))) z) }
{
    let variants = variants(alloc, kind, parts, oracle)?;
    let mut all = VariantReads::nothing(alloc);
    for variant in &variants {
        let read = read_variant(alloc, known, oracle, kind, &variant.parts)?;
        all.place(alloc, &variant.when, read)?;
    }
    all.read(alloc)
}

/// What a node with these parts is.
#[cycle(reading)]
fn read_variant<K: Knowledge, O: Oracle>(
    alloc: Global,
    known: &K,
    oracle: &mut O,
    kind: Kind,
    parts: &[Part],
) -> Result<CondRead, NoMemory>
    ensures kept { O.admits oracle.new ≡ O.admits oracle.old }
    ensures shows { IfOk result (λ z. (c : List Bool) → IsTrue (value (has c) (K.admits known.now)) → IsTrue (value (has c) (O.admits oracle.old))
        → ShowsRead (has c) (K.callable known.now c) (node_of (K.known known.now c) kind (before (has c) parts.now none)) z) }
{
    let parts = read_parts(alloc, known, oracle, kind, parts)?;
    node_read(alloc, known, oracle, kind, &parts)
}

/// What has been read of parts, one after the other.
#[cycle(reading)]
fn read_parts<'a, K: Knowledge, O: Oracle>(
    alloc: Global,
    known: &K,
    oracle: &mut O,
    kind: Kind,
    parts: &[Part<'a>],
) -> Result<CondParts<'a>, NoMemory>
    ensures kept { O.admits oracle.new ≡ O.admits oracle.old }
    ensures shows { IfOk result (λ z. (c : List Bool) → IsTrue (value (has c) (K.admits known.now)) → IsTrue (value (has c) (O.admits oracle.old))
        → ShowsParts (has c) (K.callable known.now c) (spec.read_parts (K.known known.now c) kind (before (has c) parts.now none) spec.nothing_read) z) }
{
    let mut all = no_parts(alloc)?;
    for part in parts {
        push_part(alloc, known, oracle, kind, part, &mut all)?;
    }
    Ok(all)
}

/// One part more.
#[cycle(reading)]
fn push_part<'a, K: Knowledge, O: Oracle>(
    alloc: Global,
    known: &K,
    oracle: &mut O,
    kind: Kind,
    part: &Part<'a>,
    so_far: &mut CondParts<'a>,
) -> Result<(), NoMemory>
    ensures kept { O.admits oracle.new ≡ O.admits oracle.old }
    ensures reads { OnOk result ((c : List Bool) → IsTrue (value (has c) (K.admits known.now)) → IsTrue (value (has c) (O.admits oracle.old))
        → ReadsPart (has c) (K.callable known.now c) (K.known known.now c) kind (part_at (has c) part.now) so_far.old so_far.new) }
{
    match part {
        Part::Item(item) => push_item(alloc, known, oracle, kind, item, so_far),
        Part::NoStatement => push_refused(alloc, so_far),
    }
}

#[cycle(reading)]
#[tactic(auto, using(choice_trees::specs::ItemLaws::item_kinds))]
fn push_item<'a, K: Knowledge, O: Oracle>(
    alloc: Global,
    known: &K,
    oracle: &mut O,
    kind: Kind,
    item: &'a Item,
    so_far: &mut CondParts<'a>,
) -> Result<(), NoMemory>
    ensures kept { O.admits oracle.new ≡ O.admits oracle.old }
    ensures reads { OnOk result ((c : List Bool) → IsTrue (value (has c) (K.admits known.now)) → IsTrue (value (has c) (O.admits oracle.old))
        → ReadsPart (has c) (K.callable known.now c) (K.known known.now c) kind (item_at (has c) (plain_item item.now)) so_far.old so_far.new) }
{
    match item {
        Item::Leaf(_, token) => push_leaf(alloc, known, kind, token, so_far),
        Item::Node(inner, parts) => push_node(alloc, known, oracle, *inner, parts, so_far),
    }
}

/// A node among the parts.
#[cycle(reading)]
fn push_node<K: Knowledge, O: Oracle>(
    alloc: Global,
    known: &K,
    oracle: &mut O,
    inner: Kind,
    parts: &[Choice<Item>],
    so_far: &mut CondParts,
) -> Result<(), NoMemory>
    ensures kept { O.admits oracle.new ≡ O.admits oracle.old }
    ensures reads { OnOk result ((c : List Bool) (kind : Kind) → IsTrue (value (has c) (K.admits known.now)) → IsTrue (value (has c) (O.admits oracle.old))
        → ReadsPart (has c) (K.callable known.now c) (K.known known.now c) kind (node inner (parts_at (has c) inner 0 (plain_choices parts.now))) so_far.old so_far.new) }
{
    match role_of(inner) {
        Role::Arguments => {
            so_far.arguments = read_arguments(alloc, known, oracle, parts)?;
        }
        Role::Words => {
            so_far.words = words(alloc, oracle, parts)?;
        }
        Role::Nothing => {}
        Role::Operand => {
            let read = read_node(alloc, known, oracle, inner, parts)?;
            so_far.operands.push(read)?;
        }
    }
    Ok(())
}

/// What the arguments of a call are.
#[cycle(reading)]
fn read_arguments<K: Knowledge, O: Oracle>(
    alloc: Global,
    known: &K,
    oracle: &mut O,
    parts: &[Choice<Item>],
) -> Result<Vec<Guarded<Operands>>, NoMemory>
    ensures kept { O.admits oracle.new ≡ O.admits oracle.old }
    ensures shows { IfOk result (λ z. (c : List Bool) → IsTrue (value (has c) (K.admits known.now)) → IsTrue (value (has c) (O.admits oracle.old))
        → ShowsEach (has c) (arguments_in (K.known known.now c) (parts_at (has c) k.Arguments 0 (plain_choices parts.now))) z.items) }
{
    let mut all = Vec::new(alloc);
    for part in parts {
        let argument = read_argument(alloc, known, oracle, part)?;
        push_argument(&mut all, argument)?;
    }
    Ok(all)
}

/// What an argument is, where it is there; a comma is none.
#[cycle(reading)]
fn read_argument<K: Knowledge, O: Oracle>(
    alloc: Global,
    known: &K,
    oracle: &mut O,
    choice: &Choice<Item>,
) -> Result<Guarded<Operands>, NoMemory>
    ensures kept { O.admits oracle.new ≡ O.admits oracle.old }
    ensures shows { IfOk result (λ z. (c : List Bool) → IsTrue (value (has c) (K.admits known.now)) → IsTrue (value (has c) (O.admits oracle.old))
        → ShowsEach (has c) (arguments_in (K.known known.now c) (with_part false (branch_at (has c) (plain_branches choice.now.branches.items)) none)) (z ∷ [])) }
{
    let variants = variants(alloc, Kind::Arguments, slice::from_ref(choice), oracle)?;
    let mut all = no_argument(alloc);
    for variant in &variants {
        let read = read_parts(alloc, known, oracle, Kind::Arguments, &variant.parts)?;
        all = with_argument(alloc, all, &variant.when, &read.operands)?;
    }
    Ok(all)
}

/// What a part is as an expression.
fn read_part<K: Knowledge, O: Oracle>(
    alloc: Global,
    known: &K,
    oracle: &mut O,
    part: &Part,
) -> Result<CondRead, NoMemory>
    ensures kept { O.admits oracle.new ≡ O.admits oracle.old }
    ensures shows { IfOk result (λ z. (c : List Bool) → IsTrue (value (has c) (K.admits known.now)) → IsTrue (value (has c) (O.admits oracle.old))
        → ShowsRead (has c) (K.callable known.now c) (spec.read_expression (K.known known.now c) (part_at (has c) part.now)) z) }
{
    match part {
        Part::Item(item) => read_expression(alloc, known, oracle, item),
        Part::NoStatement => nothing_read(alloc),
    }
}

/// What the first of these parts is as an expression, if there is one.
fn read_first<K: Knowledge, O: Oracle>(
    alloc: Global,
    known: &K,
    oracle: &mut O,
    parts: &[Part],
) -> Result<CondRead, NoMemory>
    ensures kept { O.admits oracle.new ≡ O.admits oracle.old }
    ensures shows { IfOk result (λ z. (c : List Bool) → IsTrue (value (has c) (K.admits known.now)) → IsTrue (value (has c) (O.admits oracle.old))
        → ShowsRead (has c) (K.callable known.now c) (first_read (K.known known.now c) (before (has c) parts.now none)) z) }
{
    if parts.is_empty() {
        nothing_read(alloc)
    } else {
        read_part(alloc, known, oracle, &parts[0])
    }
}

/// What the expression is that is seen of alternatives. Where none of them holds it is refused.
pub fn read_choice<K: Knowledge, O: Oracle>(
    alloc: Global,
    known: &K,
    oracle: &mut O,
    choice: &Choice<Item>,
) -> Result<CondRead, NoMemory>
    ensures kept { O.admits oracle.new ≡ O.admits oracle.old }
    ensures shows { IfOk result (λ z. (c : List Bool) → IsTrue (value (has c) (K.admits known.now)) → IsTrue (value (has c) (O.admits oracle.old))
        → ShowsRead (has c) (K.callable known.now c) (read_if_any (K.known known.now c) (branch_at (has c) (plain_branches choice.now.branches.items))) z) }
{
    let variants = variants(alloc, Kind::Parenthesized, slice::from_ref(choice), oracle)?;
    let mut all = VariantReads::nothing(alloc);
    for variant in &variants {
        let read = read_first(alloc, known, oracle, &variant.parts)?;
        all.place(alloc, &variant.when, read)?;
    }
    all.read(alloc)
}
