//! The parts of nodes in all configurations.

ghost use Rattle.std.specs.Prelude.{◌≡◌, ℕ, Bool, false, List, [], ◌∷◌, reverse, IsTrue, OnOk};
ghost use Rattle.cond_formula.specs.Features.{has};
ghost use Rattle.cond_formula.specs.Conditions.{conditions_of, value, all_true};
ghost use Rattle.c_text.specs.Token.{plain_token};
ghost use Rattle.choice_trees.specs.ChoiceTrees.{plain_item, plain_branches, plain_choices, item_at, branch_at, parts_at};
ghost use Rattle.choice_trees.specs.Leaves.{Leaf, item_leaves, branch_leaves, parts_leaves};
ghost use Rattle.c_tree.specs.Trees.{leaf};
ghost use Rattle.scope_readings.specs.Walks.{walk_node, walk_parts};
ghost use Rattle.cond_bindings.specs.Names.{seen, Steps, Grows, TellsUndeclared};
ghost use Rattle.cond_bindings.specs.PlainNames.{plain_names};
ghost use Rattle.cond_bindings.specs.Scopes.{plain_scope};
ghost use Rattle.cond_scopes.specs.Progress.{showing, part_read, perhaps_read, numbers, hidden_at, MovesOn};

use crate::names_read::{Name, read_name};
use crate::paths::chosen;
use crate::roles::{declaration_in, ends_scope, scope_of, turns};
use c_text::Token;
use c_tree::{Kind, Terminal, terminal};
use choice_trees::{Choice, Item};
use cond_bindings::{Names, Occurrence, Scope};
use cond_formula::{Formula, NoMemory, Oracle};
use path_conditions::{conjoined, copied, exclude};
use reduced_conditions::either;
use std::alloc::Global;
use std::mem;

/// Where a part stands: in a node of a kind, in a declaration of a kind.
#[derive(Clone, Copy)]
pub(crate) struct Around {
    pub(crate) alloc: Global,
    pub(crate) declaration: Kind,
    pub(crate) kind: Kind,
}

/// The name of a declarator, which is shown behind the declarator.
#[derive(Drop)]
pub(crate) struct Pending<'a> {
    pub(crate) name: &'a [u8],
    pub(crate) number: u32,
    /// The conditions under which it is there.
    pub(crate) path: Vec<Formula>,
}

/// How far the parts of a node have been read.
#[derive(Drop)]
pub(crate) struct Progress<'a> {
    /// Where a part so far turned what a name is.
    pub(crate) turned: Formula,
    /// The names of the declarator so far.
    pub(crate) pending: Vec<Pending<'a>>,
}

/// Shows the names of a declarator, the latest first.
fn show_all(
    names: &mut Names,
    alloc: Global,
    scope: Scope,
    pending: &[Pending],
) -> Result<(), NoMemory>
    ensures seen { OnOk result ((on : ℕ → Bool) (coming : List ℕ)
        → seen on coming (plain_names names.new) ≡ showing (plain_scope scope) (hidden_at on (reverse pending.now)) (seen on coming (plain_names names.old))) }
    ensures grows { OnOk result (Grows (plain_names names.old) (plain_names names.new)) }
    ensures tells { OnOk result ((on : ℕ → Bool) → TellsUndeclared on (plain_names names.old) → TellsUndeclared on (plain_names names.new)) }
{
    let mut left = pending.len();
    while left > 0 {
        left -= 1;
        let latest = &pending[left];
        let occurrence = Occurrence {
            name: latest.name,
            number: latest.number,
            path: &latest.path,
        };
        names.shown(alloc, scope, occurrence)?;
    }
    Ok(())
}

/// A token of a node.
fn read_token<'a, O: Oracle>(
    names: &mut Names,
    around: Around,
    number: u32,
    token: &'a Token,
    path: &[Formula],
    progress: &mut Progress<'a>,
    oracle: &mut O,
) -> Result<(), NoMemory>
    ensures kept { O.admits oracle.new ≡ O.admits oracle.old }
    ensures reads { OnOk result ((c : List Bool) (behind : List Leaf) → IsTrue (value (has c) (O.admits oracle.old))
        → MovesOn (has c) (all_true (has c) (conditions_of path.now)) (number ∷ numbers behind) (part_read around.declaration around.kind (leaf (plain_token token.now))) (numbers behind) (plain_names names.old) progress.old (plain_names names.new) progress.new) }
    ensures grows { OnOk result (Grows (plain_names names.old) (plain_names names.new)) }
    ensures tells { OnOk result ((c : List Bool) → IsTrue (value (has c) (O.admits oracle.old)) → TellsUndeclared (has c) (plain_names names.old) → TellsUndeclared (has c) (plain_names names.new)) }
{
    if Terminal::Name.is(terminal(token)) {
        let name = Name {
            text: &token.text,
            number,
        };
        read_name(names, around, name, path, progress, oracle)?;
        return Ok(());
    }
    if turns(around.kind, token) {
        let turned = mem::replace(&mut progress.turned, Formula::True);
        progress.turned = either(around.alloc, turned, conjoined(around.alloc, path)?)?;
    }
    Ok(())
}

/// A part of a node.
#[cycle(read)]
fn read_item<'a, O: Oracle>(
    names: &mut Names,
    around: Around,
    item: &'a Item,
    path: &[Formula],
    progress: &mut Progress<'a>,
    oracle: &mut O,
) -> Result<(), NoMemory>
    ensures kept { O.admits oracle.new ≡ O.admits oracle.old }
    ensures reads { OnOk result ((c : List Bool) (behind : List Leaf) → IsTrue (value (has c) (O.admits oracle.old))
        → MovesOn (has c) (all_true (has c) (conditions_of path.now)) (numbers (item_leaves (has c) (plain_item item.now) behind)) (part_read around.declaration around.kind (item_at (has c) (plain_item item.now))) (numbers behind) (plain_names names.old) progress.old (plain_names names.new) progress.new) }
    ensures grows { OnOk result (Grows (plain_names names.old) (plain_names names.new)) }
    ensures tells { OnOk result ((c : List Bool) → IsTrue (value (has c) (O.admits oracle.old)) → TellsUndeclared (has c) (plain_names names.old) → TellsUndeclared (has c) (plain_names names.new)) }
{
    match item {
        Item::Leaf(number, token) => {
            read_token(names, around, *number, token, path, progress, oracle)?;
        }
        Item::Node(kind, parts) => {
            read_node(
                names,
                around.alloc,
                around.declaration,
                *kind,
                parts,
                path,
                oracle,
            )?;
        }
    }
    Ok(())
}

/// The alternatives for a part of a node.
#[cycle(read)]
fn read_choice<'a, O: Oracle>(
    names: &mut Names,
    around: Around,
    choice: &'a Choice<Item>,
    path: &[Formula],
    progress: &mut Progress<'a>,
    oracle: &mut O,
) -> Result<(), NoMemory>
    ensures kept { O.admits oracle.new ≡ O.admits oracle.old }
    ensures reads { OnOk result ((c : List Bool) (behind : List Leaf) (needed : Bool) → IsTrue (value (has c) (O.admits oracle.old))
        → MovesOn (has c) (all_true (has c) (conditions_of path.now)) (numbers (branch_leaves (has c) needed (plain_branches choice.now.branches.items) behind)) (perhaps_read around.declaration around.kind needed (branch_at (has c) (plain_branches choice.now.branches.items))) (numbers behind) (plain_names names.old) progress.old (plain_names names.new) progress.new) }
    ensures grows { OnOk result (Grows (plain_names names.old) (plain_names names.new)) }
    ensures tells { OnOk result ((c : List Bool) → IsTrue (value (has c) (O.admits oracle.old)) → TellsUndeclared (has c) (plain_names names.old) → TellsUndeclared (has c) (plain_names names.new)) }
{
    let alloc = around.alloc;
    let mut left = copied(alloc, path)?;
    for (when, item) in &choice.branches {
        if let Some(here) = chosen(alloc, &left, when, oracle)? {
            read_item(names, around, item, &here, progress, oracle)?;
            exclude(&mut left, alloc, when)?;
        }
    }
    Ok(())
}

/// The parts of a node.
#[cycle(read)]
fn read_parts<O: Oracle>(
    names: &mut Names,
    around: Around,
    parts: &[Choice<Item>],
    path: &[Formula],
    oracle: &mut O,
) -> Result<(), NoMemory>
    ensures kept { O.admits oracle.new ≡ O.admits oracle.old }
    ensures reads { OnOk result ((c : List Bool) (behind : List Leaf) → IsTrue (value (has c) (O.admits oracle.old))
        → Steps (has c) (all_true (has c) (conditions_of path.now)) (numbers (parts_leaves (has c) around.kind 0 (plain_choices parts.now) behind))
        (walk_parts around.declaration around.kind false (parts_at (has c) around.kind 0 (plain_choices parts.now))) (numbers behind) (plain_names names.old) (plain_names names.new)) }
    ensures grows { OnOk result (Grows (plain_names names.old) (plain_names names.new)) }
    ensures tells { OnOk result ((c : List Bool) → IsTrue (value (has c) (O.admits oracle.old)) → TellsUndeclared (has c) (plain_names names.old) → TellsUndeclared (has c) (plain_names names.new)) }
{
    let mut progress = Progress {
        turned: Formula::False,
        pending: Vec::new(around.alloc),
    };
    for part in parts {
        read_choice(names, around, part, path, &mut progress, oracle)?;
    }
    let scope = scope_of(around.declaration);
    show_all(names, around.alloc, scope, &progress.pending)?;
    Ok(())
}

/// A node in a declaration.
#[cycle(read)]
pub(crate) fn read_node<O: Oracle>(
    names: &mut Names,
    alloc: Global,
    declaration: Kind,
    kind: Kind,
    parts: &[Choice<Item>],
    path: &[Formula],
    oracle: &mut O,
) -> Result<(), NoMemory>
    ensures kept { O.admits oracle.new ≡ O.admits oracle.old }
    ensures reads { OnOk result ((c : List Bool) (behind : List Leaf) → IsTrue (value (has c) (O.admits oracle.old))
        → Steps (has c) (all_true (has c) (conditions_of path.now)) (numbers (parts_leaves (has c) kind 0 (plain_choices parts.now) behind))
        (walk_node declaration kind (parts_at (has c) kind 0 (plain_choices parts.now))) (numbers behind) (plain_names names.old) (plain_names names.new)) }
    ensures grows { OnOk result (Grows (plain_names names.old) (plain_names names.new)) }
    ensures tells { OnOk result ((c : List Bool) → IsTrue (value (has c) (O.admits oracle.old)) → TellsUndeclared (has c) (plain_names names.old) → TellsUndeclared (has c) (plain_names names.new)) }
{
    let open = names.open_names();
    let around = Around {
        alloc,
        declaration: declaration_in(declaration, kind),
        kind,
    };
    read_parts(names, around, parts, path, oracle)?;
    if ends_scope(declaration, kind) {
        names.leave(open);
    }
    Ok(())
}
