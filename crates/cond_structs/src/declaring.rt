//! The declarators of a declaration of members.
ghost use Rattle.std.specs.Prelude.{◌≡◌, ℕ, Bool, true, ◌&&◌, List, None, IsTrue, OnOk};
ghost use Rattle.cond_formula.specs.Features.{has};
ghost use Rattle.cond_formula.specs.Conditions.{condition_of, value};
ghost use Rattle.conditional.specs.Judgements.{fine};
ghost use Rattle.c_text.specs.Token.{plain_token};
ghost use Rattle.c_types.specs.Types.{PlainType};
ghost use Rattle.c_tree.specs.Trees.{plain_tree, plain_trees};
ghost use Rattle.core_meaning.specs.Declarations as spec;
ghost use Rattle.core_meaning.specs.Entities.{Scope};
ghost use Rattle.operand_types.specs.OperandTypes.{renumbered, outcome_as};
ghost use Rattle.type_tables.specs.Seen.{seen_tables};
ghost use Rattle.type_tables.specs.Follows.{IsThere, Follows};
ghost use Rattle.cond_declarators.specs.Types.{ShowsType, object_type_in};
ghost use Rattle.cond_structs.specs.Gathered.{gathered, refuse, is_named, with_member, with_declared, Comes, Keeps};
ghost use Rattle.cond_structs.specs.Walks.{declared_name};
ghost use Rattle.cond_structs.specs.Declaring.{Declaring, next_tree, next_declarator, IsDeclaring};

use crate::collecting::Gathering;
use c_text::Token;
use c_tree::Tree;
use choice_expansions::{StepOnTree, for_each_expansion};
use choice_trees::Item;
use cond_declarators::object_types;
use cond_formula::{Formula, NoMemory, Oracle};
use conditional::Outcomes;
use declarator_lists::StepOnDeclarator;
use operand_rules::Refused;
use plain_declarators::name_in;
use reduced_conditions::{both, both_of};
use std::alloc::Global;
use std::mem;
use type_tables::{DeclaredType, Tables};

/// A member of this name is refused where the condition is true and there is one of the name.
fn refuse_again(
    alloc: Global,
    here: &Formula,
    name: &[u8],
    all: &mut Gathering,
) -> Result<(), NoMemory>
    ensures { OnOk result ((on : ℕ → Bool) → gathered on all.new ≡ refuse (value on (condition_of here.now) && is_named name.now (gathered on all.old)) (gathered on all.old)) }
{
    let named = all.where_named(alloc, name)?;
    let again = both(alloc, here.try_clone(alloc)?, named)?;
    all.refuse(alloc, again)?;
    Ok(())
}

/// A member of this name, whose declarator is this tree, where the condition is true.
fn declare_named<O: Oracle>(
    alloc: Global,
    oracle: &mut O,
    tables: &Tables,
    base: &Outcomes<DeclaredType, Refused>,
    here: &Formula,
    tree: &Tree,
    name: &Token,
    all: &mut Gathering,
) -> Result<(), NoMemory>
    ensures kept { O.admits oracle.new ≡ O.admits oracle.old }
    ensures keeps { OnOk result ((on : ℕ → Bool) → Keeps (value on (condition_of here.now)) (gathered on all.old) (gathered on all.new)) }
    ensures comes { OnOk result ((c : List Bool) (scope : Scope) (f : Follows (seen_tables (has c) tables.now) scope) (ty : PlainType) → IsTrue (value (has c) (O.admits oracle.old))
        → IsThere scope.structs ty → ShowsType (has c) (fine (renumbered f.by ty)) base.now → value (has c) (condition_of here.now) ≡ true
        → Comes (gathered (has c) all.new) (with_member (seen_tables (has c) tables.now) name.now.text.items (outcome_as (renumbered f.by) (object_type_in scope ty (plain_tree tree.now) (plain_token name.now) None)) (gathered (has c) all.old))) }
{
    let text = name.text.as_slice();
    refuse_again(alloc, here, text, all)?;
    let types = object_types(alloc, oracle, tables, base, tree, None)?;
    all.add_outcome(alloc, tables, here, text, &types)?;
    Ok(())
}

/// A member with these parts of a declarator, where the condition is true.
fn declare_parts<O: Oracle>(
    alloc: Global,
    oracle: &mut O,
    tables: &Tables,
    base: &Outcomes<DeclaredType, Refused>,
    here: &Formula,
    tree: &Tree,
    parts: &[Tree],
    all: &mut Gathering,
) -> Result<(), NoMemory>
    ensures kept { O.admits oracle.new ≡ O.admits oracle.old }
    ensures keeps { OnOk result ((on : ℕ → Bool) → Keeps (value on (condition_of here.now)) (gathered on all.old) (gathered on all.new)) }
    ensures comes { OnOk result ((c : List Bool) (scope : Scope) (f : Follows (seen_tables (has c) tables.now) scope) (ty : PlainType) → IsTrue (value (has c) (O.admits oracle.old))
        → IsThere scope.structs ty → ShowsType (has c) (fine (renumbered f.by ty)) base.now → value (has c) (condition_of here.now) ≡ true
        → Comes (gathered (has c) all.new) (with_declared (seen_tables (has c) tables.now) (λ name. outcome_as (renumbered f.by) (object_type_in scope ty (plain_tree tree.now) name None)) (spec.name_in (plain_trees parts.now)) (gathered (has c) all.old))) }
{
    match name_in(parts) {
        Some(name) => declare_named(alloc, oracle, tables, base, here, tree, name, all),
        None => all.refuse(alloc, here.try_clone(alloc)?),
    }
}

/// A member whose declarator is this tree, where the condition is true.
#[tactic(auto, using(c_tree::specs::TreeLaws::tree_kinds))]
fn declare_tree<O: Oracle>(
    alloc: Global,
    oracle: &mut O,
    tables: &Tables,
    base: &Outcomes<DeclaredType, Refused>,
    here: &Formula,
    tree: &Tree,
    all: &mut Gathering,
) -> Result<(), NoMemory>
    ensures kept { O.admits oracle.new ≡ O.admits oracle.old }
    ensures keeps { OnOk result ((on : ℕ → Bool) → Keeps (value on (condition_of here.now)) (gathered on all.old) (gathered on all.new)) }
    ensures comes { OnOk result ((c : List Bool) (scope : Scope) (f : Follows (seen_tables (has c) tables.now) scope) (ty : PlainType) → IsTrue (value (has c) (O.admits oracle.old))
        → IsThere scope.structs ty → ShowsType (has c) (fine (renumbered f.by ty)) base.now → value (has c) (condition_of here.now) ≡ true
        → Comes (gathered (has c) all.new) (with_declared (seen_tables (has c) tables.now) (λ name. outcome_as (renumbered f.by) (object_type_in scope ty (plain_tree tree.now) name None)) (declared_name (plain_tree tree.now)) (gathered (has c) all.old))) }
{
    match tree {
        Tree::Leaf(_) => all.refuse(alloc, here.try_clone(alloc)?),
        Tree::Node(_, parts) => declare_parts(alloc, oracle, tables, base, here, tree, parts, all),
    }
}

/// The members so far, and a declaration that goes on where the condition is true.
#[derive(Drop)]
pub(crate) struct Declaration<'t> {
    pub(crate) tables: &'t Tables,
    pub(crate) base: &'t Outcomes<DeclaredType, Refused>,
    pub(crate) here: Formula,
    pub(crate) all: Gathering,
}

impl<'t> StepOnTree for Declaration<'t> {
    ghost Meaning = { Declaring };

    ghost means = { λ d c m. IsDeclaring (has c) d m };

    ghost next = { next_tree };

    fn step<O: Oracle>(
        &mut self,
        alloc: Global,
        oracle: &mut O,
        when: &Formula,
        tree: &Tree,
    ) -> Result<(), NoMemory> {
        let here = both_of(alloc, &self.here, when)?;
        declare_tree(
            alloc,
            oracle,
            self.tables,
            self.base,
            &here,
            tree,
            &mut self.all,
        )?;
        Ok(())
    }
}

/// Nothing is gathered.
#[tactic(auto, using(cond_formula::specs::ConditionLaws::formula_kinds))]
fn nothing(alloc: Global) -> Gathering {
    Gathering::new(alloc, Formula::False)
}

impl<'t> StepOnDeclarator for Declaration<'t> {
    ghost Meaning = { Declaring };

    ghost means = { λ d c m. IsDeclaring (has c) d m };

    ghost next = { next_declarator };

    fn step<O: Oracle>(
        &mut self,
        alloc: Global,
        oracle: &mut O,
        when: &Formula,
        declarator: &Item,
        _initialiser: Option<&Item>,
    ) -> Result<(), NoMemory> {
        let here = both_of(alloc, &self.here, when)?;
        let all = mem::replace(&mut self.all, nothing(alloc));
        let mut one = Declaration {
            tables: self.tables,
            base: self.base,
            here,
            all,
        };
        for_each_expansion(alloc, oracle, declarator, &mut one)?;
        self.all = one.all;
        Ok(())
    }
}
