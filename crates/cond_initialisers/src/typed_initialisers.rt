//! Initialisers, whose expressions are typed by what is known where they stand.
ghost use Rattle.std.specs.Prelude.{◌≡◌, None, Bool, List, IsTrue, IfOk};
ghost use Rattle.cond_formula.specs.Features.{has};
ghost use Rattle.cond_formula.specs.Conditions.{condition_of, value};
ghost use Rattle.c_text.specs.Token.{PlainToken};
ghost use Rattle.c_types.specs.Types.{PlainType, plain_type};
ghost use Rattle.c_tree.specs.Grammar as grammar;
ghost use Rattle.tree_derivations.specs.Derivations.{Derivation};
ghost use Rattle.choice_trees.specs.ChoiceTrees.{plain_item, item_at};
ghost use Rattle.core_meaning.specs.Values.{Path};
ghost use Rattle.core_meaning.specs.Entities.{Scope};
ghost use Rattle.core_meaning.specs.Constancy.{initial};
ghost use Rattle.operand_types.specs.OperandTypes.{renumbered};
ghost use Rattle.statement_readings.specs.Walks.{is_refused};
ghost use Rattle.type_tables.specs.Seen.{seen_tables};
ghost use Rattle.type_tables.specs.Follows.{IsThere, Follows};
ghost use Rattle.cond_initialisers.specs.Refusals.{by_types};

use crate::typed_expressions::{where_unfit, where_without_room};
use crate::{Expressions, locals_are_refused_by_types, where_refused};
use c_types::CType;
use choice_trees::Item;
use cond_formula::{Formula, NoMemory, Oracle};
use cond_nodes::Knowledge;
use known_tables::Visible;
use std::alloc::Global;
use type_tables::Tables;

/// Expressions that initialise locals, by what is known where they stand.
#[derive(Drop)]
pub struct Typed<'k, K> {
    pub known: &'k K,
}

impl<'k, K: Knowledge> Expressions for Typed<'k, K> {
    ghost admits = { λ x. K.admits x.known.now };

    ghost asked = { λ x c. by_types (K.known x.known.now c) };

    fn where_unfit<O: Oracle>(
        &self,
        alloc: Global,
        oracle: &mut O,
        ty: &CType,
        item: &Item,
    ) -> Result<Formula, NoMemory> {
        where_unfit(alloc, oracle, self.known, ty, item)
    }

    fn where_without_room<O: Oracle>(
        &self,
        alloc: Global,
        oracle: &mut O,
        count: u32,
        item: &Item,
    ) -> Result<Formula, NoMemory> {
        where_without_room(alloc, oracle, self.known, count, item)
    }
}

/// Where the initialiser of a local of this type is refused, by the tables at its place, in which the local itself is visible already.
pub fn where_initialiser_refused<O: Oracle>(
    alloc: Global,
    oracle: &mut O,
    tables: &Tables,
    ty: &CType,
    initialiser: &Item,
) -> Result<Formula, NoMemory>
    ensures kept { O.admits oracle.new ≡ O.admits oracle.old }
    ensures refused { IfOk result (λ f. (c : List Bool) → IsTrue (value (has c) (O.admits oracle.old))
        → (scope : Scope) (follows : Follows (seen_tables (has c) tables.now) scope)
        → (t : PlainType) → plain_type ty.now ≡ renumbered follows.by t → IsThere scope.structs t
        → Derivation grammar.initialiser (item_at (has c) (plain_item initialiser.now)) → (path : Path) (behind : PlainToken)
        → value (has c) (condition_of f) ≡ is_refused (initial scope None t path (item_at (has c) (plain_item initialiser.now)) behind)) }
{
    locals_are_refused_by_types();
    let visible = Visible { tables };
    let typed = Typed { known: &visible };
    where_refused(alloc, oracle, &typed, tables, ty, initialiser)
}
