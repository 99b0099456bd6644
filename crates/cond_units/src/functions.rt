//! Functions whose declarators stand behind one type (6.7.6.3).
ghost use Rattle.std.specs.Prelude.{◌≡◌, ℕ, Bool, true, false, ◌&&◌, List, Some, Option, is_some, IsTrue, IfOk, OnOk, ⊤};
ghost use Rattle.cond_formula.specs.Features.{has};
ghost use Rattle.cond_formula.specs.Conditions.{condition_of, value};
ghost use Rattle.c_text.specs.Token.{plain_token};
ghost use Rattle.c_tree.specs.Trees.{PlainTree};
ghost use Rattle.choice_trees.specs.ChoiceTrees.{plain_item, item_at};
ghost use Rattle.core_meaning.specs.Entities.{Scope, Signature, function};
ghost use Rattle.core_meaning.specs.UnitNames.{with_name};
ghost use Rattle.plain_objects.specs.PlainStates.{plain_storage};
ghost use Rattle.type_tables.specs.Seen.{seen_tables, signature_of};
ghost use Rattle.type_tables.specs.Steps.{with_signature};
ghost use Rattle.type_tables.specs.Follows.{renumbered_signature, SortIsThere, Follows};
ghost use Rattle.name_declarations.specs.Names.{Named};
ghost use Rattle.cond_units.specs.Seen.{seen_unit};
ghost use Rattle.cond_units.specs.Declaring.{Declares};
ghost use Rattle.cond_units.specs.Functions.{IsFunctionDeclarator, function_of_head, function_in};
ghost use Rattle.cond_units.specs.Where.{Where};

use crate::UnitTables;
use crate::function_declarators::read_function;
use crate::heads::{FunctionHead, HeadReader};
use crate::lists::read_parameters;
use crate::parts::behind_stars;
use c_text::Token;
use c_types::CType;
use choice_trees::Item;
use cond_formula::{Formula, NoMemory, Oracle};
use cond_parameters::DeclaredParameters;
use conditional::Outcomes;
use conditional_steps::{both_of, never};
use name_declarations::{declare_as, where_no_such_function};
use operand_rules::Refused;
use plain_objects::Storage;
use reduced_conditions::either;
use std::alloc::Global;
use type_tables::{CondSignature, DeclaredType, Sort, Tables};

/// A declaration of a function that defines nothing.
#[derive(Clone, Copy)]
struct Prototype {
    storage: Storage,
    /// It has an initialiser, which no function may have.
    initialised: bool,
}

/// The name of a function with this signature, where the condition is true. The answer is where it differs from what it stands for already.
pub fn declare_signed<O: Oracle>(
    alloc: Global,
    oracle: &mut O,
    tables: &mut Tables,
    when: &Formula,
    storage: Storage,
    name: &Token,
    signature: CondSignature,
) -> Result<Formula, NoMemory>
    ensures kept { O.admits oracle.new ≡ O.admits oracle.old }
    ensures locals { OnOk result (tables.new.locals ≡ tables.old.locals) }
    ensures depth { OnOk result (tables.new.depth ≡ tables.old.depth) }
    ensures elsewhere { IfOk result (λ f. (c : List Bool) → IsTrue (value (has c) (O.admits oracle.old)) → value (has c) (condition_of when.now) ≡ false
        → (seen_tables (has c) tables.new ≡ with_signature (signature_of (has c) (Some signature)) (seen_tables (has c) tables.old)) × (value (has c) (condition_of f) ≡ false)) }
    ensures named { IfOk result (λ f. (c : List Bool) → IsTrue (value (has c) (O.admits oracle.old)) → value (has c) (condition_of when.now) ≡ true
        → (scope : Scope) (follows : Follows (seen_tables (has c) tables.old) scope) (s : Signature) → signature_of (has c) (Some signature) ≡ renumbered_signature follows.by s
        → SortIsThere scope.structs (function s)
        → Named follows.by (with_name scope (plain_token name.now) (function s) (plain_storage storage)) (value (has c) (condition_of f)) (seen_tables (has c) tables.new)) }
{
    let number = tables.declare_function(signature)?;
    let sort = Sort::Function(number);
    let differs = declare_as(alloc, oracle, tables, when, &name.text, sort, storage)?;
    Ok(differs)
}

/// Where the condition is true, if a function has an initialiser.
fn where_initialised(alloc: Global, when: &Formula, initialised: bool) -> Result<Formula, NoMemory>
    ensures { IfOk result (λ f. (on : ℕ → Bool) → value on (condition_of f) ≡ (value on (condition_of when.now) && initialised)) }
{
    if initialised {
        when.try_clone(alloc)
    } else {
        never()
    }
}

impl HeadReader for Prototype {
    ghost judged = { λ self c. function_of_head (plain_storage self.storage) self.initialised };

    ghost ready = { λ self c. ⊤ };

    fn read_head<O: Oracle>(
        &self,
        alloc: Global,
        oracle: &mut O,
        unit: &mut UnitTables,
        when: &Formula,
        head: &FunctionHead<'_>,
        ty: &CType,
    ) -> Result<Formula, NoMemory> {
        let storage = self.storage;
        let name = head.name;
        let result = behind_stars(alloc, head.stars, ty)?;
        let tables = &mut unit.tables;
        let other = where_no_such_function(
            alloc, oracle, tables, when, &name.text, &result, storage,
        )?;
        let conflicting = both_of(alloc, when, &other)?;
        let parameters = read_parameters(alloc, oracle, tables, when, head.list)?;
        let DeclaredParameters {
            types,
            refused: invalid,
        } = parameters;
        let signature = CondSignature {
            result,
            parameters: types,
        };
        let differs = declare_signed(alloc, oracle, tables, when, storage, name, signature)?;
        let given = where_initialised(alloc, when, self.initialised)?;
        let first = either(alloc, conflicting, invalid)?;
        let second = either(alloc, differs, given)?;
        let refused = either(alloc, first, second)?;
        Ok(refused)
    }
}

/// The function of a declarator that defines nothing, where the condition is true: it is declared behind words that name this type. The answer is where
/// it is refused, as it is with an initialiser.
pub fn declare_function<O: Oracle>(
    alloc: Global,
    oracle: &mut O,
    unit: &mut UnitTables,
    when: &Formula,
    storage: Storage,
    initialised: bool,
    base: &Outcomes<DeclaredType, Refused>,
    declarator: &Item,
) -> Result<Formula, NoMemory>
    ensures kept { O.admits oracle.new ≡ O.admits oracle.old }
    ensures declares { IfOk result (λ f. (c : List Bool) (initialiser : Option PlainTree) → IsTrue (value (has c) (O.admits oracle.old)) → is_some initialiser ≡ initialised
        → Where (value (has c) (condition_of when.now))
        (Declares (has c) base.now (function_in (plain_storage storage) (item_at (has c) (plain_item declarator.now)) initialiser) (IsFunctionDeclarator (item_at (has c) (plain_item declarator.now))))
        (seen_unit (has c) unit.old) (seen_unit (has c) unit.new) (value (has c) (condition_of f))) }
{
    let prototype = Prototype {
        storage,
        initialised,
    };
    let refused = read_function(alloc, oracle, unit, when, &prototype, base, declarator)?;
    Ok(refused)
}
