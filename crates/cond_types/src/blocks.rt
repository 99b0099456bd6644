//! Functions with their blocks (6.9.1).
ghost use Rattle.std.specs.Prelude.{◌≡◌, ℕ, Bool, true, false, List, [], Some, IsTrue, IfOk};
ghost use Rattle.cond_formula.specs.Features.{has};
ghost use Rattle.cond_formula.specs.Conditions.{condition_of, value};
ghost use Rattle.conditional.specs.Entries.{seen, listed, alternatives, Stands};
ghost use Rattle.c_text.specs.Token.{plain_token};
ghost use Rattle.c_types.specs.Types.{PlainType, plain_type};
ghost use Rattle.c_tree.specs.Grammar.{block};
ghost use Rattle.tree_derivations.specs.Derivations.{Derivation};
ghost use Rattle.choice_trees.specs.ChoiceTrees.{plain_item, item_at};
ghost use Rattle.core_meaning.specs.Entities.{Scope};
ghost use Rattle.operand_types.specs.OperandTypes.{renumbered};
ghost use Rattle.plain_objects.specs.PlainStates.{plain_storage};
ghost use Rattle.type_tables.specs.Forms.{declared_type_form};
ghost use Rattle.type_tables.specs.Seen.{seen_tables, signature_of};
ghost use Rattle.type_tables.specs.Steps.{with_signature};
ghost use Rattle.type_tables.specs.Follows.{IsThere, Follows};
ghost use Rattle.name_declarations.specs.Names.{Named};
ghost use Rattle.cond_parameters.specs.Parameters.{IsList};
ghost use Rattle.cond_types.specs.Definitions.{behind_block};

use crate::heads::FunctionDefinition;
use c_types::CType;
use cond_formula::{Formula, NoMemory, Oracle};
use cond_locals::LocalDeclarations;
use cond_parameters::{DeclaredParameters, declare_parameters};
use cond_statements::read_body;
use cond_units::{FunctionHead, declare_signed};
use conditional::{CondList, CondValue};
use plain_scope::copied;
use reduced_conditions::{either, without};
use std::alloc::Global;
use type_tables::{CondSignature, DeclaredType, Tables};

/// The signature of a function with this result and these parameters.
fn signature_with(
    alloc: Global,
    returns: &CType,
    parameters: CondList<DeclaredType>,
) -> Result<CondSignature, NoMemory>
    ensures { IfOk result (λ s. (on : ℕ → Bool) → signature_of on (Some s) ≡ record { result = plain_type returns.now; parameters = seen on (listed declared_type_form parameters) }) }
{
    let result = copied(alloc, returns)?;
    Ok(CondSignature { result, parameters })
}

/// One type in each configuration.
fn one_type(alloc: Global, ty: &CType) -> Result<CondValue<DeclaredType>, NoMemory>
    ensures { IfOk result (λ all. (on : ℕ → Bool) → Stands on (plain_type ty.now) (alternatives declared_type_form all)) }
{
    let ty = copied(alloc, ty)?;
    CondValue::one(alloc, DeclaredType { ty })
}

/// The name of a function with this result, and its block, where the condition is true. The answer is where its parameters, its name or its block is
/// refused. Nothing of the block is visible behind it.
pub(crate) fn declare_with_block<O: Oracle>(
    alloc: Global,
    oracle: &mut O,
    tables: &mut Tables,
    when: &Formula,
    definition: &FunctionDefinition<'_>,
    head: &FunctionHead<'_>,
    returns: &CType,
) -> Result<Formula, NoMemory>
    ensures kept { O.admits oracle.new ≡ O.admits oracle.old }
    ensures elsewhere { IfOk result (λ f. (c : List Bool) → IsTrue (value (has c) (O.admits oracle.old)) → value (has c) (condition_of when.now) ≡ false
        → (seen_tables (has c) tables.new ≡ with_signature (record { result = plain_type returns.now; parameters = [] }) (seen_tables (has c) tables.old)) × (value (has c) (condition_of f) ≡ false)) }
    ensures named { IfOk result (λ f. (c : List Bool) → IsTrue (value (has c) (O.admits oracle.old)) → value (has c) (condition_of when.now) ≡ true
        → (scope : Scope) (follows : Follows (seen_tables (has c) tables.old) scope) (ty : PlainType) → plain_type returns.now ≡ renumbered follows.by ty → IsThere scope.structs ty
        → IsList (item_at (has c) (plain_item head.now.list.now)) → Derivation block (item_at (has c) (plain_item definition.now.body.now))
        → Named follows.by (behind_block (plain_storage definition.now.storage) (plain_token head.now.name.now) (item_at (has c) (plain_item head.now.list.now)) (item_at (has c) (plain_item definition.now.body.now)) scope ty)
        (value (has c) (condition_of f)) (seen_tables (has c) tables.new)) }
{
    let outside = tables.enter()?;
    let declared = declare_parameters(alloc, oracle, tables, true, when, head.list)?;
    let DeclaredParameters {
        types,
        refused: invalid,
    } = declared;
    let signature = signature_with(alloc, returns, types)?;
    let storage = definition.storage;
    let differs = declare_signed(alloc, oracle, tables, when, storage, head.name, signature)?;
    let before = either(alloc, invalid, differs)?;
    let possible = when.try_clone(alloc)?;
    let here = without(alloc, possible, &before)?;
    let result = one_type(alloc, returns)?;
    let body = definition.body;
    let wrong = read_body(
        alloc,
        oracle,
        tables,
        &LocalDeclarations,
        &result,
        &here,
        body,
    )?;
    tables.leave(outside);
    let refused = either(alloc, before, wrong)?;
    Ok(refused)
}
