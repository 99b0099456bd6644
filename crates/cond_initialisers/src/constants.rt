//! Constant expressions in all configurations: numbers, and addresses of names and texts (6.6).
ghost use Rattle.std.specs.Prelude.{◌≡◌, ℕ, Bool, List, IsTrue, IfOk, Result};
ghost use Rattle.cond_formula.specs.Features.{has};
ghost use Rattle.cond_formula.specs.Conditions.{condition_of, value};
ghost use Rattle.conditional.specs.Entries.{seen};
ghost use Rattle.conditional.specs.Judgements.{checked};
ghost use Rattle.c_types.specs.Types.{plain_type};
ghost use Rattle.c_tree.specs.Trees.{plain_tree};
ghost use Rattle.choice_trees.specs.ChoiceTrees.{plain_item, item_at};
ghost use Rattle.choice_expansions.specs.Expansions.{expanded};
ghost use Rattle.operand_rules.specs.PlainOperandTypes.{plain_operand_type, reason};
ghost use Rattle.cond_operands.specs.Operands.{passed};
ghost use Rattle.cond_initialisers.specs.Forms.{form_of};
ghost use Rattle.cond_initialisers.specs.Constants as spec;

use crate::forms::{Form, form_of};
use crate::numbers::has_number;
use crate::{where_failed, where_unfit};
use c_tree::{Kind, Tree};
use c_types::CType;
use choice_expansions::{Expansion, expansions};
use choice_trees::Item;
use cond_formula::{Formula, NoMemory, Oracle};
use cond_nodes::{CondRead, Knowledge};
use cond_operands::Passed;
use cond_typing::read_expression;
use conditional::{Judgement, judged};
use operand_rules::{OperandType, Refused};
use reduced_conditions::{both, either, without};
use std::alloc::Global;

// ---- one tree

/// Where an expression of this form gives an address, if it is no number. The names of arrays do, where they name them.
#[tactic(auto, using(cond_formula::specs::ConditionLaws::formula_kinds))]
fn where_address(alloc: Global, form: Form, arrays: &Formula) -> Result<Formula, NoMemory>
    ensures { IfOk result (λ f. (on : ℕ → Bool) → value on (condition_of f) ≡ spec.gives_address (value on (condition_of arrays.now)) form) }
{
    match form {
        Form::Name => arrays.try_clone(alloc),
        Form::Address => Ok(Formula::True),
        Form::Other => Ok(Formula::False),
    }
}

/// Where a tree is constant, if it names an array where this is true.
#[tactic(auto, using(cond_formula::specs::ConditionLaws::formula_kinds))]
fn where_tree_constant(alloc: Global, arrays: &Formula, tree: &Tree) -> Result<Formula, NoMemory>
    ensures { IfOk result (λ f. (on : ℕ → Bool) → value on (condition_of f) ≡ spec.is_constant_if (value on (condition_of arrays.now)) (plain_tree tree.now)) }
{
    if has_number(alloc, tree)? {
        return Ok(Formula::True);
    }
    where_address(alloc, form_of(tree), arrays)
}

/// Where one of the trees that are there is constant.
fn where_some_constant(
    alloc: Global,
    arrays: &Formula,
    expansions: &[Expansion],
) -> Result<Formula, NoMemory>
    ensures { IfOk result (λ f. (on : ℕ → Bool) → value on (condition_of f) ≡ spec.some_constant (value on (condition_of arrays.now)) (seen on (expanded expansions.now))) }
{
    let mut some = Formula::False;
    for expansion in expansions {
        let constant = where_tree_constant(alloc, arrays, &expansion.tree)?;
        let here = both(alloc, expansion.when.try_clone(alloc)?, constant)?;
        some = either(alloc, some, here)?;
    }
    Ok(some)
}

// ---- names of arrays

#[tactic(auto, using(c_types::specs::TypeLaws::type_kinds))]
fn is_array(ty: &CType) -> bool
    ensures { result ≡ spec.is_array (plain_type ty.now) }
{
    match ty {
        CType::Array(..) => true,
        CType::Void
        | CType::Char
        | CType::UChar
        | CType::Int
        | CType::UInt
        | CType::Long
        | CType::ULong
        | CType::Pointer(_)
        | CType::Struct(_) => false,
    }
}

/// Arrays.
#[derive(Clone, Copy)]
struct Arrays;

impl Judgement<OperandType, Passed, Refused> for Arrays {
    ghost answers = { λ _ a r. checked passed reason r ≡ spec.an_array (plain_operand_type a) };

    fn judge(&self, _alloc: Global, a: &OperandType) -> Result<Result<Passed, Refused>, NoMemory> {
        if is_array(&a.ty) {
            Ok(Ok(Passed))
        } else {
            Ok(Err(Refused))
        }
    }
}

/// Where an expression is of an array type.
fn where_of_array<K: Knowledge, O: Oracle>(
    alloc: Global,
    oracle: &mut O,
    known: &K,
    item: &Item,
) -> Result<Formula, NoMemory>
    ensures kept { O.admits oracle.new ≡ O.admits oracle.old }
    ensures same { IfOk result (λ f. (c : List Bool) → IsTrue (value (has c) (K.admits known.now)) → IsTrue (value (has c) (O.admits oracle.old))
        → value (has c) (condition_of f) ≡ spec.is_of_array (K.known known.now c) (item_at (has c) (plain_item item.now))) }
{
    let read = read_expression(alloc, known, oracle, item)?;
    let CondRead {
        outcomes,
        callee: _,
    } = read;
    let tests = judged(alloc, &Arrays, outcomes)?;
    let failed = where_failed(alloc, &tests)?;
    without(alloc, Formula::True, &failed)
}

// ---- expressions

/// Whether what stands there is texts in each configuration. They are an address, however many texts may be there or not.
#[tactic(auto, using(choice_trees::specs::ItemLaws::item_kinds))]
fn are_texts(item: &Item) -> bool
    ensures { IsTrue result → (on : ℕ → Bool) → form_of (item_at on (plain_item item.now)) ≡ Form.Address }
{
    match item {
        Item::Leaf(..) => false,
        Item::Node(kind, _) => matches!(kind, Kind::Texts),
    }
}

/// Where an expression is constant.
#[tactic(auto, using(cond_formula::specs::ConditionLaws::formula_kinds))]
fn where_constant<K: Knowledge, O: Oracle>(
    alloc: Global,
    oracle: &mut O,
    known: &K,
    item: &Item,
) -> Result<Formula, NoMemory>
    ensures kept { O.admits oracle.new ≡ O.admits oracle.old }
    ensures same { IfOk result (λ f. (c : List Bool) → IsTrue (value (has c) (K.admits known.now)) → IsTrue (value (has c) (O.admits oracle.old))
        → value (has c) (condition_of f) ≡ spec.is_constant (K.known known.now c) (item_at (has c) (plain_item item.now))) }
{
    if are_texts(item) {
        return Ok(Formula::True);
    }
    let arrays = where_of_array(alloc, oracle, known, item)?;
    let all = expansions(alloc, oracle, item)?;
    where_some_constant(alloc, &arrays, &all)
}

/// Where an expression doesn't fit a type or isn't constant.
pub(crate) fn where_unfit_or_variable<K: Knowledge, O: Oracle>(
    alloc: Global,
    oracle: &mut O,
    known: &K,
    ty: &CType,
    item: &Item,
) -> Result<Formula, NoMemory>
    ensures kept { O.admits oracle.new ≡ O.admits oracle.old }
    ensures same { IfOk result (λ f. (c : List Bool) → IsTrue (value (has c) (K.admits known.now)) → IsTrue (value (has c) (O.admits oracle.old))
        → value (has c) (condition_of f) ≡ spec.is_unfit_or_variable (K.known known.now c) (item_at (has c) (plain_item item.now)) (plain_type ty.now)) }
{
    let unfit = where_unfit(alloc, oracle, known, ty, item)?;
    let constant = where_constant(alloc, oracle, known, item)?;
    let variable = without(alloc, Formula::True, &constant)?;
    either(alloc, unfit, variable)
}
