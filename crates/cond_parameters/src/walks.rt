//! A list of parameters, parameter by parameter.
ghost use Rattle.std.specs.Prelude.{◌≡◌, ℕ, Bool, false, ◌&&◌, ◌||◌, List, [], ◌∷◌, ◌++◌, if◌then◌else◌, option_map, IsTrue, IfOk, OnOk};
ghost use Rattle.cond_formula.specs.Features.{has};
ghost use Rattle.cond_formula.specs.Conditions.{condition_of, value};
ghost use Rattle.conditional.specs.Entries.{listed, seen, under};
ghost use Rattle.c_text.specs.Token.{PlainToken, plain_token};
ghost use Rattle.c_types.specs.Types.{plain_type};
ghost use Rattle.c_tree.specs.Trees.{plain_tree};
ghost use Rattle.choice_expansions.specs.Expansions.{expanded};
ghost use Rattle.core_meaning.specs.Entities.{Scope};
ghost use Rattle.core_meaning.specs.Declarations.{with_block};
ghost use Rattle.type_tables.specs.Forms.{declared_type_form};
ghost use Rattle.type_tables.specs.Seen.{seen_tables};
ghost use Rattle.type_tables.specs.Steps.{where_true};
ghost use Rattle.type_tables.specs.Numbers.{FollowsInBlockBy};
ghost use Rattle.type_tables.specs.Blocks.{OnlyLocals};
ghost use Rattle.cond_parameters.specs.Parameters.{Declares};
ghost use Rattle.cond_parameters.specs.Types.{found_at};
ghost use Rattle.cond_parameters.specs.Readings.{Reading, nothing_read, goes_on, read_all};
ghost use Rattle.cond_parameters.specs.Walks.{state_of, with_named, added, Adds, IsStateOf};

use crate::found::{FoundParameter, is_void_parameter, parameter_of};
use c_text::Token;
use c_tree::Tree;
use c_types::CType;
use choice_expansions::Expansion;
use choice_variants::may_hold;
use cond_formula::{Formula, NoMemory, Oracle};
use conditional::CondList;
use plain_scope::copied;
use reduced_conditions::{both, both_of, either, without};
use std::alloc::Global;
use std::mem;
use type_tables::{DeclaredType, Tables};

/// The parameters that a list declares.
#[derive(Drop)]
pub struct DeclaredParameters {
    /// Their types, in the order of the text.
    pub types: CondList<DeclaredType>,
    /// Where a parameter is refused.
    pub refused: Formula,
}

/// Where a parameter has stood before, and where the lone `void` has.
#[derive(Drop)]
pub(crate) struct Stood {
    some: Formula,
    void: Formula,
}

/// No parameters.
#[tactic(auto, using(cond_formula::specs::ConditionLaws::formula_kinds))]
pub(crate) fn no_parameters(alloc: Global) -> DeclaredParameters
    ensures types { (on : ℕ → Bool) → seen on (listed declared_type_form result.types) ≡ [] }
    ensures refused { (on : ℕ → Bool) → value on (condition_of result.refused) ≡ false }
{
    DeclaredParameters {
        types: CondList::empty(alloc),
        refused: Formula::False,
    }
}

/// Something is refused there too.
fn refuse<O: Oracle>(
    alloc: Global,
    oracle: &mut O,
    all: &mut DeclaredParameters,
    found: Formula,
) -> Result<(), NoMemory>
    ensures kept { O.admits oracle.new ≡ O.admits oracle.old }
    ensures types { all.new.types ≡ all.old.types }
    ensures refused { IfOk result (λ _. (c : List Bool) → IsTrue (value (has c) (O.admits oracle.old))
        → value (has c) (condition_of all.new.refused) ≡ (value (has c) (condition_of all.old.refused) || value (has c) (condition_of found))) }
{
    if !may_hold(&found, oracle) {
        return Ok(());
    }
    let before = mem::replace(&mut all.refused, Formula::False);
    all.refused = either(alloc, before, found)?;
    Ok(())
}

/// A parameter in the innermost block, where the condition is true, if it has a name.
fn enter(
    alloc: Global,
    tables: &mut Tables,
    when: Formula,
    name: Option<&Token>,
    ty: CType,
) -> Result<(), NoMemory>
    ensures outside { OnOk result (OnlyLocals tables.old tables.new) }
    ensures seen { OnOk result ((on : ℕ → Bool) → seen_tables on tables.new
        ≡ where_true (value on (condition_of when)) (with_named (option_map (λ t. plain_token t.now) name.entry) (plain_type ty)) (seen_tables on tables.old)) }
{
    if let Some(name) = name {
        tables.declare_local(alloc, &name.text, when, ty)?;
    }
    Ok(())
}

/// A parameter that isn't refused, where the condition is true.
fn add_fitting<O: Oracle>(
    alloc: Global,
    oracle: &mut O,
    tables: &mut Tables,
    all: &mut DeclaredParameters,
    here: Formula,
    found: FoundParameter<'_>,
) -> Result<(), NoMemory>
    ensures kept { O.admits oracle.new ≡ O.admits oracle.old }
    ensures outside { OnOk result (OnlyLocals tables.old tables.new) }
    ensures refused { all.new.refused ≡ all.old.refused }
    ensures types { IfOk result (λ _. (c : List Bool) → IsTrue (value (has c) (O.admits oracle.old))
        → seen (has c) (listed declared_type_form all.new.types) ≡ seen (has c) (listed declared_type_form all.old.types) ++ under (value (has c) (condition_of here)) (plain_type found.entry.ty ∷ [])) }
    ensures seen { OnOk result ((c : List Bool) → IsTrue (value (has c) (O.admits oracle.old)) → seen_tables (has c) tables.new
        ≡ where_true (value (has c) (condition_of here)) (with_named (option_map (λ t. plain_token t.now) found.entry.name) (plain_type found.entry.ty)) (seen_tables (has c) tables.old)) }
{
    if !may_hold(&here, oracle) {
        return Ok(());
    }
    let FoundParameter { name, ty, fits: _ } = found;
    let copy = copied(alloc, &ty)?;
    all.types
        .push(here.try_clone(alloc)?, DeclaredType { ty: copy })?;
    enter(alloc, tables, here, name, ty)?;
    Ok(())
}

/// One more parameter where the condition is true, or a refusal where it may not stand.
fn add<O: Oracle>(
    alloc: Global,
    oracle: &mut O,
    tables: &mut Tables,
    all: &mut DeclaredParameters,
    here: &Formula,
    found: FoundParameter<'_>,
) -> Result<(), NoMemory>
    ensures kept { O.admits oracle.new ≡ O.admits oracle.old }
    ensures outside { OnOk result (OnlyLocals tables.old tables.new) }
    ensures adds { IfOk result (λ _. (c : List Bool) → IsTrue (value (has c) (O.admits oracle.old))
        → state_of (has c) all.new tables.new ≡ added (value (has c) (condition_of here.now)) (found_at (has c) found.entry) (state_of (has c) all.old tables.old)) }
{
    let fitting = both_of(alloc, here, &found.fits)?;
    let unfit = without(alloc, here.try_clone(alloc)?, &found.fits)?;
    refuse(alloc, oracle, all, unfit)?;
    add_fitting(alloc, oracle, tables, all, fitting, found)?;
    Ok(())
}

/// Where what stands here may not: beside a lone `void`, or as one beside others.
fn where_beside(
    alloc: Global,
    here: &Formula,
    is_void: bool,
    stood: &Stood,
) -> Result<Formula, NoMemory>
    ensures { IfOk result (λ f. (on : ℕ → Bool) → value on (condition_of f)
        ≡ (value on (condition_of here.now) && (value on (condition_of stood.now.void) || (is_void && value on (condition_of stood.now.some))))) }
{
    let mut beside = stood.void.try_clone(alloc)?;
    if is_void {
        beside = either(alloc, beside, stood.some.try_clone(alloc)?)?;
    }
    both(alloc, here.try_clone(alloc)?, beside)
}

impl Stood {
    ghost use Rattle.std.specs.Prelude.{◌≡◌, ℕ, Bool, false, ◌&&◌, ◌||◌, OnOk};
    ghost use Rattle.cond_formula.specs.Conditions.{condition_of, value};

    /// Nothing has stood.
    #[tactic(auto, using(cond_formula::specs::ConditionLaws::formula_kinds))]
    fn nothing() -> Stood
        ensures some { (on : ℕ → Bool) → value on (condition_of result.some) ≡ false }
        ensures void { (on : ℕ → Bool) → value on (condition_of result.void) ≡ false }
    {
        Stood {
            some: Formula::False,
            void: Formula::False,
        }
    }

    /// A parameter stands there too, perhaps the lone `void`.
    fn stand(&mut self, alloc: Global, here: &Formula, is_void: bool) -> Result<(), NoMemory>
        ensures some { OnOk result ((on : ℕ → Bool) → value on (condition_of self.new.some) ≡ (value on (condition_of self.old.some) || value on (condition_of here.now))) }
        ensures void { OnOk result ((on : ℕ → Bool) → value on (condition_of self.new.void) ≡ (value on (condition_of self.old.void) || (is_void && value on (condition_of here.now)))) }
    {
        let before = mem::replace(&mut self.some, Formula::False);
        self.some = either(alloc, before, here.try_clone(alloc)?)?;
        if is_void {
            self.stand_void(alloc, here)?;
        }
        Ok(())
    }

    /// The lone `void` stands there too.
    fn stand_void(&mut self, alloc: Global, here: &Formula) -> Result<(), NoMemory>
        ensures some { self.new.some ≡ self.old.some }
        ensures void { OnOk result ((on : ℕ → Bool) → value on (condition_of self.new.void) ≡ (value on (condition_of self.old.void) || value on (condition_of here.now))) }
    {
        let before = mem::replace(&mut self.void, Formula::False);
        self.void = either(alloc, before, here.try_clone(alloc)?)?;
        Ok(())
    }
}

/// One more parameter, if it isn't the lone `void`, which stands for none.
fn add_unless_void<O: Oracle>(
    alloc: Global,
    oracle: &mut O,
    tables: &mut Tables,
    defining: bool,
    all: &mut DeclaredParameters,
    here: &Formula,
    tree: &Tree,
    is_void: bool,
) -> Result<(), NoMemory>
    ensures kept { O.admits oracle.new ≡ O.admits oracle.old }
    ensures outside { OnOk result (OnlyLocals tables.old tables.new) }
    ensures adds { IfOk result (λ _. (c : List Bool) → IsTrue (value (has c) (O.admits oracle.old))
        → Adds defining (value (has c) (condition_of here.now)) is_void (plain_tree tree.now) (state_of (has c) all.old tables.old) (state_of (has c) all.new tables.new)) }
{
    if is_void {
        return Ok(());
    }
    let found = parameter_of(alloc, tables, defining, tree)?;
    add(alloc, oracle, tables, all, here, found)?;
    Ok(())
}

/// Goes on by a tree where a condition is true.
fn declare_tree<O: Oracle>(
    alloc: Global,
    oracle: &mut O,
    tables: &mut Tables,
    defining: bool,
    all: &mut DeclaredParameters,
    stood: &mut Stood,
    expansion: &Expansion,
) -> Result<(), NoMemory>
    ensures kept { O.admits oracle.new ≡ O.admits oracle.old }
    ensures outside { OnOk result (OnlyLocals tables.old tables.new) }
    ensures elsewhere { IfOk result (λ _. (c : List Bool) → IsTrue (value (has c) (O.admits oracle.old)) → value (has c) (condition_of expansion.now.when) ≡ false
        → state_of (has c) all.new tables.new ≡ state_of (has c) all.old tables.old) }
    ensures declares { IfOk result (λ _. (c : List Bool) (by : ℕ → ℕ) (scope : Scope) (behind : PlainToken) (r : Reading) → IsTrue (value (has c) (O.admits oracle.old))
        → IsStateOf by scope r (value (has c) (condition_of stood.old.some)) (value (has c) (condition_of stood.old.void)) (state_of (has c) all.old tables.old)
        → IsStateOf by scope (if value (has c) (condition_of expansion.now.when) then goes_on defining scope behind r (plain_tree expansion.now.tree) else r)
        (value (has c) (condition_of stood.new.some)) (value (has c) (condition_of stood.new.void)) (state_of (has c) all.new tables.new)) }
{
    let is_void = is_void_parameter(&expansion.tree);
    let beside = where_beside(alloc, &expansion.when, is_void, stood)?;
    refuse(alloc, oracle, all, beside)?;
    add_unless_void(
        alloc,
        oracle,
        tables,
        defining,
        all,
        &expansion.when,
        &expansion.tree,
        is_void,
    )?;
    stood.stand(alloc, &expansion.when, is_void)?;
    Ok(())
}

/// The parameters of trees, one after the other, each where its condition is true. They are declared in the innermost block, which declares
/// nothing else.
pub(crate) fn declare_trees<O: Oracle>(
    alloc: Global,
    oracle: &mut O,
    tables: &mut Tables,
    defining: bool,
    trees: &[Expansion],
) -> Result<DeclaredParameters, NoMemory>
    ensures kept { O.admits oracle.new ≡ O.admits oracle.old }
    ensures outside { OnOk result (OnlyLocals tables.old tables.new) }
    ensures elsewhere { IfOk result (λ all. (c : List Bool) → IsTrue (value (has c) (O.admits oracle.old)) → seen (has c) (expanded trees.now) ≡ []
        → state_of (has c) all tables.new ≡ record { types = []; refused = false; tables = seen_tables (has c) tables.old }) }
    ensures declares { IfOk result (λ all. (c : List Bool) (by : ℕ → ℕ) (scope : Scope) (behind : PlainToken) → IsTrue (value (has c) (O.admits oracle.old))
        → FollowsInBlockBy by (seen_tables (has c) tables.old) (with_block scope)
        → Declares by scope (read_all defining scope behind nothing_read (seen (has c) (expanded trees.now))).parameters
        (seen (has c) (listed declared_type_form all.types)) (value (has c) (condition_of all.refused)) (seen_tables (has c) tables.new)) }
{
    let mut all = no_parameters(alloc);
    let mut stood = Stood::nothing();
    for expansion in trees {
        declare_tree(
            alloc, oracle, tables, defining, &mut all, &mut stood, expansion,
        )?;
    }
    Ok(all)
}
