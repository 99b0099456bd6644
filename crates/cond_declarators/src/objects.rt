//! Types of objects by their declarators (6.7.6).
ghost use Rattle.std.specs.Prelude.{◌≡◌, ℕ, Bool, List, ◌++◌, IsTrue, IfOk, option_map, Result, if◌then◌else◌};
ghost use Rattle.cond_formula.specs.Features.{has};
ghost use Rattle.cond_formula.specs.Conditions.{value};
ghost use Rattle.conditional.specs.Entries.{listed, entries_of, seen, Stands};
ghost use Rattle.conditional.specs.Judgements.{Checked, bind, fine, refused, checked};
ghost use Rattle.c_text.specs.Token.{PlainToken};
ghost use Rattle.c_types.specs.Types.{PlainType, plain_type};
ghost use Rattle.c_tree.specs.Trees.{plain_tree, plain_trees};
ghost use Rattle.choice_trees.specs.ChoiceTrees.{plain_item, item_at};
ghost use Rattle.core_meaning.specs.Declarations as spec;
ghost use Rattle.core_meaning.specs.Entities.{Scope};
ghost use Rattle.operand_types.specs.OperandTypes.{outcome_as, renumbered};
ghost use Rattle.operand_rules.specs.PlainOperandTypes.{reason};
ghost use Rattle.type_tables.specs.Forms.{declared_type_form};
ghost use Rattle.type_tables.specs.Tables.{is_complete_type};
ghost use Rattle.type_tables.specs.Seen.{seen_tables};
ghost use Rattle.type_tables.specs.Follows.{IsThere, Follows};
ghost use Rattle.cond_sizes.specs.Sizes.{plain_count, ShowsCount};
ghost use Rattle.cond_declarators.specs.Types.{ShowsType, object_type_in};
ghost use Rattle.cond_declarators.specs.Elements.{array_type};

use crate::elements::element_counts;
use crate::shown::refused_everywhere;
use c_tree::{Kind, Terminal, Tree};
use c_types::CType;
use choice_trees::Item;
use cond_formula::{Formula, NoMemory, Oracle};
use cond_sizes::Count;
use conditional::{CondList, Guarded, Judgement, Outcomes, judged};
use operand_rules::Refused;
use plain_declarators::{behind_word, is_character_type, starred};
use plain_scope::copied;
use reduced_conditions::is_always;
use std::alloc::Global;
use type_tables::{DeclaredType, Tables};

/// An array of elements of a type.
#[derive(Clone, Copy)]
struct ArrayOf<'e> {
    element: &'e CType,
}

impl<'e> Judgement<Count, DeclaredType, Refused> for ArrayOf<'e> {
    ghost answers = { λ array a r. checked declared_type_form reason r ≡ array_type (plain_type array.element.now) (plain_count a) };

    #[tactic(auto, using(c_types::specs::TypeLaws::type_kinds))]
    fn judge(&self, alloc: Global, a: &Count) -> Result<Result<DeclaredType, Refused>, NoMemory> {
        let element = copied(alloc, self.element)?;
        let ty = CType::Array(Box::new(alloc, element)?, a.elements);
        Ok(Ok(DeclaredType { ty }))
    }
}

/// Arrays of elements that are complete.
fn arrays_of(
    alloc: Global,
    tables: &Tables,
    element: &CType,
    counts: Outcomes<Count, Refused>,
) -> Result<Outcomes<DeclaredType, Refused>, NoMemory>
    ensures { IfOk result (λ all. (on : ℕ → Bool) (count : Checked ℕ (Unit {0})) → ShowsCount on count counts
        → ShowsType on (if is_complete_type (seen_tables on tables.now) (plain_type element.now) then bind count (array_type (plain_type element.now)) else refused tt) all) }
{
    let arrays = judged(alloc, &ArrayOf { element }, counts)?;
    let complete = tables.where_complete(alloc, element)?;
    if is_always(&complete) {
        return Ok(arrays);
    }
    let none = refused_everywhere(alloc)?;
    let all = Outcomes::choose(alloc, &complete, &arrays, &none)?;
    Ok(all)
}

/// The type of an array's declarator, by the type of the words before it.
fn array_types<O: Oracle>(
    alloc: Global,
    oracle: &mut O,
    tables: &Tables,
    base: &CType,
    parts: &[Tree],
    initialiser: Option<&Item>,
) -> Result<Outcomes<DeclaredType, Refused>, NoMemory>
    ensures kept { O.admits oracle.new ≡ O.admits oracle.old }
    ensures shows { IfOk result (λ all. (c : List Bool) (scope : Scope) (f : Follows (seen_tables (has c) tables.now) scope) (ty : PlainType) (name : PlainToken)
        → IsTrue (value (has c) (O.admits oracle.old)) → IsThere scope.structs ty → plain_type base.now ≡ renumbered f.by ty
        → ShowsType (has c) (outcome_as (renumbered f.by) (spec.object_type scope ty Kind.ArrayDeclarator (plain_trees parts.now) name (option_map (λ item. item_at (has c) (plain_item item.now)) initialiser.entry))) all) }
{
    let element = starred(alloc, parts, base)?;
    let size = behind_word(parts, Terminal::OpenBracket);
    let counts = element_counts(
        alloc,
        oracle,
        is_character_type(&element),
        size,
        initialiser,
    )?;
    let arrays = arrays_of(alloc, tables, &element, counts)?;
    Ok(arrays)
}

/// The type of a declarator without brackets.
fn starred_types(
    alloc: Global,
    base: &CType,
    parts: &[Tree],
) -> Result<Outcomes<DeclaredType, Refused>, NoMemory>
    ensures { IfOk result (λ all. (on : ℕ → Bool) → ShowsType on (fine (spec.starred (plain_trees parts.now) (plain_type base.now))) all) }
{
    let ty = starred(alloc, parts, base)?;
    let types = Outcomes::one(alloc, DeclaredType { ty })?;
    Ok(types)
}

/// The type of a declarator of this kind.
fn types_by_kind<O: Oracle>(
    alloc: Global,
    oracle: &mut O,
    tables: &Tables,
    base: &CType,
    kind: Kind,
    parts: &[Tree],
    initialiser: Option<&Item>,
) -> Result<Outcomes<DeclaredType, Refused>, NoMemory>
    ensures kept { O.admits oracle.new ≡ O.admits oracle.old }
    ensures shows { IfOk result (λ all. (c : List Bool) (scope : Scope) (f : Follows (seen_tables (has c) tables.now) scope) (ty : PlainType) (name : PlainToken)
        → IsTrue (value (has c) (O.admits oracle.old)) → IsThere scope.structs ty → plain_type base.now ≡ renumbered f.by ty
        → ShowsType (has c) (outcome_as (renumbered f.by) (spec.object_type scope ty kind (plain_trees parts.now) name (option_map (λ item. item_at (has c) (plain_item item.now)) initialiser.entry))) all) }
{
    match kind {
        Kind::ArrayDeclarator => {
            let types = array_types(alloc, oracle, tables, base, parts, initialiser)?;
            Ok(types)
        }
        Kind::Declarator => {
            let types = starred_types(alloc, base, parts)?;
            Ok(types)
        }
        _ => {
            let none = refused_everywhere(alloc)?;
            Ok(none)
        }
    }
}

/// The type of a declarator, by one type of the words before it.
#[tactic(auto, using(c_tree::specs::TreeLaws::tree_kinds))]
fn types_of_declarator<O: Oracle>(
    alloc: Global,
    oracle: &mut O,
    tables: &Tables,
    base: &CType,
    declarator: &Tree,
    initialiser: Option<&Item>,
) -> Result<Outcomes<DeclaredType, Refused>, NoMemory>
    ensures kept { O.admits oracle.new ≡ O.admits oracle.old }
    ensures shows { IfOk result (λ all. (c : List Bool) (scope : Scope) (f : Follows (seen_tables (has c) tables.now) scope) (ty : PlainType) (name : PlainToken)
        → IsTrue (value (has c) (O.admits oracle.old)) → IsThere scope.structs ty → plain_type base.now ≡ renumbered f.by ty
        → ShowsType (has c) (outcome_as (renumbered f.by) (object_type_in scope ty (plain_tree declarator.now) name (option_map (λ item. item_at (has c) (plain_item item.now)) initialiser.entry))) all) }
{
    match declarator {
        Tree::Leaf(_) => refused_everywhere(alloc),
        Tree::Node(kind, parts) => {
            types_by_kind(alloc, oracle, tables, base, *kind, parts, initialiser)
        }
    }
}

/// The types of a declarator, by each of the types of the words before it where its condition is true.
fn types_of_each<O: Oracle>(
    alloc: Global,
    oracle: &mut O,
    tables: &Tables,
    bases: &[Guarded<DeclaredType>],
    declarator: &Tree,
    initialiser: Option<&Item>,
) -> Result<Outcomes<DeclaredType, Refused>, NoMemory>
    ensures kept { O.admits oracle.new ≡ O.admits oracle.old }
    ensures shows { IfOk result (λ all. (c : List Bool) (scope : Scope) (f : Follows (seen_tables (has c) tables.now) scope) (ty : PlainType) (name : PlainToken)
        → IsTrue (value (has c) (O.admits oracle.old)) → IsThere scope.structs ty → Stands (has c) (renumbered f.by ty) (entries_of declared_type_form bases.now)
        → ShowsType (has c) (outcome_as (renumbered f.by) (object_type_in scope ty (plain_tree declarator.now) name (option_map (λ item. item_at (has c) (plain_item item.now)) initialiser.entry))) all) }
{
    let mut all = Outcomes::nothing(alloc);
    for base in bases {
        let types = types_of_declarator(
            alloc,
            oracle,
            tables,
            &base.what.ty,
            declarator,
            initialiser,
        )?;
        all.place_under(alloc, &base.when, &types)?;
    }
    Ok(all)
}

/// A judgement after an earlier one, whose refusals come first.
fn after(
    alloc: Global,
    earlier: &CondList<Refused>,
    later: Outcomes<DeclaredType, Refused>,
) -> Result<Outcomes<DeclaredType, Refused>, NoMemory>
    ensures values { IfOk result (λ all. all.fine ≡ later.fine) }
    ensures refusals { IfOk result (λ all. (on : ℕ → Bool) → seen on (listed reason all.refused) ≡ seen on (listed reason earlier.now) ++ seen on (listed reason later.refused)) }
{
    let Outcomes { fine, refused: own } = later;
    let mut refused = earlier.restrict(alloc, &Formula::True)?;
    refused.append(own)?;
    Ok(Outcomes { fine, refused })
}

/// The type of an object's declarator, which is one tree, in all configurations: by the types of the words before it. Its initialiser may
/// have alternatives; it counts the elements of an array without a size. Equal types are one.
pub fn object_types<O: Oracle>(
    alloc: Global,
    oracle: &mut O,
    tables: &Tables,
    base: &Outcomes<DeclaredType, Refused>,
    declarator: &Tree,
    initialiser: Option<&Item>,
) -> Result<Outcomes<DeclaredType, Refused>, NoMemory>
    ensures kept { O.admits oracle.new ≡ O.admits oracle.old }
    ensures shows { IfOk result (λ all. (c : List Bool) (scope : Scope) (f : Follows (seen_tables (has c) tables.now) scope) (ty : PlainType) (name : PlainToken)
        → IsTrue (value (has c) (O.admits oracle.old)) → IsThere scope.structs ty → ShowsType (has c) (fine (renumbered f.by ty)) base.now
        → ShowsType (has c) (outcome_as (renumbered f.by) (object_type_in scope ty (plain_tree declarator.now) name (option_map (λ item. item_at (has c) (plain_item item.now)) initialiser.entry))) all) }
    ensures refused { IfOk result (λ all. (c : List Bool) → IsTrue (value (has c) (O.admits oracle.old)) → ShowsType (has c) (refused tt) base.now → ShowsType (has c) (refused tt) all) }
{
    let all = types_of_each(
        alloc,
        oracle,
        tables,
        &base.fine.alternatives,
        declarator,
        initialiser,
    )?;
    let types = after(alloc, &base.refused, all)?;
    Ok(types)
}
