//! Types by their words at file scope, where these may declare a struct (6.7.2.3).
ghost use Rattle.std.specs.Prelude.{◌≡◌, ℕ, Bool, true, false, List, [], ◌∷◌, IsTrue, IfOk};
ghost use Rattle.cond_formula.specs.Features.{has};
ghost use Rattle.cond_formula.specs.Conditions.{condition_of, value};
ghost use Rattle.conditional.specs.Entries.{seen};
ghost use Rattle.conditional.specs.Judgements.{fine, checked};
ghost use Rattle.c_text.specs.Token.{plain_token};
ghost use Rattle.c_tree.specs.Trees.{PlainTree, plain_tree, plain_trees};
ghost use Rattle.choice_trees.specs.ChoiceTrees.{plain_item, item_at};
ghost use Rattle.choice_expansions.specs.Expansions.{expanded};
ghost use Rattle.core_meaning.specs.Entities as entities;
ghost use Rattle.core_meaning.specs.Declarations.{based, based_on_tag};
ghost use Rattle.operand_rules.specs.PlainOperandTypes.{reason};
ghost use Rattle.type_tables.specs.Forms.{declared_type_form};
ghost use Rattle.type_tables.specs.Seen.{seen_tables};
ghost use Rattle.type_tables.specs.Follows.{Follows};
ghost use Rattle.cond_declarators.specs.Types.{ShowsType, based_in};
ghost use Rattle.cond_declarators.specs.DeclaredBases.{DeclaresBase, DeclaresHere, DeclaresNext};

use crate::bases::struct_type;
use c_text::Token;
use c_tree::{Terminal, Tree};
use choice_expansions::{Expansion, expansions};
use choice_trees::Item;
use choice_variants::may_hold;
use cond_formula::{Formula, NoMemory, Oracle};
use conditional::Outcomes;
use operand_rules::Refused;
use plain_declarators::name_in;
use plain_scope::{arithmetic_words, has_terminal};
use reduced_conditions::both_of;
use std::alloc::Global;
use type_tables::{DeclaredType, Tables};

/// The struct of a tag, which is declared where the condition is true.
fn declare_tag(
    alloc: Global,
    tables: &mut Tables,
    here: &Formula,
    tag: &Token,
) -> Result<DeclaredType, NoMemory>
    ensures { IfOk result (λ ty. (on : ℕ → Bool)
        → DeclaresHere (value on (condition_of here.now)) (λ scope. based_on_tag true scope (plain_token tag.now) (scope.tags tag.now.text.items)) (seen_tables on tables.old) (seen_tables on tables.new) (fine (declared_type_form ty))) }
{
    let number = tables.declare_struct(alloc, tag.text.as_slice(), here.try_clone(alloc)?)?;
    Ok(struct_type(number))
}

/// The type that words name, which declare a struct where the condition is true.
fn declare_words(
    alloc: Global,
    tables: &mut Tables,
    here: &Formula,
    words: &[Tree],
) -> Result<Result<DeclaredType, Refused>, NoMemory>
    ensures { IfOk result (λ r. (on : ℕ → Bool)
        → DeclaresHere (value on (condition_of here.now)) (λ scope. based true scope (plain_trees words.now)) (seen_tables on tables.old) (seen_tables on tables.new) (checked declared_type_form reason r)) }
{
    if !has_terminal(words, Terminal::Struct) {
        let ty = arithmetic_words(words);
        return Ok(Ok(DeclaredType { ty }));
    }
    match name_in(words) {
        Some(tag) => Ok(Ok(declare_tag(alloc, tables, here, tag)?)),
        None => Ok(Err(Refused)),
    }
}

/// The type that the words in a tree name.
#[tactic(auto, using(c_tree::specs::TreeLaws::tree_kinds))]
fn declare_tree(
    alloc: Global,
    tables: &mut Tables,
    here: &Formula,
    words: &Tree,
) -> Result<Result<DeclaredType, Refused>, NoMemory>
    ensures { IfOk result (λ r. (on : ℕ → Bool)
        → DeclaresHere (value on (condition_of here.now)) (λ scope. based_in true scope (plain_tree words.now)) (seen_tables on tables.old) (seen_tables on tables.new) (checked declared_type_form reason r)) }
{
    match words {
        Tree::Leaf(_) => Ok(Err(Refused)),
        Tree::Node(_, parts) => declare_words(alloc, tables, here, parts),
    }
}

/// What comes of one of the trees that the words stand for, placed where that tree stands and the condition is true.
fn declare_expansion<O: Oracle>(
    alloc: Global,
    oracle: &mut O,
    tables: &mut Tables,
    when: &Formula,
    expansion: &Expansion,
    all: &mut Outcomes<DeclaredType, Refused>,
) -> Result<(), NoMemory>
    ensures kept { O.admits oracle.new ≡ O.admits oracle.old }
    ensures elsewhere { IfOk result (λ _. (on : ℕ → Bool) → value on (condition_of when.now) ≡ false → seen_tables on tables.new ≡ seen_tables on tables.old) }
    ensures places { IfOk result (λ _. (c : List Bool) → IsTrue (value (has c) (O.admits oracle.old)) → IsTrue (value (has c) (condition_of when.now))
        → DeclaresNext (has c) (value (has c) (condition_of expansion.now.when)) (plain_tree expansion.now.tree) (seen_tables (has c) tables.old) (seen_tables (has c) tables.new) all.old all.new) }
{
    let here = both_of(alloc, when, &expansion.when)?;
    if !may_hold(&here, oracle) {
        return Ok(());
    }
    let outcome = declare_tree(alloc, tables, &here, &expansion.tree)?;
    all.place(alloc, here, outcome)?;
    Ok(())
}

/// What comes of the trees that the words stand for, where the condition is true.
fn declare_each<O: Oracle>(
    alloc: Global,
    oracle: &mut O,
    tables: &mut Tables,
    when: &Formula,
    expansions: &[Expansion],
) -> Result<Outcomes<DeclaredType, Refused>, NoMemory>
    ensures kept { O.admits oracle.new ≡ O.admits oracle.old }
    ensures elsewhere { IfOk result (λ _. (on : ℕ → Bool) → value on (condition_of when.now) ≡ false → seen_tables on tables.new ≡ seen_tables on tables.old) }
    ensures declares { IfOk result (λ all. (c : List Bool) (scope : entities.Scope) (f : Follows (seen_tables (has c) tables.old) scope) (words : PlainTree) → IsTrue (value (has c) (O.admits oracle.old))
        → IsTrue (value (has c) (condition_of when.now)) → seen (has c) (expanded expansions.now) ≡ words ∷ []
        → DeclaresBase (λ outcome. ShowsType (has c) outcome all) scope f.by (seen_tables (has c) tables.old) (seen_tables (has c) tables.new) (based_in true scope words)) }
{
    let mut all = Outcomes::nothing(alloc);
    for expansion in expansions {
        declare_expansion(alloc, oracle, tables, when, expansion, &mut all)?;
    }
    Ok(all)
}

/// The type that words name at file scope where the condition is true. A struct of a tag that isn't visible is declared there.
pub fn declared_base<O: Oracle>(
    alloc: Global,
    oracle: &mut O,
    tables: &mut Tables,
    when: &Formula,
    words: &Item,
) -> Result<Outcomes<DeclaredType, Refused>, NoMemory>
    ensures kept { O.admits oracle.new ≡ O.admits oracle.old }
    ensures elsewhere { IfOk result (λ _. (on : ℕ → Bool) → value on (condition_of when.now) ≡ false → seen_tables on tables.new ≡ seen_tables on tables.old) }
    ensures declares { IfOk result (λ all. (c : List Bool) (scope : entities.Scope) (f : Follows (seen_tables (has c) tables.old) scope) → IsTrue (value (has c) (O.admits oracle.old))
        → IsTrue (value (has c) (condition_of when.now))
        → DeclaresBase (λ outcome. ShowsType (has c) outcome all) scope f.by (seen_tables (has c) tables.old) (seen_tables (has c) tables.new)
        (based_in true scope (item_at (has c) (plain_item words.now)))) }
{
    let expansions = expansions(alloc, oracle, words)?;
    let all = declare_each(alloc, oracle, tables, when, &expansions)?;
    Ok(all)
}
