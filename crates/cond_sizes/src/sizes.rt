//! Sizes in the brackets of declarators (6.7.6.2).
ghost use Rattle.std.specs.Prelude.{◌≡◌, ℕ, Bool, false, List, [], None, IsTrue, IfOk};
ghost use Rattle.cond_formula.specs.Features.{has};
ghost use Rattle.cond_formula.specs.Conditions.{value};
ghost use Rattle.conditional.specs.Entries.{Stands};
ghost use Rattle.conditional.specs.Judgements.{checked, refused};
ghost use Rattle.c_text.specs.Token.{PlainToken};
ghost use Rattle.c_tree.specs.Trees.{PlainTree, plain_tree};
ghost use Rattle.choice_trees.specs.ChoiceTrees.{plain_item, item_at};
ghost use Rattle.choice_expansions.specs.Expansions.{expanded};
ghost use Rattle.core_meaning.specs.Checking as judging;
ghost use Rattle.core_meaning.specs.Entities as entities;
ghost use Rattle.core_meaning.specs.Constancy.{judged_count};
ghost use Rattle.operand_types.specs.OperandTypes.{outcome_as};
ghost use Rattle.operand_rules.specs.PlainOperandTypes.{reason};
ghost use Rattle.plain_scope.specs.PlainScope.{plain_scope};
ghost use Rattle.plain_scope.specs.Judgements.{Judges, RefusedAs};
ghost use Rattle.plain_scope.specs.declared.entities.Used as used;
ghost use Rattle.cond_sizes.specs.Sizes.{plain_count, ShowsCount};

use crate::elements::Count;
use crate::laws::counts_need_no_names;
use c_text::{Token, TokenKind};
use c_tree::Tree;
use choice_expansions::{Expansion, expansions};
use choice_trees::{Item, nowhere};
use cond_formula::{NoMemory, Oracle};
use conditional::Outcomes;
use operand_rules::Refused;
use plain_expressions::count;
use plain_scope::{ElabError, Numbers, Scope, Used};
use std::alloc::{AllocError, Global};
use std::collections::HashMap;

fn is_refusal(error: &ElabError) -> bool
    ensures refused { (c : judging.Checked ℕ) → IsTrue result → RefusedAs c error.now → outcome_as (λ (n : ℕ). n) c ≡ refused tt }
{
    matches!(error, ElabError::BadType(..))
}

/// What comes of a size by what the judgement of one configuration answers.
fn outcome(answer: Result<u32, ElabError>) -> Result<Result<Count, Refused>, NoMemory>
    ensures { IfOk result (λ r. (c : judging.Checked ℕ) (before after : used.Used) → Judges c (λ (n : ℕ). n) before after answer → checked plain_count reason r ≡ outcome_as (λ (n : ℕ). n) c) }
{
    match answer {
        Ok(elements) => Ok(Ok(Count { elements })),
        Err(error) => {
            if is_refusal(&error) {
                Ok(Err(Refused))
            } else {
                Err(AllocError)
            }
        }
    }
}

/// What comes of a size in one configuration.
fn count_of(
    alloc: Global,
    scope: &Scope,
    behind: &Token,
    tree: &Tree,
) -> Result<Result<Count, Refused>, NoMemory>
    ensures { IfOk result (λ r. (visible : entities.Scope) (other : PlainToken)
        → checked plain_count reason r ≡ outcome_as (λ (n : ℕ). n) (judged_count visible (plain_tree tree.now) other)) }
{
    counts_need_no_names();
    let mut used = Used::new(alloc);
    outcome(count(alloc, scope, &mut used, tree, behind))
}

/// A scope in which nothing is visible.
pub fn nothing_visible<'a>(
    alloc: Global,
    numbers: &'a Numbers,
    literals: &'a HashMap<Vec<u8>, u32>,
) -> Scope<'a>
    ensures structs { (plain_scope result).structs ≡ [] }
    ensures tags { (name : List ℕ) → (plain_scope result).tags name ≡ None }
    ensures names { (name : List ℕ) → (plain_scope result).file_names name ≡ None }
    ensures blocks { (plain_scope result).blocks ≡ [] }
{
    Scope {
        structs: Vec::new(alloc),
        tags: HashMap::new(alloc),
        file_names: HashMap::new(alloc),
        order: Vec::new(alloc),
        blocks: Vec::new(alloc),
        numbers,
        literals,
    }
}

/// A token that comes from no text.
fn no_token(alloc: Global) -> Token {
    Token {
        kind: TokenKind::Punctuator,
        text: Vec::new(alloc),
        joined: false,
        origin: nowhere(),
    }
}

/// What comes of a size that is one tree. It is the same whatever is visible and whatever stands behind it.
pub fn count_of_tree(alloc: Global, size: &Tree) -> Result<Result<Count, Refused>, NoMemory>
    ensures { IfOk result (λ r. (visible : entities.Scope) (behind : PlainToken)
        → checked plain_count reason r ≡ outcome_as (λ (n : ℕ). n) (judged_count visible (plain_tree size.now) behind)) }
{
    let numbers = Numbers {
        globals: HashMap::new(alloc),
        functions: HashMap::new(alloc),
    };
    let literals = HashMap::new(alloc);
    let scope = nothing_visible(alloc, &numbers, &literals);
    let behind = no_token(alloc);
    count_of(alloc, &scope, &behind, size)
}

/// What comes of the sizes, each where its condition is true.
fn counts_of(alloc: Global, expansions: &[Expansion]) -> Result<Outcomes<Count, Refused>, NoMemory>
    ensures { IfOk result (λ all. (on : ℕ → Bool) (tree : PlainTree) → Stands on tree (expanded expansions.now) → (visible : entities.Scope) (other : PlainToken)
        → ShowsCount on (outcome_as (λ (n : ℕ). n) (judged_count visible tree other)) all) }
{
    let mut all = Outcomes::nothing(alloc);
    for expansion in expansions {
        let count = count_of_tree(alloc, &expansion.tree)?;
        all.place(alloc, expansion.when.try_clone(alloc)?, count)?;
    }
    Ok(all)
}

/// The size of an array in all configurations: a count, or a refusal where the size is no constant from 1 to the limit. It is the same
/// whatever is visible and whatever stands behind it. Equal counts are one.
pub fn counts<O: Oracle>(
    alloc: Global,
    oracle: &mut O,
    size: &Item,
) -> Result<Outcomes<Count, Refused>, NoMemory>
    ensures kept { O.admits oracle.new ≡ O.admits oracle.old }
    ensures shows { IfOk result (λ all. (c : List Bool) → IsTrue (value (has c) (O.admits oracle.old)) → (visible : entities.Scope) (behind : PlainToken)
        → ShowsCount (has c) (outcome_as (λ (n : ℕ). n) (judged_count visible (item_at (has c) (plain_item size.now)) behind)) all) }
{
    let expansions = expansions(alloc, oracle, size)?;
    counts_of(alloc, &expansions)
}
