//! Declarations at file scope (6.7): words, which may declare a struct, and the declarators behind them.
ghost use Rattle.std.specs.Prelude.{◌≡◌, ℕ, Bool, List, IsTrue, IfOk, ⊤};
ghost use Rattle.cond_formula.specs.Features.{has};
ghost use Rattle.cond_formula.specs.Conditions.{condition_of, value};
ghost use Rattle.c_tree.specs.declared.kinds.Kind.TheVariants as k;
ghost use Rattle.c_tree.specs.Grammar.{Role};
ghost use Rattle.tree_derivations.specs.Derivations.{Declared};
ghost use Rattle.choice_trees.specs.ChoiceTrees.{plain_item, plain_choices, item_at, parts_at};
ghost use Rattle.cond_units.specs.Seen.{seen_unit};
ghost use Rattle.cond_units.specs.Where.{Where};
ghost use Rattle.cond_units.specs.Items.{DeclaresItem, declaration_of, words_alone};

use crate::storages::{Surroundings, name_with_each, said_storages};
use crate::{Behind, UnitTables};
use choice_expansions::expansions;
use choice_trees::{Choice, Item};
use cond_declarators::declared_base;
use cond_formula::{Formula, NoMemory, Oracle};
use conditional_steps::{possible_both, where_refused};
use reduced_conditions::either;
use std::alloc::Global;

/// The declaration with these words and this list of declarators, where the condition is true. The answer is where it is refused.
pub fn declare<B: Behind, O: Oracle>(
    alloc: Global,
    oracle: &mut O,
    unit: &mut UnitTables,
    when: &Formula,
    surroundings: &Surroundings<'_, B>,
    words: &Item,
    parts: &[Choice<Item>],
) -> Result<Formula, NoMemory>
    ensures kept { O.admits oracle.new ≡ O.admits oracle.old }
    ensures declares { IfOk result (λ f. (c : List Bool) (globals : ℕ) (role : Role) → IsTrue (value (has c) (O.admits oracle.old))
        → Where (value (has c) (condition_of when.now))
        (DeclaresItem (declaration_of globals (item_at (has c) (plain_item words.now)) (parts_at (has c) k.Declarators 0 (plain_choices parts.now)) (B.rest surroundings.now.behind.now c)) (Declared role (parts_at (has c) k.Declarators 0 (plain_choices parts.now))))
        (seen_unit (has c) unit.old) (seen_unit (has c) unit.new) (value (has c) (condition_of f))) }
{
    let base = declared_base(alloc, oracle, &mut unit.tables, when, words)?;
    let untyped = where_refused(alloc, &base)?;
    let no_type = possible_both(alloc, oracle, when, &untyped)?;
    let trees = expansions(alloc, oracle, words)?;
    let said = said_storages(alloc, &trees)?;
    let refused = name_with_each(alloc, oracle, unit, when, surroundings, &base, &said, parts)?;
    either(alloc, no_type, refused)
}

/// The declaration of these words alone, where the condition is true, which may declare a struct. The answer is where it is refused.
pub fn declare_alone<O: Oracle>(
    alloc: Global,
    oracle: &mut O,
    unit: &mut UnitTables,
    when: &Formula,
    words: &Item,
) -> Result<Formula, NoMemory>
    ensures kept { O.admits oracle.new ≡ O.admits oracle.old }
    ensures declares { IfOk result (λ f. (c : List Bool) → IsTrue (value (has c) (O.admits oracle.old))
        → Where (value (has c) (condition_of when.now)) (DeclaresItem (words_alone (item_at (has c) (plain_item words.now))) ⊤)
        (seen_unit (has c) unit.old) (seen_unit (has c) unit.new) (value (has c) (condition_of f))) }
{
    let base = declared_base(alloc, oracle, &mut unit.tables, when, words)?;
    let untyped = where_refused(alloc, &base)?;
    let refused = possible_both(alloc, oracle, when, &untyped)?;
    Ok(refused)
}
