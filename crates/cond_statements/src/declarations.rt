//! The declarations of locals, as a reader of statements asks for them.
ghost use Rattle.std.specs.Prelude.{◌≡◌, Bool, true, false, List, IsTrue, IfOk, OnOk};
ghost use Rattle.cond_formula.specs.Features.{has};
ghost use Rattle.cond_formula.specs.Conditions.{condition_of, value};
ghost use Rattle.c_types.specs.Types.{PlainType};
ghost use Rattle.c_tree.specs.declared.kinds.Kind.TheVariants as k;
ghost use Rattle.c_tree.specs.Trees.{node};
ghost use Rattle.core_meaning.specs.Entities.{Scope};
ghost use Rattle.core_meaning.specs.Declarations.{judged_locals};
ghost use Rattle.choice_trees.specs.ChoiceTrees.{plain_choices, parts_at};
ghost use Rattle.type_tables.specs.Seen.{seen_tables};
ghost use Rattle.type_tables.specs.Follows.{FollowsInBlock};
ghost use Rattle.cond_statements.specs.Following.{Declared};
ghost use Rattle.type_tables.specs.Blocks.{OnlyLocals};
ghost use Rattle.cond_statements.specs.Ready.{IsDerived};

use choice_trees::{Choice, Item};
use cond_formula::{Formula, NoMemory, Oracle};
use std::alloc::Global;
use type_tables::Tables;

/// A reader of the declarations of locals.
pub trait Declarations {
    /// The locals that a declaration with these parts declares in the innermost block, where the condition is true. The answer is where it is
    /// refused (6.7).
    fn declare<O: Oracle>(
        &self,
        alloc: Global,
        oracle: &mut O,
        tables: &mut Tables,
        when: &Formula,
        parts: &[Choice<Item>],
    ) -> Result<Formula, NoMemory>
        ensures kept { O.admits oracle.new ≡ O.admits oracle.old }
        ensures outside { OnOk result (OnlyLocals tables.old tables.new) }
        ensures elsewhere { IfOk result (λ f. (c : List Bool) → IsTrue (value (has c) (O.admits oracle.old)) → value (has c) (condition_of when.now) ≡ false
            → (seen_tables (has c) tables.new ≡ seen_tables (has c) tables.old) × (value (has c) (condition_of f) ≡ false)) }
        ensures declared { IfOk result (λ f. (c : List Bool) → IsTrue (value (has c) (O.admits oracle.old)) → value (has c) (condition_of when.now) ≡ true
            → (scope : Scope) (slots : List PlainType) (follows : FollowsInBlock (seen_tables (has c) tables.old) scope)
            → IsDerived (node k.LocalDeclaration (parts_at (has c) k.LocalDeclaration 0 (plain_choices parts.now)))
            → Declared follows.follows.by (judged_locals scope slots (parts_at (has c) k.LocalDeclaration 0 (plain_choices parts.now))) (value (has c) (condition_of f)) (seen_tables (has c) tables.new)) };
}
