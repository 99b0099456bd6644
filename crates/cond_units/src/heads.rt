//! What is done with a function of which it is known what its declarator says (6.7.6.3).
ghost use Rattle.std.specs.Prelude.{◌≡◌, Bool, List, Some, IsTrue, IfOk};
ghost use Rattle.cond_formula.specs.Features.{has};
ghost use Rattle.cond_formula.specs.Conditions.{condition_of, value};
ghost use Rattle.c_text.specs.Token.{plain_token};
ghost use Rattle.c_types.specs.Types.{plain_type};
ghost use Rattle.choice_trees.specs.ChoiceTrees.{plain_item, item_at};
ghost use Rattle.cond_parameters.specs.Parameters.{IsList};
ghost use Rattle.cond_units.specs.Seen.{seen_unit};
ghost use Rattle.cond_units.specs.Declaring.{DeclaresTyped};
ghost use Rattle.cond_units.specs.Functions.{JudgedHead};
ghost use Rattle.cond_units.specs.Where.{Where};

use crate::UnitTables;
use c_text::Token;
use c_types::CType;
use choice_trees::Item;
use cond_formula::{Formula, NoMemory, Oracle};
use std::alloc::Global;

/// What the declarator of a function says.
#[derive(Clone, Copy)]
pub struct FunctionHead<'d> {
    /// How many stars stand before its name.
    pub stars: usize,
    pub name: &'d Token,
    /// Its parameters, or what stands for them where there are none.
    pub list: &'d Item,
}

/// What is done with a function by its head.
pub trait HeadReader {
    ghost judged: { Self → List Bool → JudgedHead };

    /// What else it takes.
    ghost ready: { Self → List Bool → Type 0 };

    /// A function behind the type where the condition is true, of which there are configurations. The answer is where it is refused.
    fn read_head<O: Oracle>(
        &self,
        alloc: Global,
        oracle: &mut O,
        unit: &mut UnitTables,
        when: &Formula,
        head: &FunctionHead<'_>,
        ty: &CType,
    ) -> Result<Formula, NoMemory>
        ensures kept { O.admits oracle.new ≡ O.admits oracle.old }
        ensures declares { IfOk result (λ f. (c : List Bool) → IsTrue (value (has c) (O.admits oracle.old))
            → Where (value (has c) (condition_of when.now))
            (DeclaresTyped (plain_type ty.now) (judged self.now c head.now.stars (plain_token head.now.name.now) (Some (item_at (has c) (plain_item head.now.list.now))))
            (IsList (item_at (has c) (plain_item head.now.list.now)) × ready self.now c))
            (seen_unit (has c) unit.old) (seen_unit (has c) unit.new) (value (has c) (condition_of f))) };
}
