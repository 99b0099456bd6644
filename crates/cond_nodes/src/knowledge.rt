//! What names stand for and what structs have in all configurations.
ghost use Rattle.std.specs.Prelude.{◌≡◌, ℕ, Bool, List, Some, IsTrue, IfOk};
ghost use Rattle.cond_formula.specs.Features.{has};
ghost use Rattle.cond_formula.specs.Conditions.{Condition, value};
ghost use Rattle.conditional.specs.Entries.{alternatives, Sees};
ghost use Rattle.operand_rules.specs.PlainOperandTypes.{plain_operand_type};
ghost use Rattle.cond_operands.specs.Operands.{ShowsOperand};
ghost use Rattle.expression_types.specs.Known.{Known, Callable};
ghost use Rattle.expression_types.specs.Reading.{Read, object_in, callee_in, called};
ghost use Rattle.cond_nodes.specs.Reads.{ShowsCallee, ShowsEach, HasNumbers};

use crate::parts::Callee;
use cond_formula::{NoMemory, Oracle};
use cond_operands::Operands;
use conditional::{CondValue, Guarded};
use operand_rules::OperandType;
use std::alloc::Global;

/// What is known where an expression stands. Its meaning is what is known in each configuration, and the functions that numbers stand for there.
/// Its answers are right in the configurations that it admits.
pub trait Knowledge {
    ghost admits: { Self → Condition };

    ghost known: { Self → List Bool → Known };

    ghost callable: { Self → List Bool → ℕ → Callable };

    /// What is the null constant is a number.
    ghost numbers: { (x : Self) (c : List Bool) → IsTrue (value (has c) (admits x)) → HasNumbers (known x c) };

    /// The object that a name stands for.
    fn object(&self, alloc: Global, name: &[u8]) -> Result<Operands, NoMemory>
        ensures { IfOk result (λ z. (c : List Bool) → IsTrue (value (has c) (admits self.now)) → ShowsOperand (has c) (object_in ((known self.now c).ordinary name.now)) z) };

    /// The function that a name stands for.
    fn callee(&self, alloc: Global, name: &[u8]) -> Result<CondValue<Callee>, NoMemory>
        ensures { IfOk result (λ z. (c : List Bool) → IsTrue (value (has c) (admits self.now)) → ShowsCallee (has c) (callable self.now c) (callee_in ((known self.now c).ordinary name.now)) z) };

    /// The member of a complete struct.
    fn member(
        &self,
        alloc: Global,
        structure: u32,
        name: &[u8],
    ) -> Result<CondValue<OperandType>, NoMemory>
        ensures { IfOk result (λ z. (c : List Bool) → IsTrue (value (has c) (admits self.now)) → Sees (has c) ((known self.now c).members structure name.now) (alternatives plain_operand_type z)) };

    /// What a call of a function gives for arguments.
    fn called<O: Oracle>(
        &self,
        alloc: Global,
        oracle: &mut O,
        callee: Callee,
        arguments: &[Guarded<Operands>],
    ) -> Result<Operands, NoMemory>
        ensures kept { O.admits oracle.new ≡ O.admits oracle.old }
        ensures shows { IfOk result (λ z. (c : List Bool) (reads : List Read) → IsTrue (value (has c) (admits self.now)) → IsTrue (value (has c) (O.admits oracle.old))
            → ShowsEach (has c) reads arguments.now → ShowsOperand (has c) (called (Some (callable self.now c callee.number)) reads) z) };
}
