//! Objects in the slots of the function under way (6.2.4).
ghost use Rattle.std.specs.Prelude.{◌≡◌, ◌<◌, IfOk, OnOk, length};
ghost use Rattle.c_types.specs.Types.{plain_type};
ghost use Rattle.core_memory.specs.MemoryForms.{plain_memory};
ghost use Rattle.run_machine.specs.Machines.{position_of, declared_at};

use crate::frames::{held_at, hold};
use crate::machine::Machine;
use c_types::CType;
use cond_formula::NoMemory;
use interp_actions::{Action, push};

/// Makes the object of a slot, which ends behind what is done next.
pub fn declare<'a>(machine: &mut Machine<'a>, slot: usize, ty: &'a CType) -> Result<usize, NoMemory>
    requires { slot < length machine.old.frame.types.now }
    ensures number { IfOk result (λ object. object ≡ (plain_memory machine.old.memory).made) }
    ensures declared { OnOk result (position_of machine.new ≡ declared_at slot (plain_type ty.now) (position_of machine.old)) }
    ensures alloc { machine.new.alloc ≡ machine.old.alloc }
{
    let object = machine.memory.make(machine.alloc, ty)?;
    let before = held_at(&machine.frame, slot);
    hold(&mut machine.frame, slot, Some(object));
    push(
        &mut machine.control.actions,
        Action::EndScope(slot, object, before),
    )?;
    Ok(object)
}
