//! The machine: does one action after the other.
ghost use Rattle.std.specs.Prelude.{◌≡◌, [], ◌∷◌, IfOk, IfSome, IfNone};
ghost use Rattle.core_cells.specs.Forms.{plain_value};
ghost use Rattle.core_meaning.specs.Run.{answer_of};
ghost use Rattle.run_machine.specs.Machines.{outcome_of, Advances};
ghost use Rattle.variant_interp.specs.Answers.{plain_answer};
ghost use Rattle.run_calls.specs.Library.{status_flow};
ghost use Rattle.interp_actions.specs.Stacks.{actions_of, operands_of};

use crate::answer::RunAnswer;
use crate::steps::step;
use cond_formula::NoMemory;
use core_cells::{Scalar, Value};
use interp_actions::{Action, Control, Ending, Flow};
use run_calls::int_of;
use run_machine::Machine;
use std::alloc::AllocError;

/// Does actions until the run comes to an answer.
pub fn until_answer<'a>(mut machine: Machine<'a>) -> Result<RunAnswer, NoMemory>
    ensures { IfOk result (λ answer. plain_answer answer ≡ answer_of (outcome_of machine.entry)) }
{
    // No machine does more actions than these.
    for number in 0..u64::MAX {
        match next(&mut machine)? {
            Flow::Goes => {}
            Flow::Exits(status) => return Ok(RunAnswer::Ended(machine.output, status)),
            Flow::Stops => return Ok(RunAnswer::Running(machine.output)),
            Flow::Fails => return Ok(RunAnswer::Undefined(machine.output)),
        }
    }
    Err(AllocError)
}

/// Does the next action; without one the run has ended.
fn next<'a>(machine: &mut Machine<'a>) -> Result<Flow, NoMemory>
    ensures { IfOk result (λ flow. Advances flow machine.old machine.new) }
{
    match take_action(&mut machine.control) {
        None => Ok(end(machine)),
        Some(action) => step(machine, action),
    }
}

/// How the program ends where `main` has ended, and no action is left.
fn end<'a>(machine: &mut Machine<'a>) -> Flow
    requires { actions_of machine.old.control ≡ [] }
    ensures { Advances result machine.old machine.new }
{
    match machine.control.take_ending() {
        None => Flow::Fails,
        Some(Ending::Falls) => Flow::Exits(0),
        Some(Ending::Breaks) => Flow::Fails,
        Some(Ending::Continues) => Flow::Fails,
        Some(Ending::Returns(value)) => status_of(value),
    }
}

/// The next action is taken from the stack.
fn take_action<'a>(control: &mut Control<'a>) -> Option<Action<'a>>
    ensures some { IfSome result (λ taken. actions_of control.old ≡ taken ∷ actions_of control.new) }
    ensures none { IfNone result (actions_of control.old ≡ []) }
    ensures nothing { IfNone result (actions_of control.new ≡ []) }
    ensures operands { operands_of control.new ≡ operands_of control.old }
{
    control.actions.pop()
}

/// The status that a value of `main` is.
fn status_of<'a>(value: Value<'a>) -> Flow
    ensures { result ≡ status_flow (plain_value value.entry) }
{
    match value {
        Value::Nothing => Flow::Fails,
        Value::Whole(_) => Flow::Fails,
        Value::Scalar(Scalar::Pointer(_)) => Flow::Fails,
        Value::Scalar(Scalar::Number(number)) => Flow::Exits(int_of(number)),
    }
}
