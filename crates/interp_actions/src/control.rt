//! The stacks of actions and operands.
ghost use Rattle.std.specs.Prelude.{◌≡◌, ◌∷◌, [], OnOk, IfSome, IfNone, reverse};
ghost use Rattle.interp_actions.specs.Stacks.{actions_of, operands_of, Pushes, NoValue, NoScalar, NoPlace, NoTruth, NoEnding};
ghost use Rattle.core_meaning.specs.Values.{is_true as truth_of};
ghost use Rattle.core_cells.specs.Forms.{plain_scalar};
ghost use Rattle.interp_actions.specs.Actions.{end_full_action};

use crate::actions::{Action, Ending, Operand};
use cond_formula::NoMemory;
use core_cells::{Pointer, Scalar, Value, is_true};
use std::alloc::Global;

/// The stacks of actions and operands; the last one of each is on top.
#[derive(Drop)]
pub struct Control<'a> {
    pub actions: Vec<Action<'a>>,
    pub operands: Vec<Operand<'a>>,
}

/// One more on top of a stack. The only error of these functions is want of memory.
pub fn push<T: Drop>(stack: &mut Vec<T>, top: T) -> Result<(), NoMemory>
    ensures { OnOk result (reverse stack.new.items ≡ top ∷ reverse stack.old.items) }
{
    stack.push(top)?;
    Ok(())
}

/// Two more, the first of which is on top.
pub fn push_two<T: Drop>(stack: &mut Vec<T>, first: T, second: T) -> Result<(), NoMemory>
    ensures { OnOk result (reverse stack.new.items ≡ first ∷ second ∷ reverse stack.old.items) }
{
    push(stack, second)?;
    push(stack, first)?;
    Ok(())
}

/// Three more, the first of which is on top.
pub fn push_three<T: Drop>(
    stack: &mut Vec<T>,
    first: T,
    second: T,
    third: T,
) -> Result<(), NoMemory>
    ensures { OnOk result (reverse stack.new.items ≡ first ∷ second ∷ third ∷ reverse stack.old.items) }
{
    push_two(stack, second, third)?;
    push(stack, first)?;
    Ok(())
}

/// Four more, the first of which is on top.
pub fn push_four<T: Drop>(
    stack: &mut Vec<T>,
    first: T,
    second: T,
    third: T,
    fourth: T,
) -> Result<(), NoMemory>
    ensures { OnOk result (reverse stack.new.items ≡ first ∷ second ∷ third ∷ fourth ∷ reverse stack.old.items) }
{
    push_three(stack, second, third, fourth)?;
    push(stack, first)?;
    Ok(())
}

/// Five more, the first of which is on top.
pub fn push_five<T: Drop>(
    stack: &mut Vec<T>,
    first: T,
    second: T,
    third: T,
    fourth: T,
    fifth: T,
) -> Result<(), NoMemory>
    ensures { OnOk result (reverse stack.new.items ≡ first ∷ second ∷ third ∷ fourth ∷ fifth ∷ reverse stack.old.items) }
{
    push_four(stack, second, third, fourth, fifth)?;
    push(stack, first)?;
    Ok(())
}

impl<'a> Control<'a> {
    /// Puts whether a scalar holds as a condition.
    pub fn put_truth_of(&mut self, scalar: Scalar) -> Result<(), NoMemory>
        ensures actions { actions_of self.new ≡ actions_of self.old }
        ensures operands { OnOk result (operands_of self.new ≡ Operand.Truth (truth_of (plain_scalar scalar)) ∷ operands_of self.old) }
    {
        let holds = is_true(&scalar);
        push(&mut self.operands, Operand::Truth(holds))?;
        Ok(())
    }

    /// Puts an operand in the place of a value that isn't kept.
    pub fn put_for(&mut self, _value: Value<'a>, operand: Operand<'a>) -> Result<(), NoMemory>
        ensures actions { actions_of self.new ≡ actions_of self.old }
        ensures operands { OnOk result (operands_of self.new ≡ operand.entry ∷ operands_of self.old) }
    {
        push(&mut self.operands, operand)?;
        Ok(())
    }

    /// Takes the value on top; None where another operand is, or none: that one is gone too.
    pub fn take_value(&mut self) -> Option<Value<'a>>
        ensures actions { actions_of self.new ≡ actions_of self.old }
        ensures some { IfSome result (λ taken. operands_of self.old ≡ Operand.Value taken ∷ operands_of self.new) }
        ensures none { IfNone result (NoValue (operands_of self.old)) }
    {
        match self.operands.pop()? {
            Operand::Value(taken) => Some(taken),
            Operand::Scalar(_) | Operand::Place(_) | Operand::Truth(_) | Operand::Ending(_) => None,
        }
    }

    /// Takes the scalar on top, as `take_value` does.
    pub fn take_scalar(&mut self) -> Option<Scalar>
        ensures actions { actions_of self.new ≡ actions_of self.old }
        ensures some { IfSome result (λ taken. operands_of self.old ≡ Operand.Scalar taken ∷ operands_of self.new) }
        ensures none { IfNone result (NoScalar (operands_of self.old)) }
    {
        match self.operands.pop()? {
            Operand::Scalar(taken) => Some(taken),
            Operand::Value(_) | Operand::Place(_) | Operand::Truth(_) | Operand::Ending(_) => None,
        }
    }

    /// Takes the place on top, as `take_value` does.
    pub fn take_place(&mut self) -> Option<Pointer>
        ensures actions { actions_of self.new ≡ actions_of self.old }
        ensures some { IfSome result (λ taken. operands_of self.old ≡ Operand.Place taken ∷ operands_of self.new) }
        ensures none { IfNone result (NoPlace (operands_of self.old)) }
    {
        match self.operands.pop()? {
            Operand::Place(taken) => Some(taken),
            Operand::Value(_) | Operand::Scalar(_) | Operand::Truth(_) | Operand::Ending(_) => None,
        }
    }

    /// Takes the condition on top, as `take_value` does.
    pub fn take_truth(&mut self) -> Option<bool>
        ensures actions { actions_of self.new ≡ actions_of self.old }
        ensures some { IfSome result (λ taken. operands_of self.old ≡ Operand.Truth taken ∷ operands_of self.new) }
        ensures none { IfNone result (NoTruth (operands_of self.old)) }
    {
        match self.operands.pop()? {
            Operand::Truth(taken) => Some(taken),
            Operand::Value(_) | Operand::Scalar(_) | Operand::Place(_) | Operand::Ending(_) => None,
        }
    }

    /// Takes the ending on top, as `take_value` does.
    pub fn take_ending(&mut self) -> Option<Ending<'a>>
        ensures actions { actions_of self.new ≡ actions_of self.old }
        ensures some { IfSome result (λ taken. operands_of self.old ≡ Operand.Ending taken ∷ operands_of self.new) }
        ensures none { IfNone result (NoEnding (operands_of self.old)) }
    {
        match self.operands.pop()? {
            Operand::Ending(taken) => Some(taken),
            Operand::Value(_) | Operand::Scalar(_) | Operand::Place(_) | Operand::Truth(_) => None,
        }
    }
}

/// What is done before this is a full expression; these are the temporary objects of the one around it.
fn then_end_full<'a>(control: &mut Control<'a>, outer: Vec<usize>) -> Result<(), NoMemory>
    ensures { OnOk result (Pushes (end_full_action (reverse outer.items)) control.old control.new) }
{
    push(&mut control.actions, Action::EndFull(outer))?;
    Ok(())
}

/// Begins a full expression: its temporary objects are its own.
pub fn begin_full<'a>(
    control: &mut Control<'a>,
    alloc: Global,
    temporaries: &mut Vec<usize>,
) -> Result<(), NoMemory>
    ensures full { OnOk result (Pushes (end_full_action (reverse temporaries.old.items)) control.old control.new) }
    ensures none { OnOk result (temporaries.new.items ≡ []) }
{
    let outer = std::mem::replace(temporaries, Vec::new(alloc));
    then_end_full(control, outer)?;
    Ok(())
}
