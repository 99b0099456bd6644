//! The first call of `main` (5.1.2.2.1).
ghost use Rattle.std.specs.Prelude.{◌≡◌, ◌∷◌, [], ℕ, IfOk, List, Option, Some, map, slice_get};
ghost use Rattle.c_types.specs.declared.types.CType.{CType};
ghost use Rattle.c_types.specs.Types.{plain_type};
ghost use Rattle.core_meaning.specs.Plain.{plain_program, plain_items};
ghost use Rattle.core_meaning.specs.Program.{defined};
ghost use Rattle.core_memory.specs.MemoryForms.{plain_memory, structs_of};
ghost use Rattle.interp_actions.specs.Actions.{items_action};
ghost use Rattle.interp_actions.specs.Forms.{plain_actions};
ghost use Rattle.interp_actions.specs.Stacks.{actions_of, operands_of};
ghost use Rattle.variant_interp.specs.Answers.{plain_answer};
ghost use Rattle.variant_interp.specs.Starts.{answer_from, first_state, Begins};

use crate::answer::RunAnswer;
use crate::machine::until_answer;
use cond_formula::NoMemory;
use core_meaning::{CoreProgram, Definition, Function};
use core_memory::Memory;
use interp_actions::{Action, Control, push};
use run_machine::{Machine, frame_of};
use std::alloc::Global;

/// A run from what stands in memory before `main` begins.
pub fn run_from<'a>(
    alloc: Global,
    program: &'a CoreProgram,
    input: &'a [u8],
    bound: u32,
    memory: Memory<'a>,
) -> Result<RunAnswer, NoMemory>
    requires { structs_of memory ≡ (plain_program program.now).structs }
    ensures { IfOk result (λ answer. plain_answer answer ≡ answer_from (plain_program program.now) input.now bound (plain_memory memory.entry)) }
{
    match program.functions.get(program.main as usize) {
        None => Ok(RunAnswer::Undefined(Vec::new(alloc))),
        Some(Function::BuiltIn(_)) => Ok(RunAnswer::Undefined(Vec::new(alloc))),
        Some(Function::Defined(definition)) => {
            let answer = run_main(alloc, program, input, bound, memory, definition)?;
            Ok(answer)
        }
    }
}

fn run_main<'a>(
    alloc: Global,
    program: &'a CoreProgram,
    input: &'a [u8],
    bound: u32,
    memory: Memory<'a>,
    definition: &'a Definition,
) -> Result<RunAnswer, NoMemory>
    requires structs { structs_of memory ≡ (plain_program program.now).structs }
    requires main { slice_get (plain_program program.now).functions program.now.main ≡ Some (defined (map plain_type definition.now.slots.items) (plain_items definition.now.body.items)) }
    ensures { IfOk result (λ answer. plain_answer answer ≡ answer_from (plain_program program.now) input.now bound (plain_memory memory.entry)) }
{
    let machine = first_machine(alloc, program, input, bound, memory, definition)?;
    let answer = until_answer(machine)?;
    Ok(answer)
}

/// A machine that has the items of `main` to do, and the whole bound.
fn first_machine<'a>(
    alloc: Global,
    program: &'a CoreProgram,
    input: &'a [u8],
    bound: u32,
    memory: Memory<'a>,
    definition: &'a Definition,
) -> Result<Machine<'a>, NoMemory>
    requires { structs_of memory ≡ (plain_program program.now).structs }
    ensures { IfOk result (λ machine. Begins (plain_program program.now) definition.now bound (first_state input.now (plain_memory memory.entry)) machine) }
{
    let frame = frame_of(alloc, definition, bound)?;
    let control = first_control(alloc, definition)?;
    Ok(Machine {
        alloc,
        program,
        input,
        output: Vec::new(alloc),
        memory,
        temporaries: Vec::new(alloc),
        frame,
        control,
    })
}

/// Stacks with the items of a function to do.
fn first_control<'a>(alloc: Global, definition: &'a Definition) -> Result<Control<'a>, NoMemory>
    ensures actions { IfOk result (λ control. (types : List CType) → (slots : List (Option ℕ)) → plain_actions types slots (actions_of control) ≡ items_action (plain_items definition.now.body.items) ∷ []) }
    ensures operands { IfOk result (λ control. operands_of control ≡ []) }
{
    let mut control = Control {
        actions: Vec::new(alloc),
        operands: Vec::new(alloc),
    };
    push(&mut control.actions, Action::Items(&definition.body))?;
    Ok(control)
}
