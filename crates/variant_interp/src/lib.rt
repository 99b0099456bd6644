//! The interpreter: runs a core program on a stack of its own, exactly as its meaning says (ISO/IEC 9899:2011, 5.1.2.3).
#![tactic(auto)]

ghost use Rattle.std.specs.Prelude.{◌≡◌, IfOk};
ghost use Rattle.core_meaning.specs.Plain.{plain_program};
ghost use Rattle.core_meaning.specs.Run as meaning;
ghost use Rattle.variant_interp.specs.Answers.{plain_answer};

mod answer;
mod first_call;
mod machine;
mod steps;

pub use answer::RunAnswer;
use cond_formula::NoMemory;
use core_meaning::CoreProgram;
use first_call::run_from;
use run_start::{first_memory, text_types};
use std::alloc::Global;

/// Runs a program with an input. A call of a function with a body and a turn of a loop cost one of the bound.
pub fn run(
    alloc: Global,
    program: &CoreProgram,
    input: &[u8],
    bound: u32,
) -> Result<RunAnswer, NoMemory>
    ensures { IfOk result (λ answer. plain_answer answer ≡ meaning.run (plain_program program.now) input.now bound) }
{
    let texts = text_types(alloc, program)?;
    let memory = first_memory(alloc, program, &texts)?;
    let answer = run_from(alloc, program, input, bound, memory)?;
    Ok(answer)
}
