//! What stands in memory before `main` begins: the globals, and behind them the arrays of the texts
//! (ISO/IEC 9899:2011, 5.1.2, 6.4.5, 6.7.9).
#![tactic(auto)]

ghost use Rattle.std.specs.Prelude.{◌≡◌, IfOk, map};
ghost use Rattle.c_types.specs.Types.{plain_type};
ghost use Rattle.core_meaning.specs.Plain.{plain_program};
ghost use Rattle.core_meaning.specs.Run as meaning;
ghost use Rattle.core_memory.specs.MemoryForms.{plain_memory, structs_of};
ghost use Rattle.run_start.specs.Starts.{text_types_of};

mod globals;
mod parts;
mod texts;

use c_types::CType;
use cond_formula::NoMemory;
use core_meaning::CoreProgram;
use core_memory::Memory;
use std::alloc::Global;
pub use texts::text_types;

/// The objects with which a run begins: the globals with their first values, and behind them the texts.
///
/// An object's number is its place in this order. `texts` are the types of the texts' arrays, as `text_types` gives them: the
/// memory borrows them, so that they have to outlive it.
///
/// # Errors
///
/// Want of memory, also where a text has more elements than 32 bits can count.
pub fn first_memory<'a>(
    alloc: Global,
    program: &'a CoreProgram,
    texts: &'a [CType],
) -> Result<Memory<'a>, NoMemory>
    requires { map plain_type texts.now ≡ text_types_of program.now }
    ensures objects { IfOk result (λ memory. plain_memory memory ≡ meaning.memory_of (meaning.first_objects (plain_program program.now))) }
    ensures structs { IfOk result (λ memory. structs_of memory ≡ (plain_program program.now).structs) }
{
    let mut memory = Memory::new(alloc, &program.structs);
    globals::add_globals(&mut memory, alloc, program)?;
    texts::add_texts(&mut memory, alloc, program, texts)?;
    Ok(memory)
}
