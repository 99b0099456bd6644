//! The core program of units that link.
ghost use Rattle.std.specs.Prelude.{◌≡◌, List, length, IfOk, true, false, map};
ghost use Rattle.c_tree.specs.Trees.{PlainTree};
ghost use Rattle.core_meaning.specs.Linking as spec;
ghost use Rattle.core_meaning.specs.Plain.{plain_program};
ghost use Rattle.plain_link.specs.PlainUnits.{plain_unit, plain_units};
ghost use Rattle.plain_numbers.specs.Numbering.{IsListed};

use crate::bodies::bodies_of;
use crate::functions::functions_of;
use crate::globals::globals_of;
use crate::owners::{keys_of, types_of};
use crate::structs::layouts;
use cond_formula::NoMemory;
use core_meaning::CoreProgram;
use plain_link::Left;
use plain_numbers::{Listing, main_number};
use plain_scope::Struct;
use std::alloc::Global;

/// The core program of units that were judged, of their structs, of the names of their objects and functions, and of their texts.
pub fn program(
    alloc: Global,
    units: Vec<Left>,
    structs: &[Struct],
    objects: &Listing,
    functions: &Listing,
    literals: Vec<Vec<u8>>,
) -> Result<CoreProgram, NoMemory>
    requires objects { IsListed objects.now (map (plain_unit 0) units.items) false }
    requires functions { IsListed functions.now (map (plain_unit 0) units.items) true }
    ensures { IfOk result (λ program. (trees : List PlainTree) → map (λ bytes. bytes.items) literals.items ≡ spec.literals_of trees →
        plain_program program ≡ spec.program_of trees (plain_units (length objects.now.list.items) units.items structs.now)) }
{
    let function_keys = keys_of(alloc, units.as_slice(), functions.list.as_slice())?;
    let object_keys = keys_of(alloc, units.as_slice(), objects.list.as_slice())?;
    let types = types_of(alloc, units.as_slice(), object_keys.as_slice())?;
    let main = main_number(alloc, functions)?;
    let mut bodies = bodies_of(alloc, units)?;
    let functions = functions_of(alloc, &mut bodies, function_keys.as_slice())?;
    let globals = globals_of(alloc, &mut bodies, object_keys.as_slice(), types.as_slice())?;
    let structs = layouts(alloc, structs)?;
    Ok(CoreProgram {
        structs,
        functions,
        globals,
        literals,
        main,
    })
}
