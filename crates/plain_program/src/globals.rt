//! The objects of a core program.
ghost use Rattle.std.specs.Prelude.{◌≡◌, ℕ, length, IfOk, option_map, map};
ghost use Rattle.c_types.specs.Types.{PlainType, plain_type};
ghost use Rattle.core_meaning.specs.Linking as spec;
ghost use Rattle.core_meaning.specs.Plain.{plain_constant_part, plain_global};
ghost use Rattle.plain_link.specs.PlainDefinitions.{plain_body};
ghost use Rattle.plain_numbers.specs.declared.places.Linked.{Linked as Key};
ghost use Rattle.plain_program.specs.Bodies.{held};
ghost use Rattle.plain_program.specs.Functions.{IsApart, AreApart};
ghost use Rattle.plain_program.specs.Globals.{parts_for, global_for};

use crate::functions::taken;
use c_types::CType;
use cond_formula::NoMemory;
use core_meaning::{ConstantPart, Global as CoreGlobal};
use plain_link::Definite;
use plain_numbers::Linked;
use plain_scope::copied;
use std::alloc::Global;
use std::collections::HashMap;

fn parts_in(alloc: Global, body: Option<Definite>) -> Vec<ConstantPart>
    ensures { (globals : ℕ) → map (plain_constant_part globals) result.items ≡ spec.parts_of_body (option_map (plain_body globals) body) }
{
    match body {
        None => Vec::new(alloc),
        Some(Definite::Object(parts)) => parts,
        Some(Definite::Function(_)) => Vec::new(alloc),
        Some(Definite::Tentative) => Vec::new(alloc),
    }
}

/// The first value of the object under a key; one that no unit defines has none.
fn parts_under(
    alloc: Global,
    bodies: &mut HashMap<Linked, Definite>,
    key: &Linked,
) -> Vec<ConstantPart>
    ensures parts { (globals : ℕ) → map (plain_constant_part globals) result.items ≡ parts_for key.now (held globals bodies.old key.now) }
    ensures others { (globals : ℕ) → (other : Key) → IsApart key.now other → held globals bodies.new other ≡ held globals bodies.old other }
{
    match key.unit {
        None => Vec::new(alloc),
        Some(_) => {
            let body = taken(bodies, key);
            parts_in(alloc, body)
        }
    }
}

fn global_under(
    alloc: Global,
    bodies: &mut HashMap<Linked, Definite>,
    key: &Linked,
    ty: &CType,
) -> Result<CoreGlobal, NoMemory>
    ensures global { IfOk result (λ global. (globals : ℕ) → plain_global globals global ≡ global_for (plain_type ty.now) key.now (held globals bodies.old key.now)) }
    ensures others { IfOk result (λ global. (globals : ℕ) → (other : Key) → IsApart key.now other → held globals bodies.new other ≡ held globals bodies.old other) }
{
    let ty = copied(alloc, ty)?;
    let parts = parts_under(alloc, bodies, key);
    Ok(CoreGlobal { ty, parts })
}

/// The objects under keys, of these types.
pub fn globals_of(
    alloc: Global,
    bodies: &mut HashMap<Linked, Definite>,
    keys: &[Linked],
    types: &[CType],
) -> Result<Vec<CoreGlobal>, NoMemory>
    requires apart { AreApart keys.now }
    requires typed { length types.now ≡ length keys.now }
    ensures { IfOk result (λ all. (globals : ℕ) → (T : Key → PlainType) → map plain_type types.now ≡ map T keys.now →
        map (plain_global globals) all.items ≡ map (λ key. global_for (T key) key (held globals bodies.old key)) keys.now) }
{
    let mut all = Vec::with_capacity(alloc, keys.len())?;
    for i in 0..keys.len() {
        all.push(global_under(alloc, bodies, &keys[i], &types[i])?)?;
    }
    Ok(all)
}
