//! The bodies of definitions.
ghost use Rattle.std.specs.Prelude.{◌≡◌, ℕ, IfOk, OnOk, map};
ghost use Rattle.core_meaning.specs.Entities.{or_else};
ghost use Rattle.plain_link.specs.PlainDefinitions.{plain_defined};
ghost use Rattle.plain_link.specs.PlainUnits.{plain_unit};
ghost use Rattle.plain_numbers.specs.declared.places.Linked.{Linked as Key};
ghost use Rattle.plain_program.specs.Bodies.{held, one_for, whole_for, body_for};

use cond_formula::NoMemory;
use plain_link::{Defined, Definite, Left};
use plain_numbers::Linked;
use std::alloc::Global;
use std::collections::HashMap;

/// Puts the body of a definition that isn't tentative, before those of later ones.
fn put_body(
    bodies: &mut HashMap<Linked, Definite>,
    index: usize,
    defined: Defined,
) -> Result<(), NoMemory>
    ensures { OnOk result ((globals : ℕ) → (key : Key) → held globals bodies.new key
        ≡ or_else (one_for index (plain_defined globals defined) key) (held globals bodies.old key)) }
{
    let Defined { name, body } = defined;
    if body.is_tentative() {
        return Ok(());
    }
    let key = Linked {
        name,
        unit: Some(index),
    };
    bodies.insert(key, body)?;
    Ok(())
}

/// Puts the bodies of a unit's definitions, of each name the first.
fn put_bodies(
    bodies: &mut HashMap<Linked, Definite>,
    index: usize,
    definitions: Vec<Defined>,
) -> Result<(), NoMemory>
    ensures { OnOk result ((globals : ℕ) → (key : Key) → held globals bodies.new key
        ≡ or_else (whole_for index (map (plain_defined globals) definitions.items) key) (held globals bodies.old key)) }
{
    let mut rest = definitions;
    while let Some(defined) = rest.pop() {
        put_body(bodies, index, defined)?;
    }
    Ok(())
}

/// The bodies that units give names.
pub fn bodies_of(alloc: Global, units: Vec<Left>) -> Result<HashMap<Linked, Definite>, NoMemory>
    ensures { IfOk result (λ bodies. (globals : ℕ) → (key : Key) → held globals bodies key ≡ body_for (map (plain_unit globals) units.items) key) }
{
    let mut bodies = HashMap::new(alloc);
    let mut rest = units;
    while let Some(unit) = rest.pop() {
        put_bodies(&mut bodies, rest.len(), unit.defined.into_list())?;
    }
    Ok(bodies)
}
