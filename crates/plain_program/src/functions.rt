//! The functions of a core program.
ghost use Rattle.std.specs.Prelude.{◌≡◌, ℕ, false, Option, None, is_some, if◌then◌else◌, IfOk, option_map, map};
ghost use Rattle.core_meaning.specs.Linking as spec;
ghost use Rattle.core_meaning.specs.UnitNames.{Body};
ghost use Rattle.core_meaning.specs.Linking.{same_linked, parts_of_body, function_of_body};
ghost use Rattle.core_meaning.specs.Plain.{plain_function};
ghost use Rattle.plain_link.specs.PlainDefinitions.{plain_body};
ghost use Rattle.plain_numbers.specs.declared.places.Linked.{Linked as Key};
ghost use Rattle.plain_numbers.specs.PlainLinked.{plain_linked};
ghost use Rattle.plain_program.specs.Bodies.{held};
ghost use Rattle.plain_program.specs.Functions.{plain_definition, definition_of, function_for, IsApart, AreApart};

use cond_formula::NoMemory;
use core_meaning::{BuiltIn, Definition, Function};
use plain_link::{Definite, built_in_named};
use plain_numbers::Linked;
use std::alloc::Global;
use std::collections::HashMap;

/// Takes the body under a key out of the map.
pub fn taken(bodies: &mut HashMap<Linked, Definite>, key: &Linked) -> Option<Definite>
    ensures value { (globals : ℕ) → option_map (plain_body globals) result ≡ held globals bodies.old key.now }
    ensures others { (globals : ℕ) → (other : Key) → held globals bodies.new other
        ≡ (if same_linked (plain_linked key.now) (plain_linked other) then None else held globals bodies.old other) }
{
    bodies.remove(key)
}

fn is_function(bodies: &HashMap<Linked, Definite>, key: &Linked) -> bool
    ensures { (globals : ℕ) → result ≡ is_some (definition_of (held globals bodies.now key.now)) }
{
    match bodies.get(key) {
        None => false,
        Some(body) => match body {
            Definite::Function(_) => true,
            Definite::Object(_) => false,
            Definite::Tentative => false,
        },
    }
}

fn definition_in(body: Option<Definite>) -> Option<Definition>
    ensures { (globals : ℕ) → option_map plain_definition result ≡ definition_of (option_map (plain_body globals) body) }
{
    match body {
        None => None,
        Some(Definite::Function(definition)) => Some(definition),
        Some(Definite::Object(_)) => None,
        Some(Definite::Tentative) => None,
    }
}

/// Takes the definition of a function out of the map, if one is under the key.
fn take_definition(bodies: &mut HashMap<Linked, Definite>, key: &Linked) -> Option<Definition>
    ensures value { (globals : ℕ) → option_map plain_definition result ≡ definition_of (held globals bodies.old key.now) }
    ensures others { (globals : ℕ) → (other : Key) → same_linked (plain_linked key.now) (plain_linked other) ≡ false →
        held globals bodies.new other ≡ held globals bodies.old other }
    ensures objects { (globals : ℕ) → (other : Key) → parts_of_body (held globals bodies.new other) ≡ parts_of_body (held globals bodies.old other) }
{
    if !is_function(bodies, key) {
        return None;
    }
    let body = taken(bodies, key);
    definition_in(body)
}

fn built_in_or_exit(name: &[u8]) -> BuiltIn
    ensures { result ≡ spec.built_in_or_exit (spec.built_in_named name.now) }
{
    match built_in_named(name) {
        Some(found) => found,
        None => BuiltIn::Exit,
    }
}

fn defined_or_exit(definition: Option<Definition>) -> Function
    ensures { (body : Option Body) → option_map plain_definition definition ≡ definition_of body → plain_function result ≡ function_of_body body }
{
    match definition {
        Some(definition) => Function::Defined(definition),
        None => Function::BuiltIn(BuiltIn::Exit),
    }
}

/// The function under a key: that of the unit with this number, or else one that is built in.
fn function_under(bodies: &mut HashMap<Linked, Definite>, key: &Linked) -> Function
    ensures function { (globals : ℕ) → plain_function result ≡ function_for key.now (held globals bodies.old key.now) }
    ensures others { (globals : ℕ) → (other : Key) → IsApart key.now other → held globals bodies.new other ≡ held globals bodies.old other }
    ensures objects { (globals : ℕ) → (other : Key) → parts_of_body (held globals bodies.new other) ≡ parts_of_body (held globals bodies.old other) }
{
    match key.unit {
        None => Function::BuiltIn(built_in_or_exit(key.name.as_slice())),
        Some(_) => {
            let definition = take_definition(bodies, key);
            defined_or_exit(definition)
        }
    }
}

/// The functions under keys.
pub fn functions_of(
    alloc: Global,
    bodies: &mut HashMap<Linked, Definite>,
    keys: &[Linked],
) -> Result<Vec<Function>, NoMemory>
    requires { AreApart keys.now }
    ensures functions { IfOk result (λ functions. (globals : ℕ) →
        map plain_function functions.items ≡ map (λ key. function_for key (held globals bodies.old key)) keys.now) }
    ensures objects { IfOk result (λ functions. (globals : ℕ) → (other : Key) →
        parts_of_body (held globals bodies.new other) ≡ parts_of_body (held globals bodies.old other)) }
{
    let mut functions = Vec::with_capacity(alloc, keys.len())?;
    for key in keys {
        functions.push(function_under(bodies, key))?;
    }
    Ok(functions)
}
