//! A unit while it is judged, and its definitions of objects (6.9.2).
ghost use Rattle.std.specs.Prelude.{◌≡◌, ℕ, None, Some, map, option_map, OnOk, MatchResult};
ghost use Rattle.core_meaning.specs.Checking.{give};
ghost use Rattle.c_text.specs.Token.{plain_token};
ghost use Rattle.c_types.specs.Types.{plain_type};
ghost use Rattle.c_tree.specs.Trees.{plain_tree};
ghost use Rattle.core_meaning.specs.Plain.{plain_constant, plain_constant_part, path_from};
ghost use Rattle.core_meaning.specs.UnitNames as spec;
ghost use Rattle.plain_scope.specs.PlainScope.{plain_scope};
ghost use Rattle.plain_scope.specs.Judgements.{Judges};
ghost use Rattle.plain_declarations.specs.PlainDeclared.{plain_initial};
ghost use Rattle.plain_link.specs.PlainDefinitions.{plain_body};
ghost use Rattle.plain_objects.specs.PlainStates.{plain_state, plain_storage};
ghost use Rattle.plain_objects.specs.Objects.{part_at, constant_part_of, parts_given};

use crate::firsts::first_scalar;
use crate::names::Storage;
use c_text::Token;
use c_tree::Tree;
use c_types::CType;
use cond_formula::NoMemory;
use core_meaning::{Constant, ConstantPart};
use plain_declarations::{Initial, initialised};
use plain_link::{Defined, Definite};
use plain_scope::{ElabError, Scope, Used};
use std::alloc::Global;

/// A unit up to a place: what is visible there, and what has been defined.
#[derive(Drop)]
pub struct Unit<'a> {
    pub scope: Scope<'a>,
    pub defined: Vec<Defined>,
}

fn with_value(path: Vec<u32>, value: Option<Constant>) -> Option<ConstantPart>
    ensures { (globals : ℕ) → option_map (plain_constant_part globals) result ≡ option_map (λ v. part_at (path_from path.items) v) (option_map (plain_constant globals) value) }
{
    match value {
        Some(value) => Some(ConstantPart { path, value }),
        None => None,
    }
}

fn constant_part(initial: Initial) -> Option<ConstantPart>
    ensures { (globals : ℕ) → option_map (plain_constant_part globals) result ≡ constant_part_of globals (plain_initial initial.entry) }
{
    let Initial {
        path,
        value,
        first: _,
    } = initial;
    with_value(path, first_scalar(&value))
}

fn constant_parts(alloc: Global, found: Vec<Initial>) -> Result<Vec<ConstantPart>, ElabError>
    ensures { MatchResult result (λ parts. (globals : ℕ) → spec.constant_parts globals (map plain_initial found.entry.items) ≡ Some (map (plain_constant_part globals) parts.items)) (λ error. error ≡ ElabError.Memory) }
{
    let mut parts = Vec::new(alloc);
    for initial in found {
        let Some(part) = constant_part(initial) else {
            return Err(ElabError::Memory);
        };
        parts.push(part)?;
    }
    Ok(parts)
}

/// The parts of an object's initialiser.
fn object_parts(
    alloc: Global,
    scope: &Scope,
    used: &mut Used,
    ty: &CType,
    name: &Token,
    initialiser: &Tree,
) -> Result<Vec<ConstantPart>, ElabError>
    ensures { (globals : ℕ) → Judges (parts_given globals (plain_scope scope.now) (plain_type ty.now) (plain_token name.now) (plain_tree initialiser.now)) (λ parts. map (plain_constant_part globals) parts.items) used.old used.new result }
{
    let found = initialised(alloc, scope, used, true, initialiser, ty, &[], name)?;
    constant_parts(alloc, found)
}

/// Defines a name of file scope.
pub fn define(alloc: Global, unit: &mut Unit, name: &Token, body: Definite) -> Result<(), NoMemory>
    ensures { OnOk result ((globals : ℕ) → plain_state globals unit.new ≡ spec.with_defined (plain_state globals unit.old) name.now.text.items (plain_body globals body)) }
{
    let name = Vec::from_slice(alloc, name.text.as_slice())?;
    unit.defined.push(Defined { name, body })?;
    Ok(())
}

/// An object without an initialiser.
pub fn define_tentatively(
    alloc: Global,
    unit: &mut Unit,
    storage: Storage,
    ty: &CType,
    name: &Token,
) -> Result<(), NoMemory>
    ensures { OnOk result ((globals : ℕ) → spec.defined_object globals (plain_state globals unit.old) (plain_storage storage) (plain_type ty.now) (plain_token name.now) None ≡ give (plain_state globals unit.new)) }
{
    match storage {
        Storage::Extern => Ok(()),
        Storage::Static | Storage::Absent => {
            define(alloc, unit, name, Definite::Tentative)?;
            Ok(())
        }
    }
}

/// An object with an initialiser.
pub fn define_initialised(
    alloc: Global,
    unit: &mut Unit,
    used: &mut Used,
    storage: Storage,
    ty: &CType,
    name: &Token,
    initialiser: &Tree,
) -> Result<(), ElabError>
    ensures { (globals : ℕ) → Judges (spec.defined_object globals (plain_state globals unit.old) (plain_storage storage) (plain_type ty.now) (plain_token name.now) (Some (plain_tree initialiser.now))) (λ u. plain_state globals unit.new) used.old used.new result }
{
    let parts = object_parts(alloc, &unit.scope, used, ty, name, initialiser)?;
    define(alloc, unit, name, Definite::Object(parts))?;
    Ok(())
}
