//! Values of a run (6.2.5), and the paths that lead into objects.

ghost use Rattle.std.specs.Prelude.{◌≡◌, IfOk, []};
ghost use Rattle.core_meaning.specs.Values as plain;
ghost use Rattle.core_meaning.specs.Plain.{path_from};
ghost use Rattle.core_cells.specs.Forms.{plain_step, plain_path, plain_location, plain_pointer, plain_scalar, plain_value};

use crate::cells::Cells;
use cond_formula::NoMemory;
use std::alloc::Global;

/// From an array or a struct to an element or member; or to the place behind what is no element.
#[derive(Clone, Copy)]
pub enum Step {
    Part(u32),
    Behind,
}

/// An object, by its number, and the steps from there to a part of it, from the outside in.
#[derive(Drop)]
pub struct Location {
    pub object: usize,
    pub path: Vec<Step>,
}

#[derive(Drop)]
pub enum Pointer {
    Null,
    At(Location),
}

#[derive(Drop)]
pub enum Scalar {
    Number(i128),
    Pointer(Pointer),
}

/// What an expression gives.
#[derive(Drop)]
pub enum Value<'a> {
    /// Nothing, as a call that ends without a value does.
    Nothing,
    Scalar(Scalar),
    /// A struct.
    Whole(Cells<'a>),
}

/// Whether a condition holds (6.8.4.1).
pub fn is_true(scalar: &Scalar) -> bool
    ensures { result ≡ plain.is_true (plain_scalar scalar.now) }
{
    match scalar {
        Scalar::Number(number) => *number != 0,
        Scalar::Pointer(Pointer::Null) => false,
        Scalar::Pointer(Pointer::At(_)) => true,
    }
}

impl Location {
    /// The same place once more.
    pub fn copy(&self, alloc: Global) -> Result<Location, NoMemory>
        ensures { IfOk result (λ copy. plain_location copy ≡ plain_location self.now) }
    {
        Ok(Location {
            object: self.object,
            path: Vec::from_slice(alloc, &self.path)?,
        })
    }
}

impl Pointer {
    /// The same pointer once more.
    pub fn copy(&self, alloc: Global) -> Result<Pointer, NoMemory>
        ensures { IfOk result (λ copy. plain_pointer copy ≡ plain_pointer self.now) }
    {
        match self {
            Pointer::Null => Ok(Pointer::Null),
            Pointer::At(location) => Ok(Pointer::At(location.copy(alloc)?)),
        }
    }
}

impl Scalar {
    /// The same scalar once more.
    pub fn copy(&self, alloc: Global) -> Result<Scalar, NoMemory>
        ensures { IfOk result (λ copy. plain_scalar copy ≡ plain_scalar self.now) }
    {
        match self {
            Scalar::Number(number) => Ok(Scalar::Number(*number)),
            Scalar::Pointer(pointer) => Ok(Scalar::Pointer(pointer.copy(alloc)?)),
        }
    }
}

impl<'a> Value<'a> {
    /// The same value once more; a struct by its cells.
    pub fn copy(&self, alloc: Global) -> Result<Value<'a>, NoMemory>
        ensures { IfOk result (λ copy. plain_value copy ≡ plain_value self.now) }
    {
        match self {
            Value::Nothing => Ok(Value::Nothing),
            Value::Scalar(scalar) => Ok(Value::Scalar(scalar.copy(alloc)?)),
            Value::Whole(cells) => Ok(Value::Whole(cells.copy(alloc)?)),
        }
    }
}

/// The path that leads to the parts with these numbers, from the outside in.
pub fn path_of(alloc: Global, numbers: &[u32]) -> Result<Vec<Step>, NoMemory>
    ensures { IfOk result (λ path. plain_path path.items ≡ path_from numbers.now) }
{
    let mut path = Vec::new(alloc);
    for number in numbers {
        path.push(Step::Part(*number))?;
    }
    Ok(path)
}

/// Whether two pointers compare equal (6.5.9).
pub fn is_same_pointer(a: &Pointer, b: &Pointer) -> bool
    ensures { result ≡ plain.same_pointer (plain_pointer a.now) (plain_pointer b.now) }
{
    match a {
        Pointer::Null => is_null(b),
        Pointer::At(location) => leads_to(b, location),
    }
}

fn is_null(pointer: &Pointer) -> bool
    ensures { result ≡ plain.same_pointer plain.null (plain_pointer pointer.now) }
{
    match pointer {
        Pointer::Null => true,
        Pointer::At(_) => false,
    }
}

fn leads_to(pointer: &Pointer, location: &Location) -> bool
    ensures { result ≡ plain.same_pointer (plain_location location.now) (plain_pointer pointer.now) }
{
    match pointer {
        Pointer::Null => false,
        Pointer::At(other) => {
            location.object == other.object && is_same_path(&location.path, &other.path)
        }
    }
}

#[tactic(auto, using(crate::specs::PartLaws::part_steps))]
pub fn is_same_path(a: &[Step], b: &[Step]) -> bool
    ensures { result ≡ plain.same_path (plain_path a.now) (plain_path b.now) }
{
    match a.split_last() {
        None => is_empty(b),
        Some((last, outer)) => match b.split_last() {
            None => false,
            Some((other, rest)) => is_same_step(*last, *other) && is_same_path(outer, rest),
        },
    }
}

#[tactic(auto, using(crate::specs::PartLaws::part_steps))]
fn is_empty(path: &[Step]) -> bool
    ensures { result ≡ plain.same_path (plain_path []) (plain_path path.now) }
{
    match path.split_last() {
        None => true,
        Some(_) => false,
    }
}

fn is_same_step(a: Step, b: Step) -> bool
    ensures { result ≡ plain.same_step (plain_step a) (plain_step b) }
{
    match a {
        Step::Part(number) => is_part(b, number),
        Step::Behind => is_behind(b),
    }
}

fn is_part(step: Step, number: u32) -> bool
    ensures { result ≡ plain.same_step (plain.part number) (plain_step step) }
{
    match step {
        Step::Part(other) => number == other,
        Step::Behind => false,
    }
}

fn is_behind(step: Step) -> bool
    ensures { result ≡ plain.same_step plain.behind (plain_step step) }
{
    match step {
        Step::Part(_) => false,
        Step::Behind => true,
    }
}
