//! What the scalars of an object hold. Only what has been written has a place of its own, so that making an object takes no time
//! that depends on its size.

ghost use Rattle.std.specs.Prelude.{◌≡◌, IfOk, OnOk, Option, [], ◌<◌, map, option_map, vec_len};
ghost use Rattle.core_meaning.specs.Values as plain;
ghost use Rattle.core_cells.specs.Forms.{inner_cells, node_cells, nothing_in, zeros_of, rest_in, rest_cells, plain_scalar, plain_cells, plain_path, plain_step, plain_steps, plain_value};
ghost use Rattle.core_cells.specs.CellForms.{cells_at, held_cells, behind_step, below, with_held, with_part, with_value, placed};

use crate::parts::{part_count, part_type, zero};
use crate::values::{Scalar, Step, Value};
use c_types::CType;
use cond_formula::NoMemory;
use core_meaning::Layout;
use std::alloc::Global;
use std::mem;

/// A type by which scalars are zeros, with the structs that it names.
#[derive(Clone, Copy)]
pub struct Zeros<'a> {
    pub structs: &'a [Layout],
    pub ty: &'a CType,
}

/// What a scalar holds, if it is written; the cells of the parts of an array or a struct, up to the last one that has been
/// written to; and the type by which the scalars of the other parts are zeros, if they aren't unwritten.
#[derive(Drop)]
pub struct Cells<'a> {
    held: Option<Scalar>,
    parts: Vec<Cells<'a>>,
    rest: Option<Zeros<'a>>,
}

/// What is held at a path.
#[derive(Drop)]
pub enum Held<'a, 'b> {
    /// What nothing is written to: zeros by a type, or no scalars.
    Rest(Option<Zeros<'a>>),
    Cells(&'b Cells<'a>),
}

impl<'a> Cells<'a> {
    /// The cells of what nothing is written to: zeros by a type, or no scalars.
    pub fn untouched(alloc: Global, rest: Option<Zeros<'a>>) -> Cells<'a>
        ensures { inner_cells result ≡ rest_in rest.entry }
    {
        match rest {
            None => Cells::unwritten(alloc),
            Some(zeros) => Cells::zeros(alloc, zeros),
        }
    }

    /// The cells of what holds no scalar.
    pub fn unwritten(alloc: Global) -> Cells<'a>
        ensures { inner_cells result ≡ nothing_in }
    {
        Cells {
            held: None,
            parts: Vec::new(alloc),
            rest: None,
        }
    }

    /// The cells of what holds a zero in each scalar (6.7.9).
    pub fn zeros(alloc: Global, zeros: Zeros<'a>) -> Cells<'a>
        ensures { inner_cells result ≡ zeros_of zeros.entry }
    {
        Cells {
            held: zero(zeros.ty),
            parts: Vec::new(alloc),
            rest: Some(zeros),
        }
    }

    /// The same cells once more.
    pub fn copy(&self, alloc: Global) -> Result<Cells<'a>, NoMemory>
        ensures { IfOk result (λ copy. inner_cells copy ≡ inner_cells self.now) }
    {
        let mut parts = Vec::new(alloc);
        for part in &self.parts {
            parts.push(part.copy(alloc)?)?;
        }
        let held = copy_held(alloc, &self.held)?;
        Ok(Cells {
            held,
            parts,
            rest: self.rest,
        })
    }
}

fn copy_held(alloc: Global, held: &Option<Scalar>) -> Result<Option<Scalar>, NoMemory>
    ensures { IfOk result (λ copy. option_map plain_scalar copy ≡ option_map plain_scalar held.now) }
{
    match held {
        None => Ok(None),
        Some(scalar) => Ok(Some(scalar.copy(alloc)?)),
    }
}

impl<'a> Cells<'a> {
    /// What is held below the steps of a path.
    pub fn at<'b>(&'b self, path: &[Step]) -> Held<'a, 'b>
        ensures { held_cells result ≡ below (plain_steps path.now) (inner_cells self.now) }
    {
        held_at(Held::Cells(self), path)
    }
}

impl<'a> Cells<'a> {
    /// What the scalar at a path holds, if it is written.
    pub fn scalar_at(&self, alloc: Global, path: &[Step]) -> Result<Option<Scalar>, NoMemory>
        ensures { IfOk result (λ v. option_map plain_scalar v ≡ plain_cells self.now (plain_path path.now)) }
    {
        let scalar = held_scalar(alloc, self.at(path))?;
        Ok(scalar)
    }

    /// The cells of what is at a path, once more.
    pub fn copy_at(&self, alloc: Global, path: &[Step]) -> Result<Cells<'a>, NoMemory>
        ensures { IfOk result (λ copy. plain_value (Value.Whole copy) ≡ plain.whole (cells_at (plain_cells self.now) (plain_path path.now))) }
    {
        let cells = held_copy(alloc, self.at(path))?;
        Ok(cells)
    }

    fn scalar(&self, alloc: Global) -> Result<Option<Scalar>, NoMemory>
        ensures { IfOk result (λ v. option_map plain_scalar v ≡ inner_cells self.now []) }
    {
        let scalar = copy_held(alloc, &self.held)?;
        Ok(scalar)
    }
}

fn held_scalar<'a, 'b>(alloc: Global, held: Held<'a, 'b>) -> Result<Option<Scalar>, NoMemory>
    ensures { IfOk result (λ v. option_map plain_scalar v ≡ held_cells held.entry []) }
{
    match held {
        Held::Rest(rest) => Ok(rest_scalar(rest)),
        Held::Cells(cells) => {
            let scalar = cells.scalar(alloc)?;
            Ok(scalar)
        }
    }
}

fn rest_scalar<'a>(rest: Option<Zeros<'a>>) -> Option<Scalar>
    ensures { option_map plain_scalar result ≡ rest_in rest.entry [] }
{
    match rest {
        None => None,
        Some(zeros) => zero(zeros.ty),
    }
}

fn held_copy<'a, 'b>(alloc: Global, held: Held<'a, 'b>) -> Result<Cells<'a>, NoMemory>
    ensures { IfOk result (λ copy. inner_cells copy ≡ held_cells held.entry) }
{
    match held {
        Held::Rest(rest) => Ok(Cells::untouched(alloc, rest)),
        Held::Cells(cells) => {
            let copy = cells.copy(alloc)?;
            Ok(copy)
        }
    }
}

fn held_at<'a, 'b>(held: Held<'a, 'b>, path: &[Step]) -> Held<'a, 'b>
    ensures { held_cells result ≡ below (plain_steps path.now) (held_cells held.entry) }
{
    match path.split_first() {
        None => held,
        Some((step, inner)) => held_at(behind(held, *step), inner),
    }
}

/// What is held behind one more step.
fn behind<'a, 'b>(held: Held<'a, 'b>, step: Step) -> Held<'a, 'b>
    ensures { held_cells result ≡ behind_step (plain_step step) (held_cells held.entry) }
{
    match step {
        Step::Behind => behind_object(held),
        Step::Part(number) => part_of(held, number),
    }
}

/// Nothing is behind what is held.
fn behind_object<'a, 'b>(held: Held<'a, 'b>) -> Held<'a, 'b>
    ensures { held_cells result ≡ behind_step plain.behind (held_cells held.entry) }
{
    match held {
        Held::Rest(_) => Held::Rest(None),
        Held::Cells(_) => Held::Rest(None),
    }
}

fn part_of<'a, 'b>(held: Held<'a, 'b>, number: u32) -> Held<'a, 'b>
    ensures { held_cells result ≡ behind_step (plain.part number) (held_cells held.entry) }
{
    match held {
        Held::Rest(rest) => Held::Rest(rest_of_part(rest, number)),
        Held::Cells(cells) => part_of_cells(cells, number),
    }
}

fn part_of_cells<'a, 'b>(cells: &'b Cells<'a>, number: u32) -> Held<'a, 'b>
    ensures { held_cells result ≡ behind_step (plain.part number) (inner_cells cells.now) }
{
    match cells.parts.get(number as usize) {
        Some(part) => Held::Cells(part),
        None => Held::Rest(rest_of_part(cells.rest, number)),
    }
}

fn rest_of_part<'a>(rest: Option<Zeros<'a>>, number: u32) -> Option<Zeros<'a>>
    ensures { rest_in result ≡ rest_cells rest.entry number }
{
    match rest {
        None => None,
        Some(zeros) => zeros_of_part(zeros, number),
    }
}

#[tactic(auto, using(crate::proofs::CellLemmas::zero_parts))]
fn zeros_of_part<'a>(zeros: Zeros<'a>, number: u32) -> Option<Zeros<'a>>
    ensures { rest_in result ≡ behind_step (plain.part number) (zeros_of zeros.entry) }
{
    if number as usize >= part_count(zeros.structs, zeros.ty) {
        return None;
    }
    match part_type(zeros.structs, zeros.ty, number) {
        None => None,
        Some(ty) => Some(Zeros {
            structs: zeros.structs,
            ty,
        }),
    }
}

impl<'a> Cells<'a> {
    /// The cells with a value in the place of what is held below the steps of a path.
    #[cycle(writing)]
    pub fn written(
        self,
        alloc: Global,
        path: &[Step],
        value: Value<'a>,
    ) -> Result<Cells<'a>, NoMemory>
        ensures { IfOk result (λ cells. inner_cells cells ≡ placed (plain_steps path.now) (plain_value value.entry) (inner_cells self.entry)) }
    {
        match path.split_first() {
            None => Ok(self.with_value(value)),
            Some((Step::Behind, _)) => Ok(self),
            Some((Step::Part(number), inner)) => {
                let cells = self.part_written(alloc, *number, inner, value)?;
                Ok(cells)
            }
        }
    }

    #[cycle(writing)]
    fn part_written(
        self,
        alloc: Global,
        number: u32,
        inner: &[Step],
        value: Value<'a>,
    ) -> Result<Cells<'a>, NoMemory>
        ensures { IfOk result (λ cells. inner_cells cells ≡ with_part number (placed (plain_steps inner.now) (plain_value value.entry) (behind_step (plain.part number) (inner_cells self.entry))) (inner_cells self.entry)) }
    {
        let Cells {
            held,
            mut parts,
            rest,
        } = self;
        let index = number as usize;
        reach(alloc, &mut parts, rest, number)?;
        let part = mem::replace(&mut parts[index], Cells::unwritten(alloc));
        parts[index] = part.written(alloc, inner, value)?;
        Ok(Cells { held, parts, rest })
    }

    fn with_value(self, value: Value<'a>) -> Cells<'a>
        ensures { inner_cells result ≡ with_value (plain_value value.entry) (inner_cells self.entry) }
    {
        match value {
            Value::Nothing => self,
            Value::Scalar(scalar) => self.with_scalar(scalar),
            Value::Whole(cells) => cells,
        }
    }

    fn with_scalar(self, scalar: Scalar) -> Cells<'a>
        ensures { inner_cells result ≡ with_held (plain_scalar scalar) (inner_cells self.entry) }
    {
        Cells {
            held: Some(scalar),
            parts: self.parts,
            rest: self.rest,
        }
    }
}

/// Adds the parts up to the one with this number, as they are without being written to.
fn reach<'a>(
    alloc: Global,
    parts: &mut Vec<Cells<'a>>,
    rest: Option<Zeros<'a>>,
    number: u32,
) -> Result<(), NoMemory>
    ensures same { (held : Option Scalar) → OnOk result (node_cells held (map inner_cells parts.new.items) rest.entry ≡ node_cells held (map inner_cells parts.old.items) rest.entry) }
    ensures there { OnOk result (number < vec_len parts.new) }
{
    while parts.len() <= number as usize {
        let next = parts.len() as u32;
        parts.push(Cells::untouched(alloc, rest_of_part(rest, next)))?;
    }
    Ok(())
}
