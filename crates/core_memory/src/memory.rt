//! The objects of a run (6.2.4): how they are made, read and written, and how they end.

ghost use Rattle.std.specs.Prelude.{◌≡◌, IfOk, OnOk, true, [], map, option_map, Some, None, if◌then◌else◌};
ghost use Rattle.c_types.specs.Types.{plain_type};
ghost use Rattle.core_meaning.specs.Plain.{plain_layout};
ghost use Rattle.core_meaning.specs.Values as plain;
ghost use Rattle.core_meaning.specs.Memory as spec;
ghost use Rattle.core_cells.specs.Forms.{plain_path, plain_steps, plain_location, plain_pointer, plain_scalar, plain_value, inner_cells};
ghost use Rattle.core_cells.specs.CellForms.{only_parts};
ghost use Rattle.core_meaning.specs.Run.{memory_of};
ghost use Rattle.core_memory.specs.MemoryForms.{plain_object, plain_memory, structs_of, ended, with_placed, with_written, object_value, object_with};

use c_types::CType;
use cond_formula::NoMemory;
use core_cells::{Cells, Location, Pointer, Scalar, Step, Value, is_inside, is_scalar, type_at};
use core_meaning::Layout;
use std::alloc::Global;
use std::mem;

#[derive(Drop)]
pub struct Object<'a> {
    pub ty: &'a CType,
    /// It hasn't ended.
    pub lives: bool,
    /// It isn't the array of a text.
    pub writable: bool,
    pub cells: Cells<'a>,
}

/// The objects that a run has made, in the order of their making. One that has ended keeps its number, and holds nothing.
#[derive(Drop)]
pub struct Memory<'a> {
    /// The structs that the types of the objects name.
    pub structs: &'a [Layout],
    pub objects: Vec<Object<'a>>,
}

impl<'a> Object<'a> {
    /// An object that nothing is written to.
    pub fn fresh(alloc: Global, ty: &'a CType) -> Object<'a>
        ensures { plain_object result ≡ spec.fresh (plain_type ty.now) spec.unwritten }
    {
        Object {
            ty,
            lives: true,
            writable: true,
            cells: Cells::unwritten(alloc),
        }
    }

    fn end(&mut self, alloc: Global)
        ensures { plain_object self.new ≡ ended (plain_object self.old) }
    {
        self.lives = false;
        self.cells = Cells::unwritten(alloc);
    }

    fn is_there(&self, structs: &[Layout], path: &[Step]) -> bool
        ensures { result ≡ spec.is_there (map plain_layout structs.now) (plain_object self.now) (plain_path path.now) }
    {
        self.lives && is_inside(structs, self.ty, path)
    }

    fn read(
        &self,
        alloc: Global,
        structs: &[Layout],
        path: &[Step],
    ) -> Result<Option<Value<'a>>, NoMemory>
        ensures { IfOk result (λ v. option_map plain_value v ≡ object_value (map plain_layout structs.now) (plain_object self.now) (plain_path path.now)) }
    {
        if !self.is_there(structs, path) {
            return Ok(None);
        }
        let scalar = is_scalar(type_at(structs, self.ty, path));
        let value = self.value(alloc, scalar, path)?;
        Ok(value)
    }

    fn value(
        &self,
        alloc: Global,
        scalar: bool,
        path: &[Step],
    ) -> Result<Option<Value<'a>>, NoMemory>
        ensures { IfOk result (λ v. option_map plain_value v ≡ spec.value_in scalar (plain_object self.now).cells (plain_path path.now)) }
    {
        if scalar {
            let scalar = self.cells.scalar_at(alloc, path)?;
            Ok(scalar_value(scalar))
        } else {
            Ok(Some(Value::Whole(self.cells.copy_at(alloc, path)?)))
        }
    }

    fn write(
        &mut self,
        alloc: Global,
        structs: &[Layout],
        path: &[Step],
        value: Value<'a>,
    ) -> Result<bool, NoMemory>
        ensures { IfOk result (λ done. object_with (map plain_layout structs.now) (plain_object self.old) (plain_path path.now) (plain_value value.entry) ≡ (if done then Some (plain_object self.new) else None)) }
    {
        if !self.is_there(structs, path) || !self.writable {
            return Ok(false);
        }
        let done = self.put(alloc, path, value)?;
        Ok(done)
    }

    fn put(&mut self, alloc: Global, path: &[Step], value: Value<'a>) -> Result<bool, NoMemory>
        requires { only_parts (plain_steps path.now) ≡ true }
        ensures { IfOk result (λ done. with_written (plain_object self.old) (plain_path path.now) (plain_value value.entry) ≡ (if done then Some (plain_object self.new) else None)) }
    {
        match value {
            Value::Nothing => Ok(false),
            Value::Scalar(scalar) => {
                self.replace(alloc, path, Value::Scalar(scalar))?;
                Ok(true)
            }
            Value::Whole(cells) => {
                self.replace(alloc, path, Value::Whole(cells))?;
                Ok(true)
            }
        }
    }

    fn replace(&mut self, alloc: Global, path: &[Step], value: Value<'a>) -> Result<(), NoMemory>
        ensures { OnOk result (plain_object self.new ≡ with_placed (plain_object self.old) (plain_steps path.now) (plain_value value.entry) (inner_cells self.old.cells)) }
    {
        let cells = mem::replace(&mut self.cells, Cells::unwritten(alloc));
        self.cells = cells.written(alloc, path, value)?;
        Ok(())
    }
}

fn scalar_value<'a>(scalar: Option<Scalar>) -> Option<Value<'a>>
    ensures { option_map plain_value result ≡ option_map plain.scalar (option_map plain_scalar scalar) }
{
    match scalar {
        None => None,
        Some(scalar) => Some(Value::Scalar(scalar)),
    }
}

impl<'a> Memory<'a> {
    /// Memory without objects.
    pub fn new(alloc: Global, structs: &'a [Layout]) -> Memory<'a>
        ensures objects { plain_memory result ≡ memory_of [] }
        ensures structs { structs_of result ≡ map plain_layout structs.now }
    {
        Memory {
            structs,
            objects: Vec::new(alloc),
        }
    }

    /// Adds an object, and gives its number.
    pub fn add(&mut self, object: Object<'a>) -> Result<usize, NoMemory>
        ensures number { IfOk result (λ k. k ≡ (plain_memory self.old).made) }
        ensures added { OnOk result (plain_memory self.new ≡ spec.with_new (plain_memory self.old) (plain_object object.entry)) }
        ensures structs { structs_of self.new ≡ structs_of self.old }
    {
        let number = self.objects.len();
        self.objects.push(object)?;
        Ok(number)
    }

    /// Makes an object that nothing is written to, and gives its number.
    pub fn make(&mut self, alloc: Global, ty: &'a CType) -> Result<usize, NoMemory>
        ensures number { IfOk result (λ k. k ≡ (plain_memory self.old).made) }
        ensures made { OnOk result (plain_memory self.new ≡ spec.with_new (plain_memory self.old) (spec.fresh (plain_type ty.now) spec.unwritten)) }
        ensures structs { structs_of self.new ≡ structs_of self.old }
    {
        let number = self.add(Object::fresh(alloc, ty))?;
        Ok(number)
    }

    /// Ends the life of an object; where there is none with this number, nothing changes.
    pub fn end(&mut self, alloc: Global, number: usize)
        ensures ended { plain_memory self.new ≡ spec.with_ended (plain_memory self.old) number }
        ensures structs { structs_of self.new ≡ structs_of self.old }
    {
        if number < self.objects.len() {
            self.objects[number].end(alloc);
        }
    }

    /// Whether the object with this number lives.
    pub fn lives(&self, number: usize) -> bool
        ensures { result ≡ ((plain_memory self.now).object number).lives }
    {
        match self.objects.get(number) {
            None => false,
            Some(object) => object.lives,
        }
    }

    /// What stands at a pointer; None where reading it is undefined (6.3.2.1).
    pub fn read(&self, alloc: Global, pointer: &Pointer) -> Result<Option<Value<'a>>, NoMemory>
        ensures { IfOk result (λ v. option_map plain_value v ≡ spec.value_at (structs_of self.now) (plain_memory self.now) (plain_pointer pointer.now)) }
    {
        match pointer {
            Pointer::Null => Ok(None),
            Pointer::At(location) => {
                let value = self.read_at(alloc, location)?;
                Ok(value)
            }
        }
    }

    fn read_at(&self, alloc: Global, location: &Location) -> Result<Option<Value<'a>>, NoMemory>
        ensures { IfOk result (λ v. option_map plain_value v ≡ spec.value_at (structs_of self.now) (plain_memory self.now) (plain_location location.now)) }
    {
        match self.objects.get(location.object) {
            None => Ok(None),
            Some(object) => {
                let value = object.read(alloc, self.structs, &location.path)?;
                Ok(value)
            }
        }
    }

    /// Writes a value at a pointer; false where that is undefined (6.5.16).
    pub fn write(
        &mut self,
        alloc: Global,
        pointer: &Pointer,
        value: Value<'a>,
    ) -> Result<bool, NoMemory>
        ensures written { IfOk result (λ done. spec.written_at (structs_of self.old) (plain_memory self.old) (plain_pointer pointer.now) (plain_value value.entry) ≡ (if done then Some (plain_memory self.new) else None)) }
        ensures structs { structs_of self.new ≡ structs_of self.old }
    {
        match pointer {
            Pointer::Null => Ok(false),
            Pointer::At(location) => {
                let done = self.write_at(alloc, location, value)?;
                Ok(done)
            }
        }
    }

    fn write_at(
        &mut self,
        alloc: Global,
        location: &Location,
        value: Value<'a>,
    ) -> Result<bool, NoMemory>
        ensures written { IfOk result (λ done. spec.written_at (structs_of self.old) (plain_memory self.old) (plain_location location.now) (plain_value value.entry) ≡ (if done then Some (plain_memory self.new) else None)) }
        ensures structs { structs_of self.new ≡ structs_of self.old }
    {
        let number = location.object;
        if number >= self.objects.len() {
            return Ok(false);
        }
        let structs = self.structs;
        let done = self.objects[number].write(alloc, structs, &location.path, value)?;
        Ok(done)
    }
}
