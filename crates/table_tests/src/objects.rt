ghost use Rattle.c_tree.specs.Trees.{none};

use crate::fixtures::{A, NONE, tables, where_a};
use crate::items::{around, leaf};
use c_text::TokenKind;
use c_tree::Kind;
use c_types::CType;
use cond_formula::{Config, Formula, NoMemory, PlainOracle};
use cond_units::{Behind, ObjectDeclaration, UnitTables, declare_object};
use conditional::{CondList, Outcomes};
use name_declarations::where_no_such_function;
use plain_objects::Storage;
use std::alloc::Global;
use std::test::Fail;
use type_tables::DeclaredType;

/// The last declaration of a unit.
#[derive(Clone, Copy)]
struct NothingBehind;

impl Behind for NothingBehind {
    ghost rest = { λ self c. none };

    #[tactic(auto, using(cond_formula::specs::ConditionLaws::formula_kinds))]
    fn where_completed(&self, _alloc: Global, _tag: &[u8]) -> Result<Formula, NoMemory> {
        Ok(Formula::False)
    }
}

/// Declares an object of the type where the condition is true. The answer is where it is refused.
fn declare(
    alloc: Global,
    unit: &mut UnitTables,
    here: &Formula,
    storage: Storage,
    ty: CType,
    name: &str,
) -> Result<Formula, NoMemory> {
    let base = Outcomes::one(alloc, DeclaredType { ty })?;
    let declarator = around(alloc, Kind::Declarator, leaf(alloc, TokenKind::Name, name)?)?;
    let declaration = ObjectDeclaration {
        storage,
        initialiser: None,
        behind: &NothingBehind,
    };
    declare_object(
        alloc,
        &mut PlainOracle,
        unit,
        here,
        &declaration,
        &base,
        &declarator,
    )
}

/// A unit that has declared the names of the tables.
fn unit(alloc: Global) -> Result<UnitTables, NoMemory> {
    let tables = tables(alloc)?;
    let defined = CondList::empty(alloc);
    Ok(UnitTables { tables, defined })
}

#[test]
fn an_object_agrees_with_what_its_name_stands_for(rt: HostRuntime) -> Result<(), Fail> {
    let alloc = rt.alloc();
    let mut unit = unit(alloc)?;
    let everywhere = &Formula::True;
    let again = declare(
        alloc,
        &mut unit,
        everywhere,
        Storage::Absent,
        CType::Int,
        "x",
    )?;
    assert!(rt; !again.value(Config { bits: A }));
    assert!(rt; again.value(Config { bits: NONE }));
    assert!(rt; unit.defined.entries.len() == 1);
    let mere = declare(
        alloc,
        &mut unit,
        &where_a(),
        Storage::Extern,
        CType::Int,
        "x",
    )?;
    assert!(rt; !mere.value(Config { bits: A }));
    assert!(rt; unit.defined.entries.len() == 1);
    let internal = declare(
        alloc,
        &mut unit,
        &where_a(),
        Storage::Static,
        CType::Int,
        "x",
    )?;
    assert!(rt; internal.value(Config { bits: A }));
    assert!(rt; !internal.value(Config { bits: NONE }));
    Ok(())
}

#[test]
fn an_object_is_complete_where_it_is_defined(rt: HostRuntime) -> Result<(), Fail> {
    let alloc = rt.alloc();
    let mut unit = unit(alloc)?;
    let everywhere = &Formula::True;
    let defined = declare(
        alloc,
        &mut unit,
        everywhere,
        Storage::Absent,
        CType::Struct(0),
        "y",
    )?;
    assert!(rt; !defined.value(Config { bits: A }));
    assert!(rt; defined.value(Config { bits: NONE }));
    let mere = declare(
        alloc,
        &mut unit,
        everywhere,
        Storage::Extern,
        CType::Struct(0),
        "z",
    )?;
    assert!(rt; !mere.value(Config { bits: NONE }));
    Ok(())
}

#[test]
fn a_function_is_none_where_an_object_has_its_name(rt: HostRuntime) -> Result<(), Fail> {
    let alloc = rt.alloc();
    let tables = tables(alloc)?;
    let oracle = &mut PlainOracle;
    let everywhere = &Formula::True;
    let same = where_no_such_function(
        alloc,
        oracle,
        &tables,
        everywhere,
        b"f",
        &CType::Int,
        Storage::Absent,
    )?;
    assert!(rt; !same.value(Config { bits: A }));
    let other = where_no_such_function(
        alloc,
        oracle,
        &tables,
        everywhere,
        b"f",
        &CType::Void,
        Storage::Absent,
    )?;
    assert!(rt; other.value(Config { bits: A }));
    let object = where_no_such_function(
        alloc,
        oracle,
        &tables,
        &where_a(),
        b"x",
        &CType::Int,
        Storage::Absent,
    )?;
    assert!(rt; object.value(Config { bits: A }));
    assert!(rt; !object.value(Config { bits: NONE }));
    Ok(())
}
