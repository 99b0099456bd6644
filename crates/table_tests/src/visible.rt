use crate::fixtures::{
    A, A_AND_B, B, NONE, is_of, operand_at, pointer_to, tables, value_at, where_b,
};
use c_types::CType;
use cond_formula::{NoMemory, PlainOracle};
use cond_nodes::{Callee, Knowledge};
use cond_operands::Operands;
use conditional::{Guarded, Outcomes};
use known_tables::Visible;
use operand_rules::{Category, OperandType};
use std::alloc::Global;
use std::test::Fail;
use type_tables::Tables;

fn object(alloc: Global, tables: &Tables, name: &[u8]) -> Result<Operands, NoMemory> {
    Visible { tables }.object(alloc, name)
}

#[test]
fn a_name_is_what_it_was_declared_as_first(rt: HostRuntime) -> Result<(), Fail> {
    let alloc = rt.alloc();
    let tables = tables(alloc)?;
    let x = object(alloc, &tables, b"x")?;
    assert!(rt; is_of(operand_at(&x, A), &CType::Int));
    assert!(rt; is_of(operand_at(&x, NONE), &CType::Long));
    let f = object(alloc, &tables, b"f")?;
    assert!(rt; operand_at(&f, NONE).is_none());
    Ok(())
}

#[test]
fn a_local_hides_what_is_outside_where_it_is_there(rt: HostRuntime) -> Result<(), Fail> {
    let alloc = rt.alloc();
    let mut tables = tables(alloc)?;
    tables.enter()?;
    let ty = pointer_to(alloc, CType::Int)?;
    tables.declare_local(alloc, b"x", where_b(), ty)?;
    tables.declare_local(alloc, b"f", where_b(), CType::Int)?;
    let x = object(alloc, &tables, b"x")?;
    assert!(rt; is_of(operand_at(&x, A_AND_B), &pointer_to(alloc, CType::Int)?));
    assert!(rt; is_of(operand_at(&x, A), &CType::Int));
    let f = Visible { tables: &tables }.callee(alloc, b"f")?;
    assert!(rt; value_at(&f, B).is_none());
    assert!(rt; value_at(&f, NONE).is_some());
    Ok(())
}

#[test]
fn a_member_is_the_one_that_is_there(rt: HostRuntime) -> Result<(), Fail> {
    let alloc = rt.alloc();
    let tables = tables(alloc)?;
    let m = Visible { tables: &tables }.member(alloc, 0, b"m")?;
    assert!(rt; is_of(value_at(&m, A_AND_B), &CType::Char));
    assert!(rt; is_of(value_at(&m, A), &CType::Int));
    Ok(())
}

/// A number in each configuration.
fn number(alloc: Global) -> Result<Vec<Guarded<Operands>>, NoMemory> {
    let what = Outcomes::one(
        alloc,
        OperandType {
            ty: CType::Int,
            category: Category::Value,
            is_null: false,
            has_complete_struct: true,
        },
    )?;
    let mut all = Vec::with_capacity(alloc, 1)?;
    all.push(Guarded {
        when: cond_formula::Formula::True,
        what,
    })?;
    Ok(all)
}

#[test]
fn there_are_as_many_arguments_as_parameters(rt: HostRuntime) -> Result<(), Fail> {
    let alloc = rt.alloc();
    let tables = tables(alloc)?;
    let visible = Visible { tables: &tables };
    let callee = Callee { number: 0 };
    let result = visible.called(alloc, &mut PlainOracle, callee, &number(alloc)?)?;
    assert!(rt; is_of(operand_at(&result, NONE), &CType::Int));
    assert!(rt; operand_at(&result, A).is_none());
    Ok(())
}
