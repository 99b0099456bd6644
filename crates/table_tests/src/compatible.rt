use crate::fixtures::{A, A_AND_B, B, NONE, pointer_to, where_a, where_b};
use c_types::CType;
use cond_compatible::where_compatible;
use cond_formula::{Config, Formula, NoMemory, PlainOracle};
use cond_sums::CondSum;
use conditional::CondList;
use std::alloc::Global;
use std::test::Fail;
use type_tables::{Member, Tables};

fn member(alloc: Global, name: &[u8], ty: CType) -> Result<Member, NoMemory> {
    let name = Vec::from_slice(alloc, name)?;
    Ok(Member { name, ty })
}

/// `struct s { struct s *next; .. }`, and with B a member `long n;` more.
fn members(alloc: Global, number: u32, last: CType) -> Result<CondList<Member>, NoMemory> {
    let mut all = CondList::empty(alloc);
    let next = pointer_to(alloc, CType::Struct(number))?;
    all.push(Formula::True, member(alloc, b"next", next)?)?;
    all.push(where_b(), member(alloc, b"n", last)?)?;
    Ok(all)
}

fn unit(
    alloc: Global,
    tables: &mut Tables,
    complete: Formula,
    last: CType,
) -> Result<u32, NoMemory> {
    let number = tables.declare_struct(alloc, b"s", Formula::True)?;
    if number as usize >= tables.structs.len() {
        return Ok(number);
    }
    let all = members(alloc, number, last)?;
    let scalars = CondSum::number(alloc, 1)?;
    tables.complete_struct(alloc, number, complete, &all, &scalars)?;
    Ok(number)
}

/// The last members differ where they are there, and count where both structs are complete.
#[test]
fn structs_of_two_units_are_compatible(rt: HostRuntime) -> Result<(), Fail> {
    let alloc = rt.alloc();
    let mut tables = Tables::new(alloc);
    let first = unit(alloc, &mut tables, Formula::True, CType::Int)?;
    let _ = tables.begin_unit(alloc);
    let second = unit(alloc, &mut tables, where_a(), CType::Long)?;
    let a = pointer_to(alloc, CType::Struct(first))?;
    let b = pointer_to(alloc, CType::Struct(second))?;
    let f = where_compatible(alloc, &mut PlainOracle, &tables, &a, &b)?;
    assert!(rt; f.value(Config { bits: NONE }));
    assert!(rt; f.value(Config { bits: A }));
    assert!(rt; f.value(Config { bits: B }));
    assert!(rt; !f.value(Config { bits: A_AND_B }));
    Ok(())
}
