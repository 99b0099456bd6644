use crate::items::{always, block, selection, when};
use c_types::CType;
use cond_formula::{Config, Formula, NoMemory, PlainOracle};
use cond_member_uses::note_body;
use cond_selections::Selection;
use cond_sums::CondSum;
use conditional::CondList;
use std::alloc::Global;
use std::test::Fail;
use type_tables::{Member, Tables};

const NONE: u128 = 0;

const A: u128 = 1;

fn where_a() -> Formula {
    Formula::Var(0)
}

/// A struct with the member `int m;`.
fn declare_struct(alloc: Global, tables: &mut Tables, tag: &[u8]) -> Result<(), NoMemory> {
    let mut members = CondList::empty(alloc);
    let name = Vec::from_slice(alloc, b"m")?;
    members.push(
        Formula::True,
        Member {
            name,
            ty: CType::Int,
        },
    )?;
    let number = tables.declare_struct(alloc, tag, Formula::True)?;
    let scalars = CondSum::number(alloc, 1)?;
    tables.complete_struct(alloc, number, Formula::True, &members, &scalars)
}

/// Whether a configuration sees a use of a member of the struct with this number.
fn is_used(log: &CondList<Selection>, bits: u128, structure: u32) -> bool {
    for entry in &log.entries {
        if entry.what.structure == structure && entry.when.value(Config { bits }) {
            return true;
        }
    }
    false
}

#[test]
fn uses_are_noted_where_they_are_there(rt: HostRuntime) -> Result<(), Fail> {
    let alloc = rt.alloc();
    let mut tables = Tables::new(alloc);
    declare_struct(alloc, &mut tables, b"s")?;
    declare_struct(alloc, &mut tables, b"t")?;
    tables.enter()?;
    tables.declare_local(alloc, b"v", Formula::True, CType::Struct(0))?;
    tables.declare_local(alloc, b"w", Formula::True, CType::Struct(1))?;
    let mut items = Vec::with_capacity(alloc, 2)?;
    items.push(when(alloc, where_a(), selection(alloc, "v")?)?)?;
    items.push(always(alloc, selection(alloc, "w")?)?)?;
    let body = block(alloc, items)?;
    let mut log = CondList::empty(alloc);
    note_body(
        alloc,
        &mut PlainOracle,
        &mut tables,
        &Formula::True,
        &body,
        &mut log,
    )?;
    assert!(rt; is_used(&log, A, 0));
    assert!(rt; is_used(&log, A, 1));
    assert!(rt; !is_used(&log, NONE, 0));
    assert!(rt; is_used(&log, NONE, 1));
    Ok(())
}
