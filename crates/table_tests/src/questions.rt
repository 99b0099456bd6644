use crate::fixtures::{A, A_AND_B, B, NONE, tables, where_b};
use c_types::CType;
use cond_formula::Config;
use std::test::Fail;

#[test]
fn a_tag_is_visible_where_its_struct_is_declared(rt: HostRuntime) -> Result<(), Fail> {
    let alloc = rt.alloc();
    let tables = tables(alloc)?;
    assert!(rt; tables.tagged(b"s") == Some(0));
    assert!(rt; tables.tagged(b"t") == Some(1));
    assert!(rt; tables.tagged(b"u") == None);
    let declared = tables.where_declared(alloc, 1)?;
    assert!(rt; declared.value(Config { bits: B }));
    assert!(rt; !declared.value(Config { bits: A }));
    Ok(())
}

#[test]
fn a_struct_is_complete_where_it_has_its_members(rt: HostRuntime) -> Result<(), Fail> {
    let alloc = rt.alloc();
    let tables = tables(alloc)?;
    let complete = tables.where_complete(alloc, &CType::Struct(0))?;
    assert!(rt; complete.value(Config { bits: A }));
    assert!(rt; complete.value(Config { bits: A_AND_B }));
    assert!(rt; !complete.value(Config { bits: B }));
    Ok(())
}

#[test]
fn a_local_is_declared_in_its_block(rt: HostRuntime) -> Result<(), Fail> {
    let alloc = rt.alloc();
    let mut tables = tables(alloc)?;
    let outside = tables.enter()?;
    tables.declare_local(alloc, b"x", where_b(), CType::Int)?;
    let here = tables.where_local(alloc, b"x")?;
    assert!(rt; here.value(Config { bits: B }));
    assert!(rt; !here.value(Config { bits: NONE }));
    let inner = tables.enter()?;
    assert!(rt; !tables.where_local(alloc, b"x")?.value(Config { bits: B }));
    tables.leave(inner);
    assert!(rt; tables.where_local(alloc, b"x")?.value(Config { bits: B }));
    tables.leave(outside);
    assert!(rt; !tables.where_local(alloc, b"x")?.value(Config { bits: B }));
    Ok(())
}
