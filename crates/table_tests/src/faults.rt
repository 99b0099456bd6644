use crate::fixtures::{A, NONE, tables, where_a};
use cond_bindings::FileUse;
use cond_formula::{Config, Formula, NoMemory};
use conditional::CondList;
use link_faults::{LeftNames, LeftUnit, where_duplicate, where_no_main, where_undefined};
use std::alloc::Global;
use std::collections::HashMap;
use std::mem;
use std::test::Fail;
use type_tables::{Definition, Tables};

/// A tentative definition of `x`.
fn definition(alloc: Global) -> Result<Definition, NoMemory> {
    let name = Vec::from_slice(alloc, b"x")?;
    Ok(Definition {
        name,
        tentative: true,
    })
}

/// The names of the tables, which are taken out of them.
fn taken_names(alloc: Global, tables: &mut Tables) -> LeftNames {
    let places = mem::replace(&mut tables.names, HashMap::new(alloc));
    LeftNames {
        places,
        declared: tables.begin_unit(alloc),
    }
}

/// A unit with the names of the tables, which defines `x` and, with A, uses `f`.
fn unit(alloc: Global, tables: &mut Tables) -> Result<LeftUnit, NoMemory> {
    let mut defined = CondList::empty(alloc);
    defined.push(Formula::True, definition(alloc)?)?;
    let mut uses = Vec::with_capacity(alloc, 1)?;
    let name = Vec::from_slice(alloc, b"f")?;
    uses.push(FileUse {
        name,
        when: where_a(),
    })?;
    Ok(LeftUnit {
        when: Formula::True,
        names: taken_names(alloc, tables),
        defined,
        uses,
    })
}

/// A unit that is there with A, and declares nothing.
fn other_unit(alloc: Global) -> Result<LeftUnit, NoMemory> {
    let mut defined = CondList::empty(alloc);
    defined.push(Formula::True, definition(alloc)?)?;
    Ok(LeftUnit {
        when: where_a(),
        names: LeftNames {
            places: HashMap::new(alloc),
            declared: Vec::new(alloc),
        },
        defined,
        uses: Vec::new(alloc),
    })
}

#[test]
fn a_name_is_defined_once(rt: HostRuntime) -> Result<(), Fail> {
    let alloc = rt.alloc();
    let mut tables = tables(alloc)?;
    let mut units = Vec::with_capacity(alloc, 2)?;
    units.push(unit(alloc, &mut tables)?)?;
    units.push(other_unit(alloc)?)?;
    let twice = where_duplicate(alloc, &tables, &units, b"x")?;
    assert!(rt; twice.value(Config { bits: A }));
    assert!(rt; !twice.value(Config { bits: NONE }));
    let missing = where_undefined(alloc, &tables, &units, b"f")?;
    assert!(rt; missing.value(Config { bits: A }));
    assert!(rt; !missing.value(Config { bits: NONE }));
    let no_main = where_no_main(alloc, &tables, &units)?;
    assert!(rt; no_main.value(Config { bits: NONE }));
    Ok(())
}
