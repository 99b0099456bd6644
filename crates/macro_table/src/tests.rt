//! A name that means different things under two conditions.

use crate::macros::Macros;
use crate::table::MacroTable;
use c_text::Macro;
use cond_formula::{Config, Formula};
use std::test::Fail;

#[test]
fn definitions_under_conditions(rt: HostRuntime) -> Result<(), Fail> {
    let alloc = rt.alloc();
    let object = Macro {
        name: Vec::from_slice(alloc, b"N")?,
        params: None,
        body: Vec::new(alloc),
    };
    let function = Macro {
        name: Vec::from_slice(alloc, b"N")?,
        params: Some(Vec::new(alloc)),
        body: Vec::new(alloc),
    };
    let mut table = MacroTable::new();
    let refused = table.define(alloc, &Formula::Var(0), &object)?;
    assert!(rt; !refused.value(Config { bits: 3 }));
    let refused = table.define(alloc, &Formula::Var(1), &function)?;
    assert!(rt; refused.value(Config { bits: 3 }));
    assert!(rt; !refused.value(Config { bits: 2 }));
    assert_eq!(rt; table.alternatives(alloc, b"N")?.len(), 2);
    table.undef(alloc, &Formula::Var(0), b"N")?;
    let macros = Macros {
        features: &[],
        table: &table,
    };
    let defined = macros.when_defined(alloc, b"N")?;
    assert!(rt; defined.value(Config { bits: 2 }));
    assert!(rt; !defined.value(Config { bits: 3 }));
    Ok(())
}
