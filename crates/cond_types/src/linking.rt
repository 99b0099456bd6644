//! Where units don't link.
ghost use Rattle.std.specs.Prelude.{◌≡◌, List, Bool, false, IsTrue, IfOk};
ghost use Rattle.cond_formula.specs.Features.{has};
ghost use Rattle.cond_formula.specs.Conditions.{condition_of, value};
ghost use Rattle.core_meaning.specs.Linking.{Units, Links};
ghost use Rattle.link_faults.specs.Faulty.{FailToLink};
ghost use Rattle.cond_types.specs.Typed.{IsLinkable};

use crate::CondTypes;
use cond_compatible::alike_structs;
use cond_formula::{Formula, NoMemory, Oracle};
use link_faults::where_links_fail;
use std::alloc::Global;

/// Where units don't link, in all configurations.
#[derive(Drop)]
pub struct CondLinks {
    pub refused: Formula,
}

/// Where the units that are present don't link.
pub fn links<O: Oracle>(alloc: Global, oracle: &mut O, t: &CondTypes) -> Result<CondLinks, NoMemory>
    ensures kept { O.admits oracle.new ≡ O.admits oracle.old }
    ensures fails { IfOk result (λ found. (c : List Bool) (linked : Units) → IsTrue (value (has c) (O.admits oracle.old)) → IsLinkable (has c) linked t.now
        → IsTrue (value (has c) (condition_of found.refused)) → FailToLink linked) }
    ensures links { IfOk result (λ found. (c : List Bool) (linked : Units) → IsTrue (value (has c) (O.admits oracle.old)) → IsLinkable (has c) linked t.now
        → value (has c) (condition_of found.refused) ≡ false → Links linked) }
{
    let alike = alike_structs(alloc, oracle, &t.tables)?;
    let refused = where_links_fail(alloc, oracle, &t.tables, &alike, &t.units)?;
    Ok(CondLinks { refused })
}
