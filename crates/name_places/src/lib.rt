//! Maps from names to places in lists.
#![tactic(auto)]

ghost use Rattle.std.specs.Prelude.{◌≡◌, OnOk, OnErr};
ghost use Rattle.core_meaning.specs.Entities.{with_entry};
ghost use Rattle.name_places.specs.Places.{place_of};

use cond_formula::NoMemory;
use std::alloc::Global;
use std::collections::HashMap;

/// The place that a map has for a name.
pub fn place_in(table: &HashMap<Vec<u8>, u32>, name: &[u8]) -> Option<u32>
    ensures { result ≡ place_of table.now name.now }
{
    table.get(name).copied()
}

/// The place that the map has for a name from here on.
pub fn enter_place(
    alloc: Global,
    table: &mut HashMap<Vec<u8>, u32>,
    name: &[u8],
    place: u32,
) -> Result<(), NoMemory>
    ensures ok { OnOk result (place_of table.new ≡ with_entry (place_of table.old) name.now place) }
    ensures err { OnErr result (place_of table.new ≡ place_of table.old) }
{
    table.insert(Vec::from_slice(alloc, name)?, place)?;
    Ok(())
}
