//! A configuration by the names of the features that are on, as a text.
ghost use Rattle.std.specs.Prelude.{◌≡◌, ◌≤◌, length, map, IfOk};
ghost use Rattle.std.specs.String.{string_bytes};
ghost use Rattle.cond_formula.specs.Features.{has};
ghost use Rattle.project_file.specs.Projects.{names_on};
ghost use Rattle.command_projects.specs.Names.{listed};

use cond_formula::Config;
use std::alloc::{AllocError, Global};

/// The names of the features that are on.
pub fn names_on(alloc: Global, features: &[String], c: Config) -> Result<Vec<String>, AllocError>
    requires { length features.now ≤ 128 }
    ensures { IfOk result (λ names. map string_bytes names.items ≡ names_on (has c) (map string_bytes features.now)) }
{
    let mut names = Vec::new(alloc);
    for (number, feature) in features.iter().enumerate() {
        if c.has(number as u8) {
            names.push(feature.clone()?)?;
        }
    }
    Ok(names)
}

/// The names with commas between them; `-` where there are none.
pub fn listed(alloc: Global, names: &[String]) -> Result<String, AllocError>
    ensures { IfOk result (λ text. string_bytes text ≡ listed (map string_bytes names.now)) }
{
    if names.is_empty() {
        return String::from_str(alloc, "-");
    }
    names.join(alloc, ",")
}
