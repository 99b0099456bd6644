//! A configuration by the names of the features that are on.
ghost use Rattle.std.specs.Prelude.{◌≡◌, ℕ, ◌≤◌, true, length, map, IfOk};
ghost use Rattle.std.specs.List.{list_all, list_any};
ghost use Rattle.std.specs.Str.{bytes_eq};
ghost use Rattle.std.specs.String.{string_bytes};
ghost use Rattle.cond_formula.specs.Features.{has};
ghost use Rattle.c_names.specs.Names.{is_new_name};
ghost use Rattle.command_projects.specs.Products.{on_by, is_named, are_features};

use crate::names::is_among;
use cond_formula::Config;
use sat_core::config_of;
use std::alloc::{AllocError, Global};

/// Whether the name is that of a feature.
fn is_feature(features: &[String], name: &[u8]) -> bool
    ensures { result ≡ list_any (bytes_eq name.now) (map string_bytes features.now) }
{
    for feature in features {
        if name == feature.as_bytes() {
            return true;
        }
    }
    false
}

/// Whether each name is that of a feature.
pub fn are_features(features: &[String], names: &[Vec<u8>]) -> bool
    ensures { result ≡ are_features (map string_bytes features.now) (map (λ name. name.items) names.now) }
{
    for name in names {
        if !is_feature(features, name.as_slice()) {
            return false;
        }
    }
    true
}

/// Which of the features are named.
fn named(alloc: Global, features: &[String], names: &[Vec<u8>]) -> Result<Vec<bool>, AllocError>
    ensures { IfOk result (λ on. on.items ≡ map (is_named (map (λ name. name.items) names.now)) (map string_bytes features.now)) }
{
    let mut on = Vec::new(alloc);
    for feature in features {
        on.push(is_among(names, feature.as_bytes()))?;
    }
    Ok(on)
}

/// The configuration in which the features that are named are on.
pub fn configuration(
    alloc: Global,
    features: &[String],
    names: &[Vec<u8>],
) -> Result<Config, AllocError>
    requires few { length features.now ≤ 128 }
    requires lawful { list_all is_new_name (map (λ name. name.items) names.now) ≡ true }
    ensures { IfOk result (λ c. (number : ℕ) → has c number ≡ on_by (map string_bytes features.now) (map (λ name. name.items) names.now) number) }
{
    let on = named(alloc, features, names)?;
    Ok(config_of(&on, features.len() as u8))
}
