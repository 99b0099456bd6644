//! The features that are on, as macros.
ghost use Rattle.std.specs.Prelude.{◌≡◌, map, IfOk, OnOk, if◌then◌else◌};
ghost use Rattle.std.specs.String.{string_bytes};
ghost use Rattle.cond_formula.specs.Features.{has};
ghost use Rattle.project_file.specs.Projects.{names_on};
ghost use Rattle.plain_pp.specs.Readings.{plain_reading};
ghost use Rattle.plain_pp.specs.Features.{with_feature, started};

use crate::readings::Reading;
use cond_formula::{Config, NoMemory};
use plain_macros::Meaning;
use std::alloc::Global;
use unit_files::feature_token;

/// Whether the feature with this number is on: none but the first 128 is.
fn is_on(c: Config, number: usize) -> bool
    ensures { result ≡ has c number }
{
    number < 128 && c.has(number as u8)
}

fn add_feature(alloc: Global, reading: &mut Reading, name: &[u8]) -> Result<(), NoMemory>
    ensures { OnOk result (plain_reading reading.new ≡ with_feature name.now (plain_reading reading.old)) }
{
    let token = feature_token(alloc)?;
    let name = Vec::from_slice(alloc, name)?;
    reading.define(name, Meaning::Feature(token))?;
    Ok(())
}

/// Adds the feature with this number if it is on.
fn take_feature(
    alloc: Global,
    reading: &mut Reading,
    c: Config,
    number: usize,
    name: &[u8],
) -> Result<(), NoMemory>
    ensures { OnOk result (plain_reading reading.new ≡ (if has c number then with_feature name.now (plain_reading reading.old) else plain_reading reading.old)) }
{
    if is_on(c, number) {
        add_feature(alloc, reading, name)?;
    }
    Ok(())
}

/// Where the reading of a unit begins.
pub fn at_start(alloc: Global, features: &[String], c: Config) -> Result<Reading, NoMemory>
    ensures { IfOk result (λ reading. plain_reading reading ≡ started (names_on (has c) (map string_bytes features.now))) }
{
    let mut reading = Reading::new(alloc);
    for (number, feature) in features.iter().enumerate() {
        take_feature(alloc, &mut reading, c, number, feature.as_bytes())?;
    }
    Ok(reading)
}
