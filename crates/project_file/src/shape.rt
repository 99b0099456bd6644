//! The shape of a project file: its keys, and what they hold.
ghost use Rattle.std.specs.List.{list_all};
ghost use Rattle.std.specs.Prelude.{◌≡◌, IfOk, MatchResult, string_bytes, Some};
ghost use Rattle.toml.specs.Data.{array, get_member};
ghost use Rattle.toml.specs.View.{view, table_view, items_view};
ghost use Rattle.project_file.specs.Contents as spec;
ghost use Rattle.project_file.specs.Faults.{shape};
ghost use Rattle.project_file.specs.View.{Finds, Why, strings_view, unit_text_view, unit_texts_view, contents_view};
ghost use Rattle.project_file.specs.Checks.{IsFaultOfShape};

use crate::contents::{Contents, UnitText};
use crate::documents::{first_unlisted, optional_string_at, string_at, strings_at, value_at};
use crate::errors::ProjectError;
use c_names::is_file_name;
use std::alloc::{AllocError, Global};
use toml::{Table, Value};

/// The features that a project may have.
const MOST_FEATURES: usize = 128;

/// The name of the file that holds proofs.
const PROOF_FILE: &str = "morpheus.proof";

/// Whether a file of the project may have the name.
fn is_source_name(project: &str, name: &str) -> bool
    ensures { result ≡ spec.is_source_name project.now name.now }
{
    is_file_name(name.as_bytes()) && name != project && name != PROOF_FILE
}

/// Whether files of the project may have all of these names.
fn are_source_names(project: &str, names: &[String]) -> bool
    ensures { result ≡ list_all (λ name. spec.is_source_name project.now (string_bytes name)) names.now }
{
    names
        .iter()
        .all(|name| is_source_name(project, name.as_str()))
}

fn features_in(alloc: Global, table: &Table) -> Result<Option<Vec<String>>, AllocError>
    ensures { IfOk result (Finds strings_view (spec.HasFeatures (table_view table.now))) }
{
    let Some(features) = strings_at(alloc, table, "features")? else {
        return Ok(None);
    };
    if features.len() > MOST_FEATURES {
        return Ok(None);
    }
    Ok(Some(features))
}

fn headers_in(
    alloc: Global,
    project: &str,
    table: &Table,
) -> Result<Option<Vec<String>>, AllocError>
    ensures { IfOk result (Finds strings_view (spec.HasHeaders project.now (table_view table.now))) }
{
    let Some(headers) = strings_at(alloc, table, "headers")? else {
        return Ok(None);
    };
    if !are_source_names(project, &headers) {
        return Ok(None);
    }
    Ok(Some(headers))
}

/// The name of the file of a unit.
fn file_in(alloc: Global, project: &str, members: &Table) -> Result<Option<String>, AllocError>
    ensures { IfOk result (Finds string_bytes (spec.HasFile project.now (table_view members.now))) }
{
    let Some(file) = string_at(members, "file") else {
        return Ok(None);
    };
    if !is_source_name(project, file) {
        return Ok(None);
    }
    let file = String::from_str(alloc, file)?;
    Ok(Some(file))
}

/// The unit that a table says.
fn unit_in(alloc: Global, project: &str, members: &Table) -> Result<Option<UnitText>, AllocError>
    ensures { IfOk result (Finds unit_text_view (spec.IsUnitTable project.now (table_view members.now))) }
{
    if first_unlisted(members, &["file", "when"]).is_some() {
        return Ok(None);
    }
    let Some(file) = file_in(alloc, project, members)? else {
        return Ok(None);
    };
    let Some(when) = optional_string_at(alloc, members, "when")? else {
        return Ok(None);
    };
    Ok(Some(UnitText { file, when }))
}

/// The unit that a value says.
fn unit_of(alloc: Global, project: &str, value: &Value) -> Result<Option<UnitText>, AllocError>
    ensures { IfOk result (Finds unit_text_view (spec.IsUnitValue project.now (view value.now))) }
{
    match value.as_table() {
        None => Ok(None),
        Some(members) => {
            let unit = unit_in(alloc, project, members)?;
            Ok(unit)
        }
    }
}

/// The units that values say.
fn units_of(
    alloc: Global,
    project: &str,
    values: &[Value],
) -> Result<Option<Vec<UnitText>>, AllocError>
    ensures { IfOk result (Finds unit_texts_view (spec.AreUnitValues project.now (items_view values.now))) }
{
    let mut units = Vec::new(alloc);
    for value in values {
        match unit_of(alloc, project, value)? {
            Some(unit) => units.push(unit)?,
            None => return Ok(None),
        }
    }
    Ok(Some(units))
}

/// The array that a key holds.
fn array_at<'a>(table: &'a Table, key: &str) -> Option<&'a [Value]>
    ensures { Finds (λ values. items_view values.now) (λ items. get_member key.now (table_view table.now) ≡ Some (array items)) result }
{
    match value_at(table, key) {
        None => None,
        Some(value) => match value.as_array() {
            None => None,
            Some(values) => Some(values.as_slice()),
        },
    }
}

fn units_in(
    alloc: Global,
    project: &str,
    table: &Table,
) -> Result<Option<Vec<UnitText>>, AllocError>
    ensures { IfOk result (Finds unit_texts_view (spec.HasUnits project.now (table_view table.now))) }
{
    let Some(values) = array_at(table, "unit") else {
        return Ok(None);
    };
    if values.is_empty() {
        return Ok(None);
    }
    let units = units_of(alloc, project, values)?;
    Ok(units)
}

/// The error of a key, or want of memory.
fn misshapen(alloc: Global, key: &str) -> ProjectError
    ensures { Why (λ fault. fault ≡ shape key.now) ⊥ result }
{
    match String::from_str(alloc, key) {
        Ok(key) => ProjectError::Shape(key),
        Err(_) => ProjectError::Memory,
    }
}

/// What a document says, as texts.
pub(crate) fn contents_of(
    alloc: Global,
    project: &str,
    table: &Table,
) -> Result<Contents, ProjectError>
    ensures { MatchResult result (λ contents. spec.IsContents project.now (table_view table.now) (contents_view contents)) (Why (IsFaultOfShape project.now (table_view table.now)) ⊥) }
{
    if let Some(key) = first_unlisted(table, &["features", "constraints", "headers", "unit"]) {
        return Err(misshapen(alloc, key));
    }
    let Some(features) = features_in(alloc, table)? else {
        return Err(misshapen(alloc, "features"));
    };
    let Some(constraints) = strings_at(alloc, table, "constraints")? else {
        return Err(misshapen(alloc, "constraints"));
    };
    let Some(headers) = headers_in(alloc, project, table)? else {
        return Err(misshapen(alloc, "headers"));
    };
    let Some(units) = units_in(alloc, project, table)? else {
        return Err(misshapen(alloc, "unit"));
    };
    Ok(Contents {
        features,
        constraints,
        headers,
        units,
    })
}
