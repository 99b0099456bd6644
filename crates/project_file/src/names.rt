//! The names of a project: lawful features, and no name twice.
ghost use Rattle.std.specs.Prelude.{◌≡◌, IfOk, MatchOption, MatchResult, map, string_bytes};
ghost use Rattle.project_file.specs.Contents.{files_of};
ghost use Rattle.project_file.specs.Projects.{AreFeatureNames, AllDiffer, NamesOnce};
ghost use Rattle.project_file.specs.Faults.{feature, duplicate, IsFirstUnlawful, IsFirstRepeated, IsDuplicate};
ghost use Rattle.project_file.specs.View.{Why, contents_view};
ghost use Rattle.project_file.specs.Checks.{IsFaultOfNames};

use crate::contents::Contents;
use crate::errors::ProjectError;
use c_names::is_new_name;
use std::alloc::{AllocError, Global};
use std::collections::BTreeSet;

/// The first name that no feature may have.
fn first_unlawful(features: &[String]) -> Option<&str>
    ensures { MatchOption result
        (AreFeatureNames (map string_bytes features.now))
        (λ name. IsFirstUnlawful (map string_bytes features.now) name.now) }
{
    for feature in features {
        if !is_new_name(feature.as_bytes()) {
            return Some(feature.as_str());
        }
    }
    None
}

/// The first name that stands earlier in the list.
fn first_repeated<'a>(alloc: Global, names: &[&'a str]) -> Result<Option<&'a str>, AllocError>
    ensures { IfOk result (λ found. MatchOption found
        (AllDiffer (map (λ name. name.now) names.now))
        (λ name. IsFirstRepeated (map (λ name. name.now) names.now) name.now)) }
{
    let mut earlier = BTreeSet::new(alloc);
    for name in names {
        if !earlier.insert(*name)? {
            return Ok(Some(*name));
        }
    }
    Ok(None)
}

/// The names of the features.
fn feature_names<'a>(alloc: Global, contents: &'a Contents) -> Result<Vec<&'a str>, AllocError>
    ensures { IfOk result (λ names. map (λ name. name.now) names.items ≡ (contents_view contents.now).features) }
{
    let mut names = Vec::new(alloc);
    for feature in &contents.features {
        names.push(feature.as_str())?;
    }
    Ok(names)
}

/// The names of the files: headers, and then those of the units.
fn file_names<'a>(alloc: Global, contents: &'a Contents) -> Result<Vec<&'a str>, AllocError>
    ensures { IfOk result (λ names. map (λ name. name.now) names.items ≡ files_of (contents_view contents.now)) }
{
    let mut names = Vec::new(alloc);
    for header in &contents.headers {
        names.push(header.as_str())?;
    }
    for unit in &contents.units {
        names.push(unit.file.as_str())?;
    }
    Ok(names)
}

/// The first feature that is named twice, or else the first file.
fn duplicate<'a>(alloc: Global, contents: &'a Contents) -> Result<Option<&'a str>, AllocError>
    ensures { IfOk result (λ found. MatchOption found
        (NamesOnce (contents_view contents.now))
        (λ name. IsDuplicate (contents_view contents.now) name.now)) }
{
    let features = feature_names(alloc, contents)?;
    if let Some(name) = first_repeated(alloc, &features)? {
        return Ok(Some(name));
    }
    let files = file_names(alloc, contents)?;
    let name = first_repeated(alloc, &files)?;
    Ok(name)
}

/// The error of a feature, or want of memory.
fn unlawful(alloc: Global, name: &str) -> ProjectError
    ensures { Why (λ fault. fault ≡ feature name.now) ⊥ result }
{
    match String::from_str(alloc, name) {
        Ok(name) => ProjectError::Feature(name),
        Err(_) => ProjectError::Memory,
    }
}

/// The error of a name that stands twice, or want of memory.
fn repeated(alloc: Global, name: &str) -> ProjectError
    ensures { Why (λ fault. fault ≡ duplicate name.now) ⊥ result }
{
    match String::from_str(alloc, name) {
        Ok(name) => ProjectError::Duplicate(name),
        Err(_) => ProjectError::Memory,
    }
}

/// Refuses unlawful features, and names that stand twice.
pub(crate) fn check_names(alloc: Global, contents: &Contents) -> Result<(), ProjectError>
    ensures { MatchResult result
        (λ _. AreFeatureNames (contents_view contents.now).features × NamesOnce (contents_view contents.now))
        (Why (IsFaultOfNames (contents_view contents.now)) ⊥) }
{
    if let Some(name) = first_unlawful(&contents.features) {
        return Err(unlawful(alloc, name));
    }
    match duplicate(alloc, contents)? {
        Some(name) => Err(repeated(alloc, name)),
        None => Ok(()),
    }
}
