ghost use Rattle.std.specs.Prelude.{◌≡◌, ◌==◌, IfOk, map};
ghost use Rattle.std.specs.List.{list_all, list_any, slice_split};
ghost use Rattle.std.specs.Str.{bytes_eq};
ghost use Rattle.c_names.specs.Names.{is_new_name};
ghost use Rattle.c_text.specs.Directives.{has_repetition};
ghost use Rattle.command_projects.specs.Names as spec;

use c_names::{is_file_name, is_new_name};
use std::alloc::{AllocError, Global};

/// Whether the name can be that of a project file.
pub fn is_project_name(name: &[u8]) -> bool
    ensures { result ≡ spec.is_project_name name.now }
{
    is_file_name(name) && !has_slash(name) && name != b"morpheus.proof".as_slice()
}

fn has_slash(name: &[u8]) -> bool
    ensures { result ≡ list_any (λ b. b == 47) name.now }
{
    name.iter().any(|byte| *byte == b'/')
}

/// The names in a text, with commas between them, or `-` for none.
pub fn names_in(alloc: Global, text: &[u8]) -> Result<Vec<Vec<u8>>, AllocError>
    ensures { IfOk result (λ names. map (λ name. name.items) names.items ≡ spec.names_in text.now) }
{
    if text == b"-".as_slice() {
        return Ok(Vec::new(alloc));
    }
    let names = pieces_of(alloc, text)?;
    Ok(names)
}

/// The pieces of a text between commas.
fn pieces_of(alloc: Global, text: &[u8]) -> Result<Vec<Vec<u8>>, AllocError>
    ensures { IfOk result (λ names. map (λ name. name.items) names.items ≡ slice_split (λ b. b == 44) text.now) }
{
    let mut names = Vec::new(alloc);
    for name in text.split(|byte| *byte == b',') {
        names.push(Vec::from_slice(alloc, name)?)?;
    }
    Ok(names)
}

/// Whether each can be the name of a feature.
pub fn are_lawful(names: &[Vec<u8>]) -> bool
    ensures { result ≡ list_all is_new_name (map (λ name. name.items) names.now) }
{
    for name in names {
        if !is_new_name(name.as_slice()) {
            return false;
        }
    }
    true
}

/// Whether the name is one of these.
pub(crate) fn is_among(names: &[Vec<u8>], name: &[u8]) -> bool
    ensures { result ≡ list_any (bytes_eq name.now) (map (λ other. other.items) names.now) }
{
    for other in names {
        if name == other.as_slice() {
            return true;
        }
    }
    false
}

/// Whether a name stands twice.
pub fn has_repetition(names: &[Vec<u8>]) -> bool
    ensures { result ≡ has_repetition (map (λ name. name.items) names.now) }
{
    for (i, name) in names.iter().enumerate() {
        let (_, others) = names.split_at(i + 1);
        if is_among(others, name.as_slice()) {
            return true;
        }
    }
    false
}
