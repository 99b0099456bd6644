ghost use Rattle.std.specs.Prelude.{◌≡◌, ◌↔◌, IsTrue, IfOk, ℕ, List, ◌∷◌};
ghost use Rattle.std.specs.List.{list_all};
ghost use Rattle.std.specs.String.{string_bytes};
ghost use Rattle.folder_names.specs.Folders as spec;

use c_names::is_word_byte;
use std::alloc::{AllocError, Global};

fn is_folder_byte(byte: u8) -> bool
    ensures { result ≡ spec.is_folder_byte byte }
{
    is_word_byte(byte) || byte == b'-'
}

fn are_folder_bytes(bytes: &[u8]) -> bool
    ensures { result ≡ list_all spec.is_folder_byte bytes.now }
{
    bytes.iter().all(|byte| is_folder_byte(*byte))
}

/// Whether the name can be that of an output folder.
pub fn is_folder_name(name: &[u8]) -> bool
    ensures { result ≡ spec.is_folder_name name.now }
{
    !name.is_empty() && are_folder_bytes(name)
}

/// The name of a file of the folder.
pub fn in_folder(alloc: Global, folder: &str, name: &str) -> Result<String, AllocError>
    ensures { IfOk result (λ path. string_bytes path ≡ spec.in_folder folder.now name.now) }
{
    let mut path = String::from_str(alloc, folder)?;
    path.push_str("/")?;
    path.push_str(name)?;
    Ok(path)
}

/// Whether the name is that of a file in the folder.
pub fn is_in_folder(name: &[u8], folder: &[u8]) -> bool
    ensures { IsTrue result ↔ spec.IsInFolder name.now folder.now }
{
    match name.strip_prefix(folder) {
        Some(rest) => begins_with_slash(rest),
        None => false,
    }
}

fn begins_with_slash(rest: &[u8]) -> bool
    ensures { IsTrue result ↔ ((more : List ℕ) × (rest.now ≡ 47 ∷ more)) }
{
    matches!(rest, [b'/', ..])
}

/// Whether the folder is another than the file, and no folder that the file stands in.
pub fn is_apart(name: &[u8], folder: &[u8]) -> bool
    ensures { IsTrue result ↔ spec.IsApart name.now folder.now }
{
    folder != name && !is_in_folder(name, folder)
}
