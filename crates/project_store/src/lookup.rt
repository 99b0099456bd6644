ghost use Rattle.std.specs.Prelude.{◌≡◌, OnOk, OnErr, option_copied};
ghost use Rattle.std.specs.List.{position_from};
ghost use Rattle.text_edits.specs.Files.{plain_file, plain_files, lookup_of};
ghost use Rattle.project_store.specs.Lookup.{PutsFile};
ghost use Rattle.project_store.specs.Named.{has_name};

use std::alloc::{AllocError, Global};
use text_edits::{Files, SourceFile};

/// The number of the first file with the name.
fn place_of(files: &[SourceFile], name: &str) -> Option<usize>
    ensures { result ≡ position_from (λ file. has_name name.now (plain_file file)) 0 files.now }
{
    files.iter().position(|file| file.name.as_str() == name)
}

/// The content of the first file with the name.
pub(crate) fn content_of<'a>(files: &'a Files, name: &str) -> Option<&'a [u8]>
    ensures { option_copied result ≡ lookup_of (plain_files files.now) name.now }
{
    let at = place_of(&files.list, name)?;
    Some(files.list[at].bytes.as_slice())
}

/// Puts the bytes under the name: in place of what the first file with the name holds, or in a
/// file of their own at the end.
pub(crate) fn put(
    alloc: Global,
    files: &mut Files,
    name: &str,
    bytes: &[u8],
) -> Result<(), AllocError>
    ensures ok { OnOk result
        (PutsFile (lookup_of (plain_files files.old)) name.now bytes.now (lookup_of (plain_files files.new))) }
    ensures err { OnErr result (plain_files files.new ≡ plain_files files.old) }
{
    let bytes = Vec::from_slice(alloc, bytes)?;
    match place_of(&files.list, name) {
        Some(at) => {
            files.list[at].bytes = bytes;
        }
        None => {
            let name = String::from_str(alloc, name)?;
            files.list.push(SourceFile { name, bytes })?;
        }
    }
    Ok(())
}
