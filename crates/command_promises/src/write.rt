ghost use Rattle.std.specs.Prelude.{OnOk, OnErr, map};
ghost use Rattle.text_edits.specs.Files.{plain_file};
ghost use Rattle.command_promises.specs.Giving.{WroteAll, WrotePart};

use project_store::{Store, WriteFailed};
use text_edits::SourceFile;

/// Writes the files one after another, up to the first that isn't written whole.
pub(crate) fn write_all<S: Store>(store: &mut S, files: &[SourceFile]) -> Result<(), WriteFailed>
    ensures all { OnOk result (WroteAll (S.state store.old) (map plain_file files.now) (S.state store.new)) }
    ensures part { OnErr result (WrotePart (S.state store.old) (map plain_file files.now) (S.state store.new)) }
{
    for file in files {
        store.write(file.name.as_str(), file.bytes.as_slice())?;
    }
    Ok(())
}
