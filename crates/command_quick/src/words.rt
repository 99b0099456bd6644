ghost use Rattle.std.specs.Prelude.{◌≡◌, ◌≢◌, ◌↔◌, IsTrue, MatchOption, map};
ghost use Rattle.std.specs.String.{string_bytes};
ghost use Rattle.command_quick.specs.Words as spec;
ghost use Rattle.command_quick.specs.Steps.{asked};

use c_names::{is_file_name, is_new_name};
use folder_names::{is_apart, is_folder_name};

/// A renaming of one name in one file of the quick form, as the words ask for it.
#[derive(Clone, Copy, Debug)]
pub(crate) struct Renaming<'a> {
    pub(crate) file: &'a str,
    pub(crate) old: &'a str,
    pub(crate) new: &'a str,
    pub(crate) out: &'a str,
}

impl Renaming<'_> {
    /// Whether the words are of their forms, and fit each other.
    fn is_good(&self) -> bool
        ensures { IsTrue result ↔ spec.IsGood (asked self.now) }
    {
        is_file_name(self.file.as_bytes())
            && is_new_name(self.new.as_bytes())
            && is_folder_name(self.out.as_bytes())
            && self.old != self.new
            && is_apart(self.file.as_bytes(), self.out.as_bytes())
    }
}

/// The words of a renaming, whatever they are.
fn renaming_words(words: &[String]) -> Option<Renaming<'_>>
    ensures { MatchOption result
        ((r : spec.Renaming) → map string_bytes words.now ≢ spec.words_of r)
        (λ r. map string_bytes words.now ≡ spec.words_of (asked r)) }
{
    match words {
        [file, old, new, out] => Some(Renaming {
            file: file.as_str(),
            old: old.as_str(),
            new: new.as_str(),
            out: out.as_str(),
        }),
        _ => None,
    }
}

/// The renaming that the words ask for, if they ask for one.
pub(crate) fn asked_renaming(words: &[String]) -> Option<Renaming<'_>>
    ensures { MatchOption result
        ((r : spec.Renaming) → spec.Asks (map string_bytes words.now) r → ⊥)
        (λ r. spec.Asks (map string_bytes words.now) (asked r)) }
{
    let renaming = renaming_words(words)?;
    if renaming.is_good() {
        Some(renaming)
    } else {
        None
    }
}
