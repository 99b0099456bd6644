ghost use Rattle.std.specs.Prelude.{◌≡◌, ◌≢◌, MatchOption};
ghost use Rattle.morpheus_top.specs.Commands.{commands};

/// A command.
#[derive(Clone, Copy, Debug, PartialEq, Eq)]
pub enum Which {
    /// One name is made another in one file of the quick form.
    Quick,
    /// The least configuration of a project.
    Admit,
    /// The tokens of a unit in one configuration.
    Tokens,
    /// The run of one product.
    Run,
    /// Whether all products of a project are accepted.
    Check,
    /// What stands at a place gets a new name in all products of a project.
    Rename,
}

/// The command that the word names.
pub(crate) fn named(word: &str) -> Option<Which>
    ensures { MatchOption result
        ((which : Which) → word.now ≢ (commands which).word)
        (λ which. word.now ≡ (commands which).word) }
{
    if word == "quick" {
        return Some(Which::Quick);
    }
    if word == "admit" {
        return Some(Which::Admit);
    }
    if word == "tokens" {
        return Some(Which::Tokens);
    }
    if word == "run" {
        return Some(Which::Run);
    }
    if word == "check" {
        return Some(Which::Check);
    }
    if word == "rename" {
        return Some(Which::Rename);
    }
    None
}
