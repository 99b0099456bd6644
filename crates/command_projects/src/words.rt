ghost use Rattle.std.specs.Prelude.{◌≡◌, ◌≢◌, MatchOption, map, ℕ, List, [], ◌∷◌};
ghost use Rattle.std.specs.String.{string_bytes};
ghost use Rattle.command_projects.specs.Names.{AsksProject};

use crate::names::is_project_name;

/// The further word, whatever it is.
fn project_word(words: &[String]) -> Option<&str>
    ensures { MatchOption result
        ((project : List ℕ) → map string_bytes words.now ≢ project ∷ [])
        (λ project. map string_bytes words.now ≡ project.now ∷ []) }
{
    match words {
        [project] => Some(project.as_str()),
        _ => None,
    }
}

/// The project file that the further words ask for, if they are one word that can name it.
pub fn asked_project(words: &[String]) -> Option<&str>
    ensures { MatchOption result
        ((project : List ℕ) → AsksProject (map string_bytes words.now) project → ⊥)
        (λ project. AsksProject (map string_bytes words.now) project.now) }
{
    let project = project_word(words)?;
    if is_project_name(project.as_bytes()) {
        Some(project)
    } else {
        None
    }
}
