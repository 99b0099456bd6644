ghost use Rattle.std.specs.Prelude.{◌≡◌, ◌≢◌, ◌↔◌, IsTrue, IsNone, IfOk, IfSome, MatchOption, map, ℕ, List, [], ◌∷◌};
ghost use Rattle.std.specs.String.{string_bytes};
ghost use Rattle.command_tokens.specs.Words as spec;
ghost use Rattle.command_tokens.specs.Steps.{query_of};

use c_names::is_file_name;
use command_projects::{are_lawful, has_repetition, is_project_name, names_in};
use std::alloc::{AllocError, Global};

/// A unit of a project in one configuration, as the words ask for it.
#[derive(Debug, Drop)]
pub(crate) struct UnitWords<'a> {
    pub(crate) project: &'a str,
    pub(crate) unit: &'a str,
    /// The features that are on.
    pub(crate) names: Vec<Vec<u8>>,
}

impl UnitWords<'_> {
    /// Whether the words are of their forms.
    fn is_good(&self) -> bool
        ensures { IsTrue result ↔ spec.IsGoodQuery (query_of self.now) }
    {
        is_project_name(self.project.as_bytes())
            && is_file_name(self.unit.as_bytes())
            && are_lawful(&self.names)
            && !has_repetition(&self.names)
    }
}

/// The further words, whatever they are.
fn tokens_words(words: &[String]) -> Option<(&str, &str, &str)>
    ensures { MatchOption result
        ((project unit names : List ℕ) → map string_bytes words.now ≢ project ∷ unit ∷ names ∷ [])
        (λ w. map string_bytes words.now ≡ w.0.now ∷ w.1.now ∷ w.2.now ∷ []) }
{
    match words {
        [project, unit, names] => Some((project.as_str(), unit.as_str(), names.as_str())),
        _ => None,
    }
}

/// The unit and configuration whose tokens the words ask for, if they ask for some.
pub(crate) fn asked_tokens(
    alloc: Global,
    words: &[String],
) -> Result<Option<UnitWords<'_>>, AllocError>
    ensures { IfOk result (λ query. MatchOption query
        ((q : spec.UnitQuery) → spec.Asks (map string_bytes words.now) q → ⊥)
        (λ query. spec.Asks (map string_bytes words.now) (query_of query))) }
{
    match tokens_words(words) {
        Some((project, unit, names)) => {
            let names = names_in(alloc, names.as_bytes())?;
            let query = UnitWords {
                project,
                unit,
                names,
            };
            Ok(if_good(query))
        }
        None => Ok(None),
    }
}

/// The query, if its words are of their forms.
fn if_good(query: UnitWords<'_>) -> Option<UnitWords<'_>>
    ensures none { IsNone result → spec.IsGoodQuery (query_of query.entry) → ⊥ }
    ensures some { IfSome result (λ q. (query_of q ≡ query_of query.entry) × spec.IsGoodQuery (query_of query.entry)) }
{
    if query.is_good() { Some(query) } else { None }
}
