ghost use Rattle.std.specs.Prelude.{◌≡◌, ◌≢◌, ◌↔◌, option_map, IsTrue, IsNone, IfOk, IfSome, MatchOption, map, ℕ, List, [], ◌∷◌};
ghost use Rattle.std.specs.String.{string_bytes};
ghost use Rattle.command_run.specs.Words as spec;
ghost use Rattle.command_run.specs.Steps.{run_of, texts_of};

use c_names::is_file_name;
use command_projects::{are_lawful, has_repetition, is_project_name, names_in};
use decimal_numbers::number_in;
use std::alloc::{AllocError, Global};

/// The further words.
#[derive(Clone, Copy, Debug)]
pub(crate) struct RunTexts<'a> {
    pub(crate) project: &'a str,
    pub(crate) names: &'a str,
    pub(crate) bound: &'a str,
    pub(crate) input: &'a str,
}

/// A run of one product, as the words ask for it.
#[derive(Debug, Drop)]
pub(crate) struct RunWords<'a> {
    pub(crate) project: &'a str,
    /// The features that are on.
    pub(crate) names: Vec<Vec<u8>>,
    pub(crate) bound: u32,
    /// The file that is the input, if there is one.
    pub(crate) input: Option<&'a str>,
}

/// The largest bound of a run.
const LARGEST_BOUND: u32 = 1_000_000;

/// The name of the file that is the input, or `-` for none.
fn input_in(text: &str) -> Option<&str>
    ensures { option_map (λ name. name.now) result ≡ spec.input_in text.now }
{
    if text == "-" { None } else { Some(text) }
}

fn is_input_name(input: Option<&str>) -> bool
    ensures { result ≡ spec.is_input_name (option_map (λ name. name.now) input.entry) }
{
    match input {
        Some(name) => is_file_name(name.as_bytes()),
        None => true,
    }
}

impl RunWords<'_> {
    /// Whether the words are of their forms.
    fn is_good(&self) -> bool
        ensures { IsTrue result ↔ spec.IsGood (run_of self.now) }
    {
        is_project_name(self.project.as_bytes())
            && are_lawful(&self.names)
            && !has_repetition(&self.names)
            && is_input_name(self.input)
    }
}

/// The run, if its words are of their forms.
fn if_good_run(query: RunWords<'_>) -> Option<RunWords<'_>>
    ensures none { IsNone result → spec.IsGood (run_of query.entry) → ⊥ }
    ensures some { IfSome result (λ q. (run_of q ≡ run_of query.entry) × spec.IsGood (run_of query.entry)) }
{
    if query.is_good() { Some(query) } else { None }
}

/// The further words, whatever they are.
fn run_words(words: &[String]) -> Option<RunTexts<'_>>
    ensures { MatchOption result
        ((project names bound input : List ℕ) → map string_bytes words.now ≢ project ∷ names ∷ bound ∷ input ∷ [])
        (λ texts. map string_bytes words.now ≡ texts_of texts) }
{
    match words {
        [project, names, bound, input] => Some(RunTexts {
            project: project.as_str(),
            names: names.as_str(),
            bound: bound.as_str(),
            input: input.as_str(),
        }),
        _ => None,
    }
}

/// The run with this bound that the words ask for, if they ask for one.
fn bounded_run(
    alloc: Global,
    texts: RunTexts<'_>,
    bound: u32,
) -> Result<Option<RunWords<'_>>, AllocError>
    requires { spec.IsBound texts.bound.now bound }
    ensures { IfOk result (λ query. MatchOption query
        ((q : spec.RunQuery) → spec.Asks (texts_of texts.entry) q → ⊥)
        (λ query. spec.Asks (texts_of texts.entry) (run_of query))) }
{
    let names = names_in(alloc, texts.names.as_bytes())?;
    let query = RunWords {
        project: texts.project,
        names,
        bound,
        input: input_in(texts.input),
    };
    Ok(if_good_run(query))
}

/// The run that the words ask for, if they ask for one.
pub(crate) fn asked_run(alloc: Global, words: &[String]) -> Result<Option<RunWords<'_>>, AllocError>
    ensures { IfOk result (λ query. MatchOption query
        ((q : spec.RunQuery) → spec.Asks (map string_bytes words.now) q → ⊥)
        (λ query. spec.Asks (map string_bytes words.now) (run_of query))) }
{
    let Some(texts) = run_words(words) else {
        return Ok(None);
    };
    match number_in(alloc, texts.bound, LARGEST_BOUND)? {
        Some(bound) => {
            let query = bounded_run(alloc, texts, bound)?;
            Ok(query)
        }
        None => Ok(None),
    }
}
