//! The least of the names that have a fault.
ghost use Rattle.std.specs.Prelude.{◌≡◌, MatchResult, None, option_map, map};
ghost use Rattle.core_meaning.specs.Linking as spec;
ghost use Rattle.plain_link.specs.Faults.{least_of, RefusedLeast};

use core_meaning::LinkKind;
use plain_scope::ElabError;
use std::alloc::Global;

/// Whether one name comes before another by its bytes.
fn is_lesser(a: &[u8], b: &[u8]) -> bool
    ensures { result ≡ spec.is_lesser a.now b.now }
{
    for i in 0..a.len() {
        if i >= b.len() {
            return false;
        }
        if a[i] != b[i] {
            return a[i] < b[i];
        }
    }
    a.len() < b.len()
}

/// The least of some names, if there are any.
fn least<'a>(names: &[&'a [u8]]) -> Option<&'a [u8]>
    ensures { option_map (λ name. name.now) result ≡ least_of (map (λ name. name.now) names.now) }
{
    let [first, rest @ ..] = names else {
        return None;
    };
    let mut least = *first;
    for name in rest {
        if is_lesser(name, least) {
            least = *name;
        }
    }
    Some(least)
}

/// Refuses the least of the names that have a fault, if there are any.
pub fn refuse_least(alloc: Global, kind: LinkKind, names: &[&[u8]]) -> Result<(), ElabError>
    ensures { MatchResult result
        (λ done. least_of (map (λ name. name.now) names.now) ≡ None)
        (RefusedLeast kind (map (λ name. name.now) names.now)) }
{
    match least(names) {
        None => Ok(()),
        Some(name) => Err(ElabError::Link(kind, Vec::from_slice(alloc, name)?)),
    }
}
