//! Whether tokens refuse a configuration.
ghost use Rattle.std.specs.Prelude.{◌≡◌, map, is_some};
ghost use Rattle.c_text.specs.Token.{plain_token};
ghost use Rattle.c_text.specs.Preprocessing as spec;

use c_text::Token;
use unit_files::{refused, refused_ignored, refused_in_run, refused_token};

/// Whether the token refuses where it is active.
#[tactic(auto, using(crate::proofs::OptionLemmas::is_some_map))]
pub fn is_refused(token: &Token) -> bool
    ensures { result ≡ is_some (spec.by_bad (plain_token token.now) (spec.bad_kind token.now.kind)) }
{
    refused(token).is_some()
}

/// Whether one of the tokens refuses where they are active.
#[tactic(auto, using(crate::proofs::OptionLemmas::is_some_map))]
pub fn refuse(tokens: &[Token]) -> bool
    ensures { result ≡ is_some (spec.refused_token (map plain_token tokens.now)) }
{
    refused_token(tokens).is_some()
}

/// The same of tokens that stand elsewhere.
#[tactic(auto, using(crate::proofs::OptionLemmas::is_some_map))]
pub fn refuse_in_run(tokens: &[&Token]) -> bool
    ensures { result ≡ is_some (spec.refused_token (map (λ t. plain_token t.now) tokens.now)) }
{
    refused_in_run(tokens).is_some()
}

/// Whether one of the tokens refuses where they are ignored.
#[tactic(auto, using(crate::proofs::OptionLemmas::is_some_map))]
pub fn refuse_ignored(tokens: &[Token]) -> bool
    ensures { result ≡ is_some (spec.refused_ignored (map plain_token tokens.now)) }
{
    refused_ignored(tokens).is_some()
}
