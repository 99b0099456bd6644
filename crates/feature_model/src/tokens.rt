//! The tokens of a constraint's text.
ghost use Rattle.std.specs.Prelude.{◌≡◌, ◌<◌, length, IfSome};
ghost use Rattle.std.specs.List.{list_all};
ghost use Rattle.feature_model.specs.Trees.{feature_number, names_feature};
ghost use Rattle.feature_model.specs.View.{token_view};

use crate::signs::Sign;

/// A token: the name of a feature, or a sign.
#[derive(Debug, Drop)]
pub enum Token {
    Name(Vec<u8>),
    Sign(Sign),
}

/// The number of the feature with this name, from 0.
pub fn feature_number(features: &[String], name: &[u8]) -> Option<usize>
    ensures first { result ≡ feature_number features.now name.now }
    ensures bound { IfSome result (λ number. number < length features.now) }
{
    features
        .iter()
        .position(|feature| feature.as_bytes() == name)
}

fn names_feature(features: &[String], token: &Token) -> bool
    ensures { result ≡ names_feature features.now (token_view token.now) }
{
    match token {
        Token::Name(name) => feature_number(features, name).is_some(),
        Token::Sign(_) => true,
    }
}

/// Whether each name among the tokens is that of a feature.
pub fn name_features(features: &[String], tokens: &[Token]) -> bool
    ensures { result ≡ list_all (λ token. names_feature features.now (token_view token)) tokens.now }
{
    tokens.iter().all(|token| names_feature(features, token))
}
