//! What a name stands for.
ghost use Rattle.std.specs.Prelude.{◌≡◌, map};
ghost use Rattle.c_text.specs.PlainMacros.{plain_macro};
ghost use Rattle.c_text.specs.Token.{plain_token};
ghost use Rattle.c_text.specs.Preprocessing.{meaning, same_meaning, same_texts, texts};
ghost use Rattle.plain_macros.specs.PlainMeanings.{plain_meaning};

use c_text::{Macro, Token};

/// What a name stands for in one configuration.
#[derive(Debug, Drop)]
pub enum Meaning {
    /// A feature that is on, with the token that replaces it. Unlike a macro it is replaced at every
    /// depth.
    Feature(Token),
    /// An object-like macro with its body.
    Object(Vec<Token>),
    /// A function-like macro.
    Function {
        params: Vec<Vec<u8>>,
        body: Vec<Token>,
    },
}

fn same_names(names: &[Vec<u8>], others: &[Vec<u8>]) -> bool
    ensures { result ≡ same_texts (map (λ n. n.items) names.now) (map (λ n. n.items) others.now) }
{
    if names.len() != others.len() {
        return false;
    }
    for (i, name) in names.iter().enumerate() {
        if name.as_slice() != others[i].as_slice() {
            return false;
        }
    }
    true
}

fn same_spellings(tokens: &[Token], others: &[Token]) -> bool
    ensures { result ≡ same_texts (texts (map plain_token tokens.now)) (texts (map plain_token others.now)) }
{
    if tokens.len() != others.len() {
        return false;
    }
    for (i, token) in tokens.iter().enumerate() {
        if token.text.as_slice() != others[i].text.as_slice() {
            return false;
        }
    }
    true
}

impl Meaning {
    /// What the macro of a `#define` line stands for.
    pub fn of(definition: Macro) -> Meaning
        ensures { plain_meaning result ≡ meaning (plain_macro definition) (plain_macro definition).params }
    {
        let Macro {
            name: _,
            params,
            body,
        } = definition;
        match params {
            None => Meaning::Object(body),
            Some(params) => Meaning::Function { params, body },
        }
    }

    /// Whether a second definition may follow the first: the same parameters, and bodies of the same
    /// spellings. White space between the tokens doesn't count.
    pub fn same_as(&self, other: &Meaning) -> bool
        ensures { result ≡ same_meaning (plain_meaning self.now) (plain_meaning other.now) }
    {
        match (self, other) {
            (Meaning::Object(body), Meaning::Object(second)) => {
                same_spellings(body.as_slice(), second.as_slice())
            }
            (
                Meaning::Function { params, body },
                Meaning::Function {
                    params: second_params,
                    body: second,
                },
            ) => {
                same_names(params.as_slice(), second_params.as_slice())
                    && same_spellings(body.as_slice(), second.as_slice())
            }
            _ => false,
        }
    }
}
