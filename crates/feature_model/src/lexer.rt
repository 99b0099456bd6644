//! A text, byte by byte, as tokens.
ghost use Rattle.std.specs.Prelude.{◌≡◌, ◌++◌, [], ◌∷◌, IfOk, option_map};
ghost use Rattle.feature_model.specs.Bytes.{in_word, started, moved, ended, tokens_of};
ghost use Rattle.feature_model.specs.View.{token_view, begun_view, lexer_view, tokens_view};

use crate::signs::{Front, Start, next_of, start_of};
use crate::tokens::Token;
use c_names::is_word_byte;
use cond_formula::NoMemory;
use std::alloc::Global;

/// The token that the bytes so far begin.
#[derive(Drop)]
pub enum Begun {
    Nothing,
    Word(Vec<u8>),
    Front(Front),
}

/// The tokens so far, and what is begun.
#[derive(Drop)]
pub struct Lexer {
    pub tokens: Vec<Token>,
    pub begun: Begun,
}

fn with_token(mut tokens: Vec<Token>, token: Token) -> Result<Vec<Token>, NoMemory>
    ensures { IfOk result (λ longer. tokens_view longer ≡ tokens_view tokens ++ token_view token ∷ []) }
{
    tokens.push(token)?;
    Ok(tokens)
}

fn with_byte(mut word: Vec<u8>, byte: u8) -> Result<Vec<u8>, NoMemory>
    ensures { IfOk result (λ longer. longer.items ≡ word.items ++ byte ∷ []) }
{
    word.push(byte)?;
    Ok(word)
}

fn begun_word(alloc: Global, byte: u8) -> Result<Vec<u8>, NoMemory>
    ensures { IfOk result (λ begun. begun.items ≡ byte ∷ []) }
{
    with_byte(Vec::new(alloc), byte)
}

/// Goes on with what a byte begins.
fn start(
    alloc: Global,
    tokens: Vec<Token>,
    byte: u8,
    begins: Start,
) -> Result<Option<Lexer>, NoMemory>
    ensures { IfOk result (λ next. option_map lexer_view next ≡ started (tokens_view tokens) byte begins) }
{
    match begins {
        Start::Blank => Ok(Some(Lexer {
            tokens,
            begun: Begun::Nothing,
        })),
        Start::Letter => {
            let word = begun_word(alloc, byte)?;
            Ok(Some(Lexer {
                tokens,
                begun: Begun::Word(word),
            }))
        }
        Start::Whole(sign) => {
            let tokens = with_token(tokens, Token::Sign(sign))?;
            Ok(Some(Lexer {
                tokens,
                begun: Begun::Nothing,
            }))
        }
        Start::Part(front) => Ok(Some(Lexer {
            tokens,
            begun: Begun::Front(front),
        })),
        Start::Nothing => Ok(None),
    }
}

fn after_word(
    alloc: Global,
    tokens: Vec<Token>,
    word: Vec<u8>,
    byte: u8,
) -> Result<Option<Lexer>, NoMemory>
    ensures { IfOk result (λ next. option_map lexer_view next ≡ moved (tokens_view tokens) (in_word word.items) byte) }
{
    if is_word_byte(byte) {
        let word = with_byte(word, byte)?;
        return Ok(Some(Lexer {
            tokens,
            begun: Begun::Word(word),
        }));
    }
    let tokens = with_token(tokens, Token::Name(word))?;
    let next = start(alloc, tokens, byte, start_of(byte))?;
    Ok(next)
}

impl Lexer {
    /// Takes one byte more; none where no text goes on like this.
    fn take(self, alloc: Global, byte: u8) -> Result<Option<Lexer>, NoMemory>
        ensures { IfOk result (λ next. option_map lexer_view next ≡ moved (tokens_view self.tokens) (begun_view self.begun) byte) }
    {
        let Lexer { tokens, begun } = self;
        match begun {
            Begun::Nothing => {
                let next = start(alloc, tokens, byte, start_of(byte))?;
                Ok(next)
            }
            Begun::Word(word) => {
                let next = after_word(alloc, tokens, word, byte)?;
                Ok(next)
            }
            Begun::Front(front) => {
                let next = start(alloc, tokens, byte, next_of(front, byte))?;
                Ok(next)
            }
        }
    }

    /// The tokens of the text, if it ends here.
    fn end(self) -> Result<Option<Vec<Token>>, NoMemory>
        ensures { IfOk result (λ all. option_map tokens_view all ≡ ended (tokens_view self.tokens) (begun_view self.begun)) }
    {
        let Lexer { tokens, begun } = self;
        match begun {
            Begun::Nothing => Ok(Some(tokens)),
            Begun::Word(word) => {
                let tokens = with_token(tokens, Token::Name(word))?;
                Ok(Some(tokens))
            }
            Begun::Front(_) => Ok(None),
        }
    }
}

/// The tokens of a text, if it has any form.
pub fn tokens_of(alloc: Global, text: &[u8]) -> Result<Option<Vec<Token>>, NoMemory>
    ensures { IfOk result (λ all. option_map tokens_view all ≡ tokens_of text.now) }
{
    let mut lexer = Lexer {
        tokens: Vec::new(alloc),
        begun: Begun::Nothing,
    };
    for byte in text {
        match lexer.take(alloc, *byte)? {
            Some(next) => lexer = next,
            None => return Ok(None),
        }
    }
    let all = lexer.end()?;
    Ok(all)
}
