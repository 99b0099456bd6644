//! The tests of an expression whether a macro is defined (6.10.1).
ghost use Rattle.std.specs.Prelude.{◌≡◌, ℕ, ◌∷◌, List, map, IfOk, is_some, None, if◌then◌else◌};
ghost use Rattle.std.specs.Option.{option_map};
ghost use Rattle.c_text.specs.Token.{PlainToken, plain_token};
ghost use Rattle.c_text.specs.Macros;
ghost use Rattle.c_text.specs.Preprocessing as spec;
ghost use Rattle.plain_macros.specs.PlainTables.{table_of};
ghost use Rattle.plain_pp.specs.Tests.{with_tokens, tested_with};

use c_text::{Token, TokenKind};
use cond_formula::NoMemory;
use plain_macros::Table;
use std::alloc::Global;
use unit_files::{is_spelled, test_behind};

/// Tokens of an expression up to a place.
#[derive(Drop)]
pub struct Tested {
    pub tokens: Vec<Token>,
    /// How many tokens from there on belong to a test.
    pub more: usize,
}

/// Whether the name stands for something.
pub fn is_defined(table: &Table, name: &Token) -> bool
    ensures { result ≡ is_some (table_of table.now (plain_token name.now).text) }
{
    table.get(name.text.as_slice()).is_some()
}

fn digit(alloc: Global, truth: bool) -> Result<Vec<u8>, NoMemory>
    ensures { IfOk result (λ text. text.items ≡ spec.digit truth) }
{
    let text = if truth { b"1" } else { b"0" };
    Ok(Vec::from_slice(alloc, text)?)
}

/// What stands in place of a `defined` and its test.
fn test_token(alloc: Global, table: &Table, token: &Token, name: &Token) -> Result<Token, NoMemory>
    ensures { IfOk result (λ t. (length : ℕ) → plain_token t ≡ spec.tested (table_of table.now) (plain_token token.now) (record { name = plain_token name.now; length = length })) }
{
    Ok(Token {
        kind: TokenKind::Number,
        text: digit(alloc, is_defined(table, name))?,
        joined: token.joined,
        origin: token.origin,
    })
}

impl Tested {
    fn new(alloc: Global) -> Self
        ensures { (table : Macros.Table) (tokens : List PlainToken) → tested_with table result tokens ≡ spec.tests_replaced table 0 tokens }
    {
        Self {
            tokens: Vec::new(alloc),
            more: 0,
        }
    }

    /// Goes on with a `defined`, where these tokens stand behind it, and answers whether they begin
    /// with what it tests.
    fn take_defined(
        &mut self,
        alloc: Global,
        table: &Table,
        token: &Token,
        rest: &[Token],
    ) -> Result<bool, NoMemory>
        ensures { IfOk result (λ good. with_tokens (map plain_token self.old.tokens.items) (spec.by_test (table_of table.now) (plain_token token.now) (spec.test_at (map plain_token rest.now)) (λ more. spec.tests_replaced (table_of table.now) more (map plain_token rest.now))) ≡ (if good then tested_with (table_of table.now) self.new (map plain_token rest.now) else None)) }
    {
        let Some(test) = test_behind(rest) else {
            return Ok(false);
        };
        self.tokens
            .push(test_token(alloc, table, token, test.name)?)?;
        self.more = test.length;
        Ok(true)
    }

    /// Goes on with a token, where these stand behind it, and answers whether it isn't a `defined`
    /// without what it tests.
    fn take(
        &mut self,
        alloc: Global,
        table: &Table,
        token: &Token,
        rest: &[Token],
    ) -> Result<bool, NoMemory>
        ensures { IfOk result (λ good. tested_with (table_of table.now) self.old (plain_token token.now ∷ map plain_token rest.now) ≡ (if good then tested_with (table_of table.now) self.new (map plain_token rest.now) else None)) }
    {
        if self.more > 0 {
            self.more -= 1;
            return Ok(true);
        }
        if is_spelled(b"defined", token) {
            return Ok(self.take_defined(alloc, table, token, rest)?);
        }
        self.tokens.push(token.try_clone(alloc)?)?;
        Ok(true)
    }
}

/// The tokens of an expression with its tests replaced by `1` and `0`, unless a `defined` stands
/// there without what it tests.
pub fn tests_replaced(
    alloc: Global,
    table: &Table,
    tokens: &[Token],
) -> Result<Option<Vec<Token>>, NoMemory>
    ensures { IfOk result (λ replaced. option_map (λ ts. map plain_token ts.items) replaced ≡ spec.tests_replaced (table_of table.now) 0 (map plain_token tokens.now)) }
{
    let mut tested = Tested::new(alloc);
    for (i, token) in tokens.iter().enumerate() {
        let (_, rest) = tokens.split_at(i + 1);
        if !tested.take(alloc, table, token, rest)? {
            return Ok(None);
        }
    }
    Ok(Some(tested.tokens))
}
