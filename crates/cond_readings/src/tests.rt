//! The tests of an expression whether a macro is defined, in all configurations (6.10.1).
ghost use Rattle.std.specs.Prelude.{◌≡◌, ℕ, ◌∷◌, ◌++◌, [], List, Bool, map, IfOk, OnOk, None, if◌then◌else◌};
ghost use Rattle.std.specs.Option.{option_map};
ghost use Rattle.cond_formula.specs.Features.{has};
ghost use Rattle.cond_formula.specs.Conditions.{condition_of, value};
ghost use Rattle.c_text.specs.declared.token.TokenKind.TheVariants.{Number};
ghost use Rattle.c_text.specs.Token.{PlainToken, plain_token};
ghost use Rattle.c_text.specs.Macros.{Table};
ghost use Rattle.c_text.specs.Preprocessing as spec;
ghost use Rattle.cond_tokens.specs.Streams.{tokens_at};
ghost use Rattle.macro_table.specs.Features.{macros_at};
ghost use Rattle.cond_readings.specs.Tests.{with_front, tested_with};

use c_text::{Token, TokenKind};
use cond_formula::{Formula, NoMemory};
use cond_tokens::CondToken;
use macro_table::Macros;
use std::alloc::Global;
use unit_files::{is_spelled, test_behind};

/// Tokens of an expression up to a place.
#[derive(Drop)]
pub struct Tested {
    pub tokens: Vec<CondToken>,
    /// How many tokens from there on belong to a test.
    pub more: usize,
}

// The digit in place of a `defined` and its test.
fn digit(alloc: Global, token: &Token, text: &[u8]) -> Result<Token, NoMemory>
    ensures { IfOk result (λ t. plain_token t ≡ record (plain_token token.now) { kind = Number; text = text.now }) }
{
    Ok(Token {
        kind: TokenKind::Number,
        text: Vec::from_slice(alloc, text)?,
        joined: token.joined,
        origin: token.origin,
    })
}

// What stands in place of a `defined` and its test: `1` where the condition holds, else `0`.
fn push_test(
    alloc: Global,
    tokens: &mut Vec<CondToken>,
    token: &Token,
    defined: Formula,
) -> Result<(), NoMemory>
    ensures { OnOk result ((on : ℕ → Bool) → tokens_at on tokens.new.items ≡ tokens_at on tokens.old.items ++ record (plain_token token.now) { kind = Number; text = spec.digit (value on (condition_of defined)) } ∷ []) }
{
    let undefined = Formula::not(alloc, defined.try_clone(alloc)?)?;
    let one = digit(alloc, token, b"1")?;
    tokens.push(CondToken {
        token: one,
        when: defined,
    })?;
    let zero = digit(alloc, token, b"0")?;
    tokens.push(CondToken {
        token: zero,
        when: undefined,
    })?;
    Ok(())
}

impl Tested {
    fn new(alloc: Global) -> Self
        ensures { (on : ℕ → Bool) (table : Table) (tokens : List PlainToken) → tested_with on table result tokens ≡ spec.tests_replaced table 0 tokens }
    {
        Self {
            tokens: Vec::new(alloc),
            more: 0,
        }
    }

    // Goes on with a `defined`, where these tokens stand behind it, and answers whether they begin with what it tests.
    fn take_defined(
        &mut self,
        alloc: Global,
        macros: &Macros<'_>,
        token: &Token,
        rest: &[Token],
    ) -> Result<bool, NoMemory>
        ensures { IfOk result (λ good. (c : List Bool) → with_front (tokens_at (has c) self.old.tokens.items) (spec.by_test (macros_at (has c) macros.now) (plain_token token.now) (spec.test_at (map plain_token rest.now)) (λ more. spec.tests_replaced (macros_at (has c) macros.now) more (map plain_token rest.now))) ≡ (if good then tested_with (has c) (macros_at (has c) macros.now) self.new (map plain_token rest.now) else None)) }
    {
        let Some(test) = test_behind(rest) else {
            return Ok(false);
        };
        let defined = macros.when_defined(alloc, test.name.text.as_slice())?;
        push_test(alloc, &mut self.tokens, token, defined)?;
        self.more = test.length;
        Ok(true)
    }

    // One more token, that is no test.
    fn push(&mut self, alloc: Global, token: &Token) -> Result<(), NoMemory>
        ensures tokens { OnOk result ((on : ℕ → Bool) → tokens_at on self.new.tokens.items ≡ tokens_at on self.old.tokens.items ++ plain_token token.now ∷ []) }
        ensures more { self.new.more ≡ self.old.more }
    {
        let token = token.try_clone(alloc)?;
        let when = Formula::True;
        self.tokens.push(CondToken { token, when })?;
        Ok(())
    }

    // Goes on with a token, where these stand behind it, and answers whether it isn't a `defined` without what it tests.
    fn take(
        &mut self,
        alloc: Global,
        macros: &Macros<'_>,
        token: &Token,
        rest: &[Token],
    ) -> Result<bool, NoMemory>
        ensures { IfOk result (λ good. (c : List Bool) → tested_with (has c) (macros_at (has c) macros.now) self.old (plain_token token.now ∷ map plain_token rest.now) ≡ (if good then tested_with (has c) (macros_at (has c) macros.now) self.new (map plain_token rest.now) else None)) }
    {
        if self.more > 0 {
            self.more -= 1;
            return Ok(true);
        }
        if is_spelled(b"defined", token) {
            return Ok(self.take_defined(alloc, macros, token, rest)?);
        }
        self.push(alloc, token)?;
        Ok(true)
    }
}

/// The tokens of an expression with its tests replaced by `1` where the name stands for something and by `0` elsewhere, unless a
/// `defined` stands there without what it tests.
pub fn tests_replaced(
    alloc: Global,
    macros: &Macros<'_>,
    tokens: &[Token],
) -> Result<Option<Vec<CondToken>>, NoMemory>
    ensures { IfOk result (λ replaced. (c : List Bool) → option_map (λ ts. tokens_at (has c) ts.items) replaced ≡ spec.tests_replaced (macros_at (has c) macros.now) 0 (map plain_token tokens.now)) }
{
    let mut tested = Tested::new(alloc);
    for (i, token) in tokens.iter().enumerate() {
        let (_, rest) = tokens.split_at(i + 1);
        if !tested.take(alloc, macros, token, rest)? {
            return Ok(None);
        }
    }
    Ok(Some(tested.tokens))
}
