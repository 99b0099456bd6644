//! The directive of a line, by its name.
ghost use Rattle.std.specs.Prelude.{◌≡◌, map, IfOk};
ghost use Rattle.c_text.specs.Token.{plain_token};
ghost use Rattle.c_text.specs.Directives as spec;
ghost use Rattle.pp_lines.specs.PlainDirectives.{plain_directive};

use crate::copies::copies;
use crate::definitions::{define_line, undef_line};
use crate::forms::Directive;
use crate::inclusions::is_inclusion;
use crate::words::{is_spelled, is_word};
use c_text::{Line, Token};
use cond_formula::NoMemory;
use std::alloc::Global;

fn ifdef_line(alloc: Global, tokens: &[Token]) -> Result<Directive, NoMemory>
    ensures { IfOk result (λ d. plain_directive d ≡ spec.by_word (λ token more. spec.ifdef_line token) (map plain_token tokens.now)) }
{
    match tokens {
        [name, ..] if is_word(name) => Ok(Directive::Ifdef(name.try_clone(alloc)?)),
        _ => Ok(Directive::Malformed),
    }
}

fn ifndef_line(alloc: Global, tokens: &[Token]) -> Result<Directive, NoMemory>
    ensures { IfOk result (λ d. plain_directive d ≡ spec.by_word (λ token more. spec.ifndef_line token) (map plain_token tokens.now)) }
{
    match tokens {
        [name, ..] if is_word(name) => Ok(Directive::Ifndef(name.try_clone(alloc)?)),
        _ => Ok(Directive::Malformed),
    }
}

fn include_line(alloc: Global, tokens: &[Token]) -> Result<Directive, NoMemory>
    ensures { IfOk result (λ d. plain_directive d ≡ spec.inclusion (map plain_token tokens.now)) }
{
    if is_inclusion(tokens) {
        Ok(Directive::Include(copies(alloc, tokens)?))
    } else {
        Ok(Directive::Malformed)
    }
}

/// The directive with this name and these tokens behind it.
fn named_directive(alloc: Global, name: &Token, tokens: &[Token]) -> Result<Directive, NoMemory>
    ensures { IfOk result (λ d. plain_directive d ≡ spec.named_directive (plain_token name.now) (map plain_token tokens.now)) }
{
    if is_spelled(b"if", name) {
        Ok(Directive::If(copies(alloc, tokens)?))
    } else if is_spelled(b"ifdef", name) {
        Ok(ifdef_line(alloc, tokens)?)
    } else if is_spelled(b"ifndef", name) {
        Ok(ifndef_line(alloc, tokens)?)
    } else if is_spelled(b"elif", name) {
        Ok(Directive::Elif(copies(alloc, tokens)?))
    } else if is_spelled(b"else", name) {
        Ok(Directive::Else)
    } else if is_spelled(b"endif", name) {
        Ok(Directive::Endif)
    } else if is_spelled(b"define", name) {
        Ok(define_line(alloc, tokens)?)
    } else if is_spelled(b"undef", name) {
        Ok(undef_line(alloc, tokens)?)
    } else if is_spelled(b"include", name) {
        Ok(include_line(alloc, tokens)?)
    } else if is_spelled(b"error", name) {
        Ok(Directive::Error)
    } else {
        Ok(Directive::Malformed)
    }
}

/// What a directive line says, by its tokens, of which the first is its `#`.
pub fn directive(alloc: Global, line: &Line) -> Result<Directive, NoMemory>
    ensures { IfOk result (λ d. plain_directive d ≡ spec.directive_of (map plain_token line.now.tokens.items)) }
{
    match line.tokens.as_slice() {
        [] => Ok(Directive::Malformed),
        [_] => Ok(Directive::Null),
        [_, name, rest @ ..] => Ok(named_directive(alloc, name, rest)?),
    }
}
