//! The lines that define macros, and undefine them.
ghost use Rattle.std.specs.Prelude.{◌≡◌, [], map, IfOk, Some};
ghost use Rattle.std.specs.Option.{option_map};
ghost use Rattle.c_text.specs.Token.{plain_token};
ghost use Rattle.c_text.specs.Directives as spec;
ghost use Rattle.pp_lines.specs.PlainDirectives.{plain_directive};
ghost use Rattle.pp_lines.specs.ParameterPlaces.{plain_parameters};

use crate::copies::body_copies;
use crate::forms::Directive;
use crate::parameters::{Parameters, has_repetition, parameters_of};
use crate::words::{has_barred, is_fixed_name, is_spelled, is_word};
use c_text::{Macro, Token};
use cond_formula::NoMemory;
use std::alloc::Global;

fn macro_line(
    alloc: Global,
    bad: bool,
    name: &Token,
    params: Option<Vec<Vec<u8>>>,
    body: &[Token],
) -> Result<Directive, NoMemory>
    ensures { IfOk result (λ d. plain_directive d ≡ spec.macro_line bad (plain_token name.now) (option_map (λ names. map (λ n. n.items) names.items) params) (map plain_token body.now)) }
{
    if bad || is_fixed_name(name) || has_barred(body) {
        return Ok(Directive::BadDefine);
    }
    Ok(Directive::Define(Macro {
        name: Vec::from_slice(alloc, name.text.as_slice())?,
        params,
        body: body_copies(alloc, body)?,
    }))
}

fn with_parameters(
    alloc: Global,
    name: &Token,
    parameters: Parameters<'_>,
) -> Result<Directive, NoMemory>
    ensures { IfOk result (λ d. plain_directive d ≡ spec.function_like (plain_token name.now) (Some (plain_parameters parameters.entry))) }
{
    let bad = parameters.variadic || has_repetition(parameters.names.as_slice());
    let line = macro_line(alloc, bad, name, Some(parameters.names), parameters.body)?;
    Ok(line)
}

/// The tokens are those behind the name and its `(`.
fn function_like(alloc: Global, name: &Token, tokens: &[Token]) -> Result<Directive, NoMemory>
    ensures { IfOk result (λ d. plain_directive d ≡ spec.function_like (plain_token name.now) (spec.parameters_of (map plain_token tokens.now))) }
{
    match parameters_of(alloc, tokens)? {
        Some(parameters) => Ok(with_parameters(alloc, name, parameters)?),
        None => Ok(Directive::Malformed),
    }
}

/// The tokens are those behind the name.
fn definition(alloc: Global, name: &Token, tokens: &[Token]) -> Result<Directive, NoMemory>
    ensures { IfOk result (λ d. plain_directive d ≡ spec.definition (plain_token name.now) (map plain_token tokens.now)) }
{
    match tokens {
        [first, rest @ ..] if is_spelled(b"(", first) && first.joined => {
            Ok(function_like(alloc, name, rest)?)
        }
        _ => Ok(macro_line(alloc, false, name, None, tokens)?),
    }
}

/// A `#define` with these tokens behind it.
pub fn define_line(alloc: Global, tokens: &[Token]) -> Result<Directive, NoMemory>
    ensures { IfOk result (λ d. plain_directive d ≡ spec.by_word spec.definition (map plain_token tokens.now)) }
{
    match tokens {
        [name, rest @ ..] if is_word(name) => Ok(definition(alloc, name, rest)?),
        _ => Ok(Directive::Malformed),
    }
}

fn removal(alloc: Global, name: &Token) -> Result<Directive, NoMemory>
    ensures { IfOk result (λ d. plain_directive d ≡ spec.removal (plain_token name.now) []) }
{
    if is_fixed_name(name) {
        Ok(Directive::BadDefine)
    } else {
        Ok(Directive::Undef(name.try_clone(alloc)?))
    }
}

/// An `#undef` with these tokens behind it.
pub fn undef_line(alloc: Global, tokens: &[Token]) -> Result<Directive, NoMemory>
    ensures { IfOk result (λ d. plain_directive d ≡ spec.by_word spec.removal (map plain_token tokens.now)) }
{
    match tokens {
        [name, ..] if is_word(name) => Ok(removal(alloc, name)?),
        _ => Ok(Directive::Malformed),
    }
}
