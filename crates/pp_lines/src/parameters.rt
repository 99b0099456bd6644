//! The parameters of a function-like macro (6.10.3).
ghost use Rattle.std.specs.Prelude.{◌≡◌, ◌∷◌, false, List, map, IfOk, OnOk};
ghost use Rattle.std.specs.List.{list_any};
ghost use Rattle.std.specs.Option.{option_map};
ghost use Rattle.std.specs.Str.{bytes_eq};
ghost use Rattle.c_text.specs.Token.{PlainToken, plain_token};
ghost use Rattle.c_text.specs.Directives as spec;
ghost use Rattle.pp_lines.specs.ParameterPlaces.{plain_parameters, may_close, is_behind_dots, closes, with_names, reading};

use crate::words::{is_spelled, is_word};
use c_text::Token;
use cond_formula::NoMemory;
use std::alloc::Global;

/// What the parentheses hold, and the tokens behind them.
#[derive(Drop)]
pub struct Parameters<'a> {
    pub names: Vec<Vec<u8>>,
    /// Whether `...` stands last.
    pub variadic: bool,
    pub body: &'a [Token],
}

/// A place between the parentheses.
#[derive(Clone, Copy)]
pub enum Place {
    Beginning,
    /// Behind a comma.
    BeforeName,
    BehindName,
    BehindDots,
    /// Behind a token that may not stand there.
    Nowhere,
}

/// The parameters up to a place.
#[derive(Drop)]
pub struct Reader {
    pub names: Vec<Vec<u8>>,
    pub place: Place,
}

fn may_close(place: Place) -> bool
    ensures { result ≡ may_close place }
{
    matches!(
        place,
        Place::Beginning | Place::BehindName | Place::BehindDots
    )
}

fn is_behind_dots(place: Place) -> bool
    ensures { result ≡ is_behind_dots place }
{
    matches!(place, Place::BehindDots)
}

impl Reader {
    fn new(alloc: Global) -> Reader
        ensures { (tokens : List PlainToken) → reading result tokens ≡ spec.parameters_of tokens }
    {
        Reader {
            names: Vec::new(alloc),
            place: Place::Beginning,
        }
    }

    fn is_closed_by(&self, token: &Token) -> bool
        ensures { result ≡ closes self.now.place (plain_token token.now) }
    {
        may_close(self.place) && is_spelled(b")", token)
    }

    /// Reads a token where a parameter must stand.
    fn read_name(&mut self, alloc: Global, token: &Token) -> Result<(), NoMemory>
        ensures { OnOk result ((rest : List PlainToken) → reading self.new rest ≡ with_names (map (λ name. name.items) self.old.names.items) (spec.at_parameter (plain_token token.now ∷ rest))) }
    {
        if is_spelled(b"...", token) {
            self.place = Place::BehindDots;
        } else if is_word(token) {
            self.names
                .push(Vec::from_slice(alloc, token.text.as_slice())?)?;
            self.place = Place::BehindName;
        } else {
            self.place = Place::Nowhere;
        }
        Ok(())
    }

    /// Reads a token that doesn't close the parentheses.
    fn read(&mut self, alloc: Global, token: &Token) -> Result<(), NoMemory>
        ensures { OnOk result (closes self.old.place (plain_token token.now) ≡ false → (rest : List PlainToken) → reading self.new rest ≡ reading self.old (plain_token token.now ∷ rest)) }
    {
        match self.place {
            Place::Beginning | Place::BeforeName => self.read_name(alloc, token)?,
            Place::BehindName if is_spelled(b",", token) => self.place = Place::BeforeName,
            _ => self.place = Place::Nowhere,
        }
        Ok(())
    }

    /// The parameters, where `)` stands before the tokens.
    fn closed(self, body: &[Token]) -> Parameters<'_>
        ensures { plain_parameters result ≡ spec.parameters (map (λ name. name.items) self.names.items) (is_behind_dots self.place) (map plain_token body.now) }
    {
        Parameters {
            variadic: is_behind_dots(self.place),
            names: self.names,
            body,
        }
    }
}

/// The parameters that stand behind `(`, if the tokens are of the form.
pub fn parameters_of(alloc: Global, tokens: &[Token]) -> Result<Option<Parameters<'_>>, NoMemory>
    ensures { IfOk result (λ p. option_map plain_parameters p ≡ spec.parameters_of (map plain_token tokens.now)) }
{
    let mut reader = Reader::new(alloc);
    for (i, token) in tokens.iter().enumerate() {
        if reader.is_closed_by(token) {
            let (_, body) = tokens.split_at(i + 1);
            return Ok(Some(reader.closed(body)));
        }
        reader.read(alloc, token)?;
    }
    Ok(None)
}

fn is_among(names: &[Vec<u8>], name: &[u8]) -> bool
    ensures { result ≡ list_any (bytes_eq name.now) (map (λ other. other.items) names.now) }
{
    for other in names {
        if name == other.as_slice() {
            return true;
        }
    }
    false
}

/// Whether two of the names are the same.
pub fn has_repetition(names: &[Vec<u8>]) -> bool
    ensures { result ≡ spec.has_repetition (map (λ name. name.items) names.now) }
{
    for (i, name) in names.iter().enumerate() {
        let (_, others) = names.split_at(i + 1);
        if is_among(others, name.as_slice()) {
            return true;
        }
    }
    false
}
