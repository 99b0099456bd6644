//! The reader of an expression's tokens. What waits for an operand stands on a stack of its own.
ghost use Rattle.std.specs.Prelude.{◌≡◌, ◌∷◌, map, reverse, option_map, IfOk, IsTrue};
ghost use Rattle.c_text.specs.Token.{plain_token};
ghost use Rattle.c_text.specs.Expressions.{Word, word_of};
ghost use Rattle.pp_lines.specs.ExpressionReading as reading;
ghost use Rattle.pp_lines.specs.ExpressionReading.{outcomes, at_start};
ghost use Rattle.pp_lines.specs.ExpressionView.{outcome_view, pending_view, waits_view, reader_view, sign_view, with_value, opening, taker};

use crate::expressions::operands::operand_of;
use crate::expressions::operators::{Binary, Unary, unary_of};
use crate::expressions::outcomes::Outcome;
use crate::expressions::signs::{Sign, sign_of};
use c_text::{Token, TokenKind};
use cond_formula::NoMemory;
use std::alloc::Global;

/// What waits for its last operand.
#[derive(Clone, Copy)]
pub enum Pending {
    /// An open parenthesis.
    Opened,
    Prefixed(Unary),
    /// A left operand with its operator.
    Joined(Outcome, Binary),
    /// The first operand of `?`.
    Asked(Outcome),
    /// The first two operands of `?` and `:`.
    Parted(Outcome, Outcome),
}

impl Pending {
    /// How tightly it holds its last operand; 0 where only a sign of its own ends that.
    fn level(self) -> u32
        ensures { result ≡ reading.pending_level (pending_view self) }
    {
        match self {
            Pending::Opened | Pending::Asked(_) => 0,
            Pending::Prefixed(_) => 12,
            Pending::Joined(_, operator) => operator.level(),
            Pending::Parted(_, _) => 1,
        }
    }

    fn completed(self, last: Outcome) -> Outcome
        ensures { outcome_view result ≡ reading.completed outcomes (pending_view self) (outcome_view last) }
    {
        match self {
            Pending::Opened | Pending::Asked(_) => last,
            Pending::Prefixed(operator) => last.behind_unary(operator),
            Pending::Joined(left, operator) => left.connected(operator, last),
            Pending::Parted(test, first) => test.choosing(first, last),
        }
    }
}

/// An expression that is read token by token: the operand before the place, if one stands there, and what waits, the innermost
/// last.
#[derive(Drop)]
pub struct ExpressionReader {
    pub(crate) last: Option<Outcome>,
    pub(crate) waits: Vec<Pending>,
}

/// The innermost that waits, if it takes the operand before a sign of this level.
fn taker(level: u32, waits: &[Pending]) -> Option<Pending>
    ensures { option_map pending_view result ≡ taker level (reverse (map pending_view waits.now)) }
{
    let pending = *waits.last()?;
    if level <= pending.level() {
        Some(pending)
    } else {
        None
    }
}

/// An operand, once all that holds it this tightly has taken it.
fn settled(level: u32, mut last: Outcome, mut waits: Vec<Pending>) -> ExpressionReader
    ensures { reader_view result ≡ reading.settled outcomes level (outcome_view last) (waits_view waits) }
{
    while let Some(pending) = taker(level, waits.as_slice()) {
        waits.pop();
        last = pending.completed(last);
    }
    ExpressionReader {
        last: Some(last),
        waits,
    }
}

fn wanting(pending: Pending, mut waits: Vec<Pending>) -> Result<Option<ExpressionReader>, NoMemory>
    ensures { IfOk result (λ r. option_map reader_view r ≡ reading.wanting (pending_view pending ∷ waits_view waits)) }
{
    waits.push(pending)?;
    Ok(Some(ExpressionReader { last: None, waits }))
}

/// What begins to wait at a punctuator that stands where an operand is wanted.
fn opening(text: &[u8]) -> Option<Pending>
    ensures { option_map pending_view result ≡ opening (reading.front_mark text.now) }
{
    if b"(".as_slice() == text {
        return Some(Pending::Opened);
    }
    let operator = unary_of(text)?;
    Some(Pending::Prefixed(operator))
}

fn at_mark(text: &[u8], waits: Vec<Pending>) -> Result<Option<ExpressionReader>, NoMemory>
    ensures { (word : Word) → IfOk result (λ r. option_map reader_view r ≡ reading.at_front outcomes (reading.front_mark text.now) word (waits_view waits)) }
{
    match opening(text) {
        Some(pending) => wanting(pending, waits),
        None => Ok(None),
    }
}

fn with_value(value: Option<i64>, waits: Vec<Pending>) -> Option<ExpressionReader>
    ensures { option_map reader_view result ≡ with_value value (waits_view waits) }
{
    match value {
        Some(value) => Some(ExpressionReader {
            last: Some(Outcome::of_operand(value)),
            waits,
        }),
        None => None,
    }
}

fn at_front(
    alloc: Global,
    token: &Token,
    waits: Vec<Pending>,
) -> Result<Option<ExpressionReader>, NoMemory>
    ensures { IfOk result (λ r. option_map reader_view r ≡ reading.at_front outcomes (reading.front_of token.now.kind token.now.text.items) (word_of (plain_token token.now)) (waits_view waits)) }
{
    match token.kind {
        TokenKind::Punctuator => at_mark(token.text.as_slice(), waits),
        _ => {
            let value = operand_of(alloc, token)?;
            Ok(with_value(value, waits))
        }
    }
}

fn at_colon(last: Outcome, mut waits: Vec<Pending>) -> Result<Option<ExpressionReader>, NoMemory>
    ensures { IfOk result (λ r. option_map reader_view r ≡ reading.at_colon (outcome_view last) (waits_view waits)) }
{
    match waits.pop() {
        Some(Pending::Asked(test)) => wanting(Pending::Parted(test, last), waits),
        _ => Ok(None),
    }
}

fn at_close(last: Outcome, mut waits: Vec<Pending>) -> Option<ExpressionReader>
    ensures { option_map reader_view result ≡ reading.at_close outcomes (outcome_view last) (waits_view waits) }
{
    match waits.pop() {
        Some(Pending::Opened) => Some(ExpressionReader {
            last: Some(last.in_group()),
            waits,
        }),
        _ => None,
    }
}

fn with_sign(
    sign: Sign,
    last: Outcome,
    waits: Vec<Pending>,
) -> Result<Option<ExpressionReader>, NoMemory>
    ensures { IfOk result (λ r. option_map reader_view r ≡ reading.with_sign outcomes (sign_view sign) (outcome_view last) (waits_view waits)) }
{
    match sign {
        Sign::Connects(operator) => wanting(Pending::Joined(last, operator), waits),
        Sign::Asks => wanting(Pending::Asked(last), waits),
        Sign::Parts => at_colon(last, waits),
        Sign::Closes => Ok(at_close(last, waits)),
        Sign::Ends => Ok(None),
    }
}

/// A sign behind what is settled.
fn behind(sign: Sign, reader: ExpressionReader) -> Result<Option<ExpressionReader>, NoMemory>
    ensures { IfOk result (λ r. option_map reader_view r ≡ reading.place_behind outcomes (sign_view sign) (reader_view reader)) }
{
    let ExpressionReader { last, waits } = reader;
    match last {
        Some(last) => with_sign(sign, last, waits),
        None => Ok(None),
    }
}

fn if_alone(reader: ExpressionReader) -> Option<Outcome>
    ensures { option_map outcome_view result ≡ reading.whole (reader_view reader) }
{
    if reader.waits.is_empty() {
        reader.last
    } else {
        None
    }
}

fn same_last(last: Option<Outcome>, other: Option<Outcome>) -> bool
    ensures { IsTrue result → last ≡ other }
{
    last == other
}

fn same_unary(operator: Unary, other: Unary) -> bool
    ensures { IsTrue result → operator ≡ other }
{
    operator == other
}

fn same_binary(operator: Binary, other: Binary) -> bool
    ensures { IsTrue result → operator ≡ other }
{
    operator == other
}

fn same_pending(pending: Pending, other: Pending) -> bool
    ensures { IsTrue result → pending ≡ other }
{
    match pending {
        Pending::Opened => matches!(other, Pending::Opened),
        Pending::Prefixed(operator) => match other {
            Pending::Prefixed(another) => same_unary(operator, another),
            _ => false,
        },
        Pending::Joined(left, operator) => match other {
            Pending::Joined(first, another) => left == first && same_binary(operator, another),
            _ => false,
        },
        Pending::Asked(test) => match other {
            Pending::Asked(another) => test == another,
            _ => false,
        },
        Pending::Parted(test, first) => match other {
            Pending::Parted(another, second) => test == another && first == second,
            _ => false,
        },
    }
}

fn same_waits(waits: &[Pending], others: &[Pending]) -> bool
    ensures { IsTrue result → map pending_view waits.now ≡ map pending_view others.now }
{
    if waits.len() != others.len() {
        return false;
    }
    for (i, pending) in waits.iter().enumerate() {
        if !same_pending(*pending, others[i]) {
            return false;
        }
    }
    true
}

impl ExpressionReader {
    /// Before the first token.
    pub fn start(alloc: Global) -> ExpressionReader
        ensures { reader_view result ≡ at_start }
    {
        ExpressionReader {
            last: None,
            waits: Vec::new(alloc),
        }
    }

    /// Takes one token more; none where no expression goes on like this.
    pub fn take(self, alloc: Global, token: &Token) -> Result<Option<ExpressionReader>, NoMemory>
        ensures { IfOk result (λ r. option_map reader_view r ≡ reading.next outcomes (reader_view self).last (reader_view self).waits (word_of (plain_token token.now))) }
    {
        let ExpressionReader { last, waits } = self;
        match last {
            None => at_front(alloc, token, waits),
            Some(last) => {
                let sign = sign_of(token);
                behind(sign, settled(sign.level(), last, waits))
            }
        }
    }

    /// The outcome of the expression, if it ends here.
    pub(crate) fn end(self) -> Option<Outcome>
        ensures { option_map outcome_view result ≡ reading.finished outcomes (reader_view self).last (reader_view self).waits }
    {
        let ExpressionReader { last, waits } = self;
        match last {
            None => None,
            Some(last) => if_alone(settled(1, last, waits)),
        }
    }

    /// The same place once more.
    pub fn try_clone(&self, alloc: Global) -> Result<ExpressionReader, NoMemory>
        ensures { IfOk result (λ r. reader_view r ≡ reader_view self.now) }
    {
        Ok(ExpressionReader {
            last: self.last,
            waits: Vec::from_slice(alloc, self.waits.as_slice())?,
        })
    }

    /// Whether both are at the same place, so that they read alike whatever comes.
    pub fn is_same(&self, other: &ExpressionReader) -> bool
        ensures { IsTrue result → reader_view self.now ≡ reader_view other.now }
    {
        same_last(self.last, other.last) && same_waits(&self.waits, &other.waits)
    }
}

/// The outcome of the expression that the tokens are, if they are one.
pub fn outcome_of(alloc: Global, tokens: &[Token]) -> Result<Option<Outcome>, NoMemory>
    ensures { IfOk result (λ o. option_map outcome_view o ≡ reading.read outcomes at_start (map word_of (map plain_token tokens.now))) }
{
    let mut reader = ExpressionReader::start(alloc);
    for token in tokens {
        match reader.take(alloc, token)? {
            Some(next) => reader = next,
            None => return Ok(None),
        }
    }
    Ok(reader.end())
}
