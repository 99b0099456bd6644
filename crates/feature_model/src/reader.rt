//! The reader of a constraint's tokens. Its open groups stand on a stack of its own.
ghost use Rattle.std.specs.Prelude.{◌≡◌, ◌++◌, if◌then◌else◌, None, ℕ, Bool, List, String, Some, [], ◌∷◌, All, IfOk, IfSome, option_map, map, length, ◌≤◌};
ghost use Rattle.feature_model.specs.Reading.{at_start, at_sides, no_sides, truths, whole, placed, closed, wanted, reading_behind, next, finished, read};
ghost use Rattle.std.specs.declared.alloc.Global.{Global};
ghost use Rattle.feature_model.specs.Tokens.{Mark};
ghost use Rattle.feature_model.specs.declared.signs.Sign.TheVariants.{Or, Implies, Equals};
ghost use Rattle.feature_model.specs.View.{token_view};
ghost use Rattle.feature_model.specs.ReaderView.{value_in, chain_view, sides_view, wanting_view, place_view, outer_view, reader_view};
ghost use Rattle.feature_model.specs.Bounds.{IsBelow, SidesBelow, WantingBelow, HasBelow, PlaceBelow, ReaderBelow};

use crate::connectives::{
    chained_by_equals, implied, inverted, joined_by_and, joined_by_or, named,
};
use crate::signs::Sign;
use crate::tokens::Token;
use cond_formula::{Formula, NoMemory};
use std::alloc::Global;
use std::collections::VecDeque;

/// Left sides that wait for their right sides.
#[derive(Drop)]
pub struct Sides {
    /// of `<->`, the first one first
    pub same: VecDeque<Formula>,
    /// of `->`, the first one first
    pub premises: Vec<Formula>,
    /// of `||`
    pub any: Option<Formula>,
}

/// What waits for an operand.
#[derive(Drop)]
pub struct Wanting {
    pub sides: Sides,
    /// a left side of `&&`
    pub all: Option<Formula>,
    /// whether an odd number of `!` stand before the operand
    pub inverted: bool,
}

/// An operand is wanted, or conjuncts are there.
#[derive(Drop)]
pub enum Place {
    Wants(Wanting),
    Has(Sides, Formula),
}

/// The place in the innermost group, and what waits for each open group, the innermost last.
#[derive(Drop)]
pub struct Reader {
    pub place: Place,
    pub outer: Vec<Wanting>,
}

fn no_sides(alloc: Global) -> Sides
    ensures empty { (on : ℕ → Bool) → sides_view on result ≡ no_sides }
    ensures below { (count : ℕ) → SidesBelow count result }
{
    Sides {
        same: VecDeque::new(alloc),
        premises: Vec::new(alloc),
        any: None,
    }
}

fn at_operand(sides: Sides, outer: Vec<Wanting>) -> Reader
    ensures value { (features : List (String Global)) (on : ℕ → Bool) → reader_view on result ≡ at_sides (truths features on) (sides_view on sides) (outer_view on outer) }
    ensures below { (count : ℕ) → SidesBelow count sides → All (WantingBelow count) outer.items → ReaderBelow count result }
{
    Reader {
        place: Place::Wants(Wanting {
            sides,
            all: None,
            inverted: false,
        }),
        outer,
    }
}

fn with_operand(
    mut same: VecDeque<Formula>,
    operand: Formula,
) -> Result<VecDeque<Formula>, NoMemory>
    ensures { IfOk result (λ longer. longer.items ≡ same.items ++ operand ∷ []) }
{
    same.push_back(operand)?;
    Ok(same)
}

/// The operands of `<->` in a group, with the last one.
fn operands(alloc: Global, sides: Sides, last: Formula) -> Result<VecDeque<Formula>, NoMemory>
    ensures value { (features : List (String Global)) (on : ℕ → Bool) → IfOk result (λ all. chain_view (map (value_in on) all.items) ≡ Some (whole (truths features on) (sides_view on sides) (value_in on last))) }
    ensures below { (count : ℕ) → HasBelow count sides last → IfOk result (λ all. All (IsBelow count) all.items) }
{
    let Sides {
        same,
        premises,
        any,
    } = sides;
    let conclusion = joined_by_or(alloc, any, last)?;
    let operand = implied(alloc, premises, conclusion)?;
    let all = with_operand(same, operand)?;
    Ok(all)
}

/// All that waits in a group, with its last conjuncts.
fn whole(alloc: Global, sides: Sides, last: Formula) -> Result<Formula, NoMemory>
    ensures value { (features : List (String Global)) (on : ℕ → Bool) → IfOk result (λ f. value_in on f ≡ whole (truths features on) (sides_view on sides) (value_in on last)) }
    ensures below { (count : ℕ) → HasBelow count sides last → IfOk result (IsBelow count) }
{
    let all = operands(alloc, sides, last)?;
    let formula = chained_by_equals(alloc, all)?;
    Ok(formula)
}

/// With an operand where one was wanted.
fn placed(
    alloc: Global,
    waits: Wanting,
    outer: Vec<Wanting>,
    operand: Formula,
) -> Result<Reader, NoMemory>
    ensures value { (features : List (String Global)) (on : ℕ → Bool) → IfOk result (λ r. reader_view on r ≡ placed (truths features on) (wanting_view on waits) (outer_view on outer) (value_in on operand)) }
    ensures below { (count : ℕ) → WantingBelow count waits → All (WantingBelow count) outer.items → IsBelow count operand → IfOk result (ReaderBelow count) }
{
    let Wanting {
        sides,
        all,
        inverted: is_inverted,
    } = waits;
    let operand = inverted(alloc, is_inverted, operand)?;
    let last = joined_by_and(alloc, all, operand)?;
    Ok(Reader {
        place: Place::Has(sides, last),
        outer,
    })
}

fn opened(mut outer: Vec<Wanting>, waits: Wanting) -> Result<Vec<Wanting>, NoMemory>
    ensures value { (on : ℕ → Bool) → IfOk result (λ deeper. outer_view on deeper ≡ wanting_view on waits ∷ outer_view on outer) }
    ensures below { (count : ℕ) → WantingBelow count waits → All (WantingBelow count) outer.items → IfOk result (λ deeper. All (WantingBelow count) deeper.items) }
{
    outer.push(waits)?;
    Ok(outer)
}

fn with_premise(mut premises: Vec<Formula>, premise: Formula) -> Result<Vec<Formula>, NoMemory>
    ensures value { (on : ℕ → Bool) → IfOk result (λ longer. map (value_in on) longer.items ≡ map (value_in on) premises.items ++ value_in on premise ∷ []) }
    ensures below { (count : ℕ) → All (IsBelow count) premises.items → IsBelow count premise → IfOk result (λ longer. All (IsBelow count) longer.items) }
{
    premises.push(premise)?;
    Ok(premises)
}

fn closed(
    alloc: Global,
    mut outer: Vec<Wanting>,
    operand: Formula,
) -> Result<Option<Reader>, NoMemory>
    ensures value { (features : List (String Global)) (on : ℕ → Bool) → IfOk result (λ r. option_map (reader_view on) r ≡ closed (truths features on) (outer_view on outer) (value_in on operand)) }
    ensures below { (count : ℕ) → All (WantingBelow count) outer.items → IsBelow count operand → IfOk result (λ r. IfSome r (ReaderBelow count)) }
{
    match outer.pop() {
        None => Ok(None),
        Some(waits) => {
            let reader = placed(alloc, waits, outer, operand)?;
            Ok(Some(reader))
        }
    }
}

fn wanted_sign(
    alloc: Global,
    waits: Wanting,
    outer: Vec<Wanting>,
    sign: Sign,
) -> Result<Option<Reader>, NoMemory>
    ensures value { (features : List (String Global)) (on : ℕ → Bool) → IfOk result (λ r. option_map (reader_view on) r ≡ wanted (truths features on) (wanting_view on waits) (outer_view on outer) (Mark sign)) }
    ensures below { (count : ℕ) → WantingBelow count waits → All (WantingBelow count) outer.items → IfOk result (λ r. IfSome r (ReaderBelow count)) }
{
    match sign {
        Sign::Not => {
            let Wanting {
                sides,
                all,
                inverted,
            } = waits;
            let waits = Wanting {
                sides,
                all,
                inverted: !inverted,
            };
            Ok(Some(Reader {
                place: Place::Wants(waits),
                outer,
            }))
        }
        Sign::Opens => {
            let outer = opened(outer, waits)?;
            Ok(Some(at_operand(no_sides(alloc), outer)))
        }
        _ => Ok(None),
    }
}

fn wanted(
    alloc: Global,
    features: &[String],
    waits: Wanting,
    outer: Vec<Wanting>,
    token: &Token,
) -> Result<Option<Reader>, NoMemory>
    requires { length features.now ≤ 128 }
    ensures value { (on : ℕ → Bool) → IfOk result (λ r. option_map (reader_view on) r ≡ wanted (truths features.now on) (wanting_view on waits) (outer_view on outer) (token_view token.now)) }
    ensures below { WantingBelow (length features.now) waits → All (WantingBelow (length features.now)) outer.items → IfOk result (λ r. IfSome r (ReaderBelow (length features.now))) }
{
    match token {
        Token::Name(name) => {
            let reader = placed(alloc, waits, outer, named(features, name))?;
            Ok(Some(reader))
        }
        Token::Sign(sign) => {
            let reader = wanted_sign(alloc, waits, outer, *sign)?;
            Ok(reader)
        }
    }
}

fn behind_or(
    alloc: Global,
    sides: Sides,
    last: Formula,
    outer: Vec<Wanting>,
) -> Result<Reader, NoMemory>
    ensures value { (features : List (String Global)) (on : ℕ → Bool) → IfOk result (λ r. Some (reader_view on r) ≡ reading_behind (truths features on) (sides_view on sides) (value_in on last) (outer_view on outer) (Mark Or)) }
    ensures below { (count : ℕ) → HasBelow count sides last → All (WantingBelow count) outer.items → IfOk result (ReaderBelow count) }
{
    let Sides {
        same,
        premises,
        any,
    } = sides;
    let any = joined_by_or(alloc, any, last)?;
    Ok(at_operand(
        Sides {
            same,
            premises,
            any: Some(any),
        },
        outer,
    ))
}

fn behind_implies(
    alloc: Global,
    sides: Sides,
    last: Formula,
    outer: Vec<Wanting>,
) -> Result<Reader, NoMemory>
    ensures value { (features : List (String Global)) (on : ℕ → Bool) → IfOk result (λ r. Some (reader_view on r) ≡ reading_behind (truths features on) (sides_view on sides) (value_in on last) (outer_view on outer) (Mark Implies)) }
    ensures below { (count : ℕ) → HasBelow count sides last → All (WantingBelow count) outer.items → IfOk result (ReaderBelow count) }
{
    let Sides {
        same,
        premises,
        any,
    } = sides;
    let premise = joined_by_or(alloc, any, last)?;
    let premises = with_premise(premises, premise)?;
    Ok(at_operand(
        Sides {
            same,
            premises,
            any: None,
        },
        outer,
    ))
}

fn behind_equals(
    alloc: Global,
    sides: Sides,
    last: Formula,
    outer: Vec<Wanting>,
) -> Result<Reader, NoMemory>
    ensures value { (features : List (String Global)) (on : ℕ → Bool) → IfOk result (λ r. Some (reader_view on r) ≡ reading_behind (truths features on) (sides_view on sides) (value_in on last) (outer_view on outer) (Mark Equals)) }
    ensures below { (count : ℕ) → HasBelow count sides last → All (WantingBelow count) outer.items → IfOk result (ReaderBelow count) }
{
    let same = operands(alloc, sides, last)?;
    Ok(at_operand(
        Sides {
            same,
            premises: Vec::new(alloc),
            any: None,
        },
        outer,
    ))
}

fn behind_sign(
    alloc: Global,
    sides: Sides,
    last: Formula,
    outer: Vec<Wanting>,
    sign: Sign,
) -> Result<Option<Reader>, NoMemory>
    ensures value { (features : List (String Global)) (on : ℕ → Bool) → IfOk result (λ r. option_map (reader_view on) r ≡ reading_behind (truths features on) (sides_view on sides) (value_in on last) (outer_view on outer) (Mark sign)) }
    ensures below { (count : ℕ) → HasBelow count sides last → All (WantingBelow count) outer.items → IfOk result (λ r. IfSome r (ReaderBelow count)) }
{
    match sign {
        Sign::And => {
            let waits = Wanting {
                sides,
                all: Some(last),
                inverted: false,
            };
            Ok(Some(Reader {
                place: Place::Wants(waits),
                outer,
            }))
        }
        Sign::Or => {
            let reader = behind_or(alloc, sides, last, outer)?;
            Ok(Some(reader))
        }
        Sign::Implies => {
            let reader = behind_implies(alloc, sides, last, outer)?;
            Ok(Some(reader))
        }
        Sign::Equals => {
            let reader = behind_equals(alloc, sides, last, outer)?;
            Ok(Some(reader))
        }
        Sign::Closes => {
            let operand = whole(alloc, sides, last)?;
            let reader = closed(alloc, outer, operand)?;
            Ok(reader)
        }
        _ => Ok(None),
    }
}

fn behind(
    alloc: Global,
    sides: Sides,
    last: Formula,
    outer: Vec<Wanting>,
    token: &Token,
) -> Result<Option<Reader>, NoMemory>
    ensures value { (features : List (String Global)) (on : ℕ → Bool) → IfOk result (λ r. option_map (reader_view on) r ≡ reading_behind (truths features on) (sides_view on sides) (value_in on last) (outer_view on outer) (token_view token.now)) }
    ensures below { (count : ℕ) → HasBelow count sides last → All (WantingBelow count) outer.items → IfOk result (λ r. IfSome r (ReaderBelow count)) }
{
    match token {
        Token::Name(_) => Ok(None),
        Token::Sign(sign) => {
            let reader = behind_sign(alloc, sides, last, outer, *sign)?;
            Ok(reader)
        }
    }
}

fn no_formula(_waits: Wanting) -> Option<Formula>
    ensures { result ≡ None }
{
    None
}

fn outermost(
    alloc: Global,
    sides: Sides,
    last: Formula,
    is_outermost: bool,
) -> Result<Option<Formula>, NoMemory>
    ensures value { (features : List (String Global)) (on : ℕ → Bool) → IfOk result (λ f. option_map (value_in on) f ≡ (if is_outermost then Some (whole (truths features on) (sides_view on sides) (value_in on last)) else None)) }
    ensures below { (count : ℕ) → HasBelow count sides last → IfOk result (λ f. IfSome f (IsBelow count)) }
{
    if is_outermost {
        let formula = whole(alloc, sides, last)?;
        return Ok(Some(formula));
    }
    Ok(None)
}

impl Reader {
    /// Takes one token more; none where no constraint goes on like this.
    fn take(
        self,
        alloc: Global,
        features: &[String],
        token: &Token,
    ) -> Result<Option<Reader>, NoMemory>
        requires { length features.now ≤ 128 }
        ensures value { (on : ℕ → Bool) → IfOk result (λ r. option_map (reader_view on) r ≡ next (truths features.now on) (place_view on self.place) (outer_view on self.outer) (token_view token.now)) }
        ensures below { PlaceBelow (length features.now) self.place → All (WantingBelow (length features.now)) self.outer.items → IfOk result (λ r. IfSome r (ReaderBelow (length features.now))) }
    {
        let Reader { place, outer } = self;
        match place {
            Place::Wants(waits) => {
                let reader = wanted(alloc, features, waits, outer, token)?;
                Ok(reader)
            }
            Place::Has(sides, last) => {
                let reader = behind(alloc, sides, last, outer, token)?;
                Ok(reader)
            }
        }
    }

    /// The formula of the constraint, if it ends here.
    fn end(self, alloc: Global) -> Result<Option<Formula>, NoMemory>
        ensures value { (features : List (String Global)) (on : ℕ → Bool) → IfOk result (λ f. option_map (value_in on) f ≡ finished (truths features on) (place_view on self.place) (outer_view on self.outer)) }
        ensures below { (count : ℕ) → PlaceBelow count self.place → IfOk result (λ f. IfSome f (IsBelow count)) }
    {
        let Reader { place, outer } = self;
        match place {
            Place::Wants(waits) => Ok(no_formula(waits)),
            Place::Has(sides, last) => {
                let formula = outermost(alloc, sides, last, outer.is_empty())?;
                Ok(formula)
            }
        }
    }
}

/// The formula of the tokens, if they are those of a constraint. A name that no feature has is false.
pub fn formula_of(
    alloc: Global,
    features: &[String],
    tokens: &[Token],
) -> Result<Option<Formula>, NoMemory>
    requires { length features.now ≤ 128 }
    ensures value { (on : ℕ → Bool) → IfOk result (λ f. option_map (value_in on) f ≡ read (truths features.now on) (at_start (truths features.now on)) (map token_view tokens.now)) }
    ensures below { IfOk result (λ f. IfSome f (IsBelow (length features.now))) }
{
    let mut reader = at_operand(no_sides(alloc), Vec::new(alloc));
    for token in tokens {
        let taken = reader.take(alloc, features, token)?;
        match taken {
            Some(next) => reader = next,
            None => return Ok(None),
        }
    }
    let formula = reader.end(alloc)?;
    Ok(formula)
}
