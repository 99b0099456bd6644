//! The operands and the signs of a node.
ghost use Rattle.std.specs.Prelude.{◌≡◌, ℕ, Bool, List, get_or, map, IfOk};
ghost use Rattle.c_text.specs.Token.{plain_token};
ghost use Rattle.choice_trees.specs.ChoiceTrees.{semicolon};
ghost use Rattle.conditional.specs.Judgements.{bind};
ghost use Rattle.operand_types.specs.Operators.{loaded_type};
ghost use Rattle.cond_operands.specs.Operands.{Judged, ShowsOperand};
ghost use Rattle.expression_types.specs.Known.{Callable};
ghost use Rattle.expression_types.specs.Reading.{Read, no_outcome, no_expression};
ghost use Rattle.cond_nodes.specs.Reads.{EachRead};

use crate::parts::CondRead;
use c_text::{Origin, Place, Token, TokenKind};
use cond_formula::{Formula, NoMemory};
use cond_operands::{Operands, loaded};
use conditional::Outcomes;
use operand_rules::Refused;
use std::alloc::Global;
use text_edits::Span;

/// No operand in any configuration.
pub fn refused_everywhere(alloc: Global) -> Result<Operands, NoMemory>
    ensures { IfOk result (λ z. (on : ℕ → Bool) → ShowsOperand on no_outcome z) }
{
    let mut all = Outcomes::nothing(alloc);
    all.place(alloc, Formula::True, Err(Refused))?;
    Ok(all)
}

/// The same operand.
pub(crate) fn copied(alloc: Global, a: &Operands) -> Result<Operands, NoMemory>
    ensures { IfOk result (λ z. (on : ℕ → Bool) (x : Judged) → ShowsOperand on x a.now → ShowsOperand on x z) }
{
    let mut all = Outcomes::nothing(alloc);
    all.place_under(alloc, &Formula::True, a)?;
    Ok(all)
}

/// The operand with this number, if there is one.
pub(crate) fn operand(
    alloc: Global,
    operands: &[CondRead],
    number: usize,
) -> Result<Operands, NoMemory>
    ensures { IfOk result (λ z. (on : ℕ → Bool) (callable : ℕ → Callable) (reads : List Read) → EachRead on callable reads operands.now → ShowsOperand on (get_or reads number no_expression).outcome z) }
{
    if number < operands.len() {
        copied(alloc, &operands[number].outcomes)
    } else {
        refused_everywhere(alloc)
    }
}

/// Its value.
pub(crate) fn loaded_operand(
    alloc: Global,
    operands: &[CondRead],
    number: usize,
) -> Result<Operands, NoMemory>
    ensures { IfOk result (λ z. (on : ℕ → Bool) (callable : ℕ → Callable) (reads : List Read) → EachRead on callable reads operands.now → ShowsOperand on (bind (get_or reads number no_expression).outcome (loaded_type semicolon)) z) }
{
    let a = operand(alloc, operands, number)?;
    let x = loaded(alloc, a)?;
    Ok(x)
}

/// A `;` that comes from no text, which stands for a sign where there is none.
pub(crate) fn no_sign(alloc: Global) -> Result<Token, NoMemory>
    ensures { IfOk result (λ t. plain_token t ≡ semicolon) }
{
    let end = Span {
        start: 118,
        end: 118,
    };
    Ok(Token {
        kind: TokenKind::Punctuator,
        text: Vec::from_slice(alloc, b";")?,
        joined: false,
        origin: Origin {
            file: 4_294_967_295,
            span: end,
            place: Place::MacroBody,
            site: end,
            site_file: 4_294_967_295,
        },
    })
}

/// The sign with this number.
pub(crate) fn sign<'a>(signs: &[&'a Token], number: usize, otherwise: &'a Token) -> &'a Token
    ensures { plain_token otherwise.now ≡ semicolon → plain_token result.now ≡ get_or (map (λ t. plain_token t.now) signs.now) number semicolon }
{
    match signs.get(number) {
        Some(sign) => sign,
        None => otherwise,
    }
}
