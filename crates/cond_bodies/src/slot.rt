//! Places of macros' bodies.
ghost use Rattle.std.specs.Prelude.{◌≡◌, ℕ, Bool, map, if◌then◌else◌, IsTrue, IfOk};
ghost use Rattle.c_text.specs.Token.{plain_token};
ghost use Rattle.c_text.specs.Directives.{is_word};
ghost use Rattle.cond_formula.specs.Conditions.{condition_of, value};
ghost use Rattle.conditional.specs.Entries.{entries_of};
ghost use Rattle.cond_bodies.specs.Spellings.{spelling};
ghost use Rattle.cond_bodies.specs.Parts.{part_from};

use crate::item::copied_sources;
use crate::part::Part;
use c_text::{Token, TokenKind};
use cond_formula::{Formula, NoMemory};
use conditional::Guarded;
use std::alloc::Global;

/// A place of some of the bodies that are joined. They have the same spelling there, and the same parameter.
#[derive(Drop)]
pub struct Slot<'t> {
    pub part: Part,
    pub token: &'t Token,
    pub others: Vec<Guarded<&'t Token>>,
    ghost alike: { map (λ o. spelling o.what) (entries_of (λ t. plain_token t.now) others.items) ≡ map (λ o. spelling (plain_token token.now)) (entries_of (λ t. plain_token t.now) others.items) },
}

fn is_word(token: &Token) -> bool
    ensures { result ≡ is_word (plain_token token.now) }
{
    matches!(token.kind, TokenKind::Name | TokenKind::Keyword)
}

/// The parameter that a token of a body is, if it is one.
fn part_of(params: &[Vec<u8>], token: &Token) -> Part
    ensures { result ≡ part_from 0 (map (λ n. n.items) params.now) (plain_token token.now) }
{
    for (number, param) in params.iter().enumerate() {
        if is_word(token) && token.text.as_slice() == param.as_slice() {
            return Part::Parameter(number);
        }
    }
    Part::Token
}

fn is_same_spelling(token: &Token, other: &Token) -> bool
    ensures { IsTrue result → spelling (plain_token token.now) ≡ spelling (plain_token other.now) }
{
    token.same_spelling(other)
}

impl<'t> Slot<'t> {
    ghost use Rattle.cond_bodies.specs.Slots.{slot_at};

    /// The place of one body.
    #[tactic(auto, unfolding(crate::specs::Slots::slot_at))]
    pub fn own(alloc: Global, params: &[Vec<u8>], token: &'t Token) -> Slot<'t>
        ensures { (on : ℕ → Bool) → slot_at on result ≡ record { part = part_from 0 (map (λ n. n.items) params.now) (plain_token token.now); token = plain_token token.now } }
    {
        Slot {
            part: part_of(params, token),
            token,
            others: Vec::new(alloc),
        }
    }

    #[tactic(auto, unfolding(crate::specs::Slots::slot_at))]
    pub fn try_clone(&self, alloc: Global) -> Result<Slot<'t>, NoMemory>
        ensures { IfOk result (λ copy. (on : ℕ → Bool) → slot_at on copy ≡ slot_at on self.now) }
    {
        let others = copied_sources(alloc, self.others.as_slice())?;
        Ok(Slot {
            part: self.part,
            token: self.token,
            others,
        })
    }

    /// Whether a token of another body may share the place.
    pub fn fits(&self, params: &[Vec<u8>], token: &Token) -> bool
        ensures part { IsTrue result → self.now.part ≡ part_from 0 (map (λ n. n.items) params.now) (plain_token token.now) }
        ensures spelled { IsTrue result → spelling (plain_token token.now) ≡ spelling (plain_token self.now.token.now) }
    {
        self.part == part_of(params, token) && is_same_spelling(token, self.token)
    }

    /// The place with a further token, which is there where the condition holds.
    #[tactic(auto, unfolding(crate::specs::Slots::slot_at))]
    pub fn shared(
        &self,
        alloc: Global,
        when: &Formula,
        token: &'t Token,
    ) -> Result<Slot<'t>, NoMemory>
        requires { spelling (plain_token token.now) ≡ spelling (plain_token self.now.token.now) }
        ensures { IfOk result (λ slot. (on : ℕ → Bool) → slot_at on slot ≡ (if value on (condition_of when.now) then record { part = self.now.part; token = plain_token token.now } else slot_at on self.now)) }
    {
        let mut more = copied_sources(alloc, self.others.as_slice())?;
        let mut others = Vec::with_capacity(alloc, 1)?;
        others.push(Guarded {
            when: when.try_clone(alloc)?,
            what: token,
        })?;
        others.append(&mut more)?;
        Ok(Slot {
            part: self.part,
            token: self.token,
            others,
        })
    }
}
