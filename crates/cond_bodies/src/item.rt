//! Tokens while they are replaced, of which different definitions give different ones.
ghost use Rattle.std.specs.Prelude.{◌≡◌, ℕ, Bool, true, not, ◌&&◌, map, IfOk};
ghost use Rattle.c_text.specs.Token.{plain_token};
ghost use Rattle.c_text.specs.Directives.{is_spelled};
ghost use Rattle.c_text.specs.Macros as spec;
ghost use Rattle.conditional.specs.Entries.{entries_of};
ghost use Rattle.cond_bodies.specs.Spellings.{spelling};

use c_text::{Token, TokenKind};
use cond_formula::NoMemory;
use conditional::Guarded;
use std::alloc::Global;

/// From where to where the outermost call stands that brings a token. Below the outermost list a call may end before its
/// name in the file, so this is no span.
#[derive(Clone, Copy)]
pub struct Site {
    pub start: u32,
    pub end: u32,
    pub file: u32,
}

/// A token while it is replaced. Where the definitions of a macro give the same spelling at the same place of their
/// bodies, these tokens are one item, so that it is replaced once for all of them.
#[derive(Drop)]
pub struct Item<'t> {
    /// The token that is copied, where none of the others is.
    pub token: &'t Token,
    /// Tokens of the same kind and spelling: the first whose condition holds is copied.
    pub others: Vec<Guarded<&'t Token>>,
    /// Whether it is a name that was kept because it was active, which is kept for good.
    pub kept: bool,
    /// Whether a call has brought it.
    pub called: bool,
    pub site: Site,
    ghost alike: { map (λ o. spelling o.what) (entries_of (λ t. plain_token t.now) others.items) ≡ map (λ o. spelling (plain_token token.now)) (entries_of (λ t. plain_token t.now) others.items) },
}

/// The same tokens under the same conditions.
pub fn copied_sources<'t>(
    alloc: Global,
    sources: &[Guarded<&'t Token>],
) -> Result<Vec<Guarded<&'t Token>>, NoMemory>
    ensures { IfOk result (λ copies. entries_of (λ t. plain_token t.now) copies.items ≡ entries_of (λ t. plain_token t.now) sources.now) }
{
    let mut copies = Vec::with_capacity(alloc, sources.len())?;
    for source in sources {
        copies.push(Guarded {
            when: source.when.try_clone(alloc)?,
            what: source.what,
        })?;
    }
    Ok(copies)
}

fn is_name_kind(kind: TokenKind) -> bool
    ensures { result ≡ spec.is_name_kind kind }
{
    matches!(kind, TokenKind::Name)
}

fn has_text(token: &Token, text: &[u8]) -> bool
    ensures { result ≡ is_spelled text.now (plain_token token.now) }
{
    token.text.as_slice() == text
}

impl<'t> Item<'t> {
    ghost use Rattle.conditional.specs.Entries.{first, seen};
    ghost use Rattle.cond_bodies.specs.Cores.{core};
    ghost use Rattle.cond_bodies.specs.CondItems.{item_at, or_token};

    /// A token that no call has brought yet.
    #[tactic(auto, unfolding(crate::specs::CondItems::item_at))]
    pub fn fresh(alloc: Global, token: &'t Token) -> Item<'t>
        ensures item { (on : ℕ → Bool) → item_at on result ≡ spec.fresh (plain_token token.now) }
        ensures token { result.token.now ≡ token.now }
    {
        Item {
            token,
            others: Vec::new(alloc),
            kept: false,
            called: false,
            site: Site {
                start: token.origin.site.start,
                end: token.origin.site.end,
                file: token.origin.site_file,
            },
        }
    }

    /// A token of bodies that no call has brought yet.
    #[tactic(auto, unfolding(crate::specs::CondItems::item_at))]
    pub fn of(token: &'t Token, others: Vec<Guarded<&'t Token>>) -> Item<'t>
        requires { map (λ o. spelling o.what) (entries_of (λ t. plain_token t.now) others.items) ≡ map (λ o. spelling (plain_token token.now)) (entries_of (λ t. plain_token t.now) others.items) }
        ensures { (on : ℕ → Bool) → core (item_at on result) ≡ core (spec.fresh (or_token (plain_token token.now) (first (seen on (entries_of (λ t. plain_token t.now) others.entry.items))))) }
    {
        Item {
            token,
            others,
            kept: false,
            called: false,
            site: Site {
                start: token.origin.site.start,
                end: token.origin.site.end,
                file: token.origin.site_file,
            },
        }
    }

    /// The same item once more.
    #[tactic(auto, unfolding(crate::specs::CondItems::item_at))]
    pub fn try_clone(&self, alloc: Global) -> Result<Item<'t>, NoMemory>
        ensures item { IfOk result (λ copy. (on : ℕ → Bool) → item_at on copy ≡ item_at on self.now) }
        ensures token { IfOk result (λ copy. copy.token.now ≡ self.now.token.now) }
    {
        let others = copied_sources(alloc, self.others.as_slice())?;
        Ok(Item {
            token: self.token,
            others,
            kept: self.kept,
            called: self.called,
            site: self.site,
        })
    }

    /// Whether the token has these bytes.
    pub fn is_spelled(&self, text: &[u8]) -> bool
        ensures { (on : ℕ → Bool) → result ≡ is_spelled text.now (item_at on self.now).token }
    {
        has_text(self.token, text)
    }

    /// Whether it may be a macro's name.
    #[tactic(auto, unfolding(crate::specs::CondItems::item_at))]
    pub fn is_name(&self) -> bool
        ensures { (on : ℕ → Bool) → result ≡ (spec.is_name_kind (item_at on self.now).token.kind && not (item_at on self.now).kept) }
    {
        if self.kept {
            return false;
        }
        is_name_kind(self.token.kind)
    }

    /// The item as a call from its first to its last token brings it.
    #[tactic(auto, unfolding(crate::specs::CondItems::item_at))]
    pub fn brought(&self, alloc: Global, first: &Token, last: &Token) -> Result<Item<'t>, NoMemory>
        ensures { IfOk result (λ given. (on : ℕ → Bool) → item_at on given ≡ spec.brought (plain_token first.now) (plain_token last.now) (item_at on self.now)) }
    {
        let others = copied_sources(alloc, self.others.as_slice())?;
        Ok(Item {
            token: self.token,
            others,
            kept: self.kept,
            called: true,
            site: Site {
                start: first.origin.span.start,
                end: last.origin.span.end,
                file: first.origin.file,
            },
        })
    }

    /// The item as a name that is kept for good.
    #[tactic(auto, unfolding(crate::specs::CondItems::item_at))]
    pub fn kept(&self, alloc: Global) -> Result<Item<'t>, NoMemory>
        ensures { IfOk result (λ kept. (on : ℕ → Bool) → item_at on kept ≡ record (item_at on self.now) { kept = true }) }
    {
        let others = copied_sources(alloc, self.others.as_slice())?;
        Ok(Item {
            token: self.token,
            others,
            kept: true,
            called: self.called,
            site: self.site,
        })
    }
}
