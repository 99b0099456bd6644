//! Tokens while they are replaced.
ghost use Rattle.std.specs.Prelude.{◌≡◌, true, IfOk};
ghost use Rattle.c_text.specs.Token.{plain_token};
ghost use Rattle.c_text.specs.Directives.{is_spelled};
ghost use Rattle.c_text.specs.Macros as spec;
ghost use Rattle.plain_macros.specs.PlainItems.{source_token, plain_item, item_token};

use c_text::{Origin, Place, Token, TokenKind};
use cond_formula::NoMemory;
use std::alloc::{AllocError, Global};
use text_edits::Span;

/// From where to where the outermost call stands that brings a token. Below the outermost list a
/// call may end before its name in the file, so this is no span.
#[derive(Clone, Copy)]
pub struct Site {
    pub start: u32,
    pub end: u32,
    pub file: u32,
}

/// The token that an item copies.
#[derive(Clone, Copy)]
pub enum Source<'table, 'list> {
    /// It stands in a body of the table.
    Body(&'table Token),
    /// It stands in the outermost list.
    List(&'list Token),
}

impl Source<'_, '_> {
    pub fn token(&self) -> &Token
        ensures { result.now ≡ source_token self.now }
    {
        match self {
            Source::Body(token) => token,
            Source::List(token) => token,
        }
    }
}

/// A token while it is replaced, with what differs from the token that it copies.
#[derive(Clone, Copy)]
pub struct Item<'table, 'list> {
    pub source: Source<'table, 'list>,
    pub place: Place,
    pub site: Site,
    /// Whether it is a name that was kept because it was active, which is kept for good.
    pub kept: bool,
}

fn in_call(place: Place) -> Place
    ensures { result ≡ spec.in_call place }
{
    match place {
        Place::Text | Place::MacroArgument => Place::MacroArgument,
        Place::MacroBody => Place::MacroBody,
    }
}

impl<'table, 'list> Item<'table, 'list> {
    /// A token that no call has brought yet.
    #[tactic(auto, unfolding(crate::specs::PlainItems::plain_item))]
    pub fn fresh(source: Source<'table, 'list>) -> Item<'table, 'list>
        ensures { plain_item result ≡ spec.fresh (plain_token (source_token source.entry)) }
    {
        let origin = source.token().origin;
        Item {
            source,
            place: origin.place,
            site: Site {
                start: origin.site.start,
                end: origin.site.end,
                file: origin.site_file,
            },
            kept: false,
        }
    }

    /// The same, kept for good.
    #[tactic(auto, unfolding(crate::specs::PlainItems::plain_item))]
    pub fn kept(&self) -> Item<'table, 'list>
        ensures { plain_item result ≡ record (plain_item self.now) { kept = true } }
    {
        Item {
            kept: true,
            ..*self
        }
    }

    /// The same, brought by a call from its first to its last token.
    #[tactic(auto, unfolding(crate::specs::PlainItems::plain_item))]
    pub fn brought(
        &self,
        first: &Item<'table, 'list>,
        last: &Item<'table, 'list>,
    ) -> Item<'table, 'list>
        ensures { plain_item result ≡ spec.brought (item_token first.now) (item_token last.now) (plain_item self.now) }
    {
        Item {
            place: in_call(self.place),
            site: Site {
                start: first.source.token().origin.span.start,
                end: last.source.token().origin.span.end,
                file: first.source.token().origin.file,
            },
            ..*self
        }
    }

    /// Whether the token has these bytes.
    #[tactic(auto, unfolding(crate::specs::PlainItems::plain_item))]
    pub fn is_spelled(&self, text: &[u8]) -> bool
        ensures { result ≡ is_spelled text.now (item_token self.now) }
    {
        self.source.token().text.as_slice() == text
    }

    /// The item as a token of its own. There is none where the site ends before it begins, as it
    /// does in no file: that counts as want of memory.
    #[tactic(auto, unfolding(crate::specs::PlainItems::plain_item))]
    pub fn to_token(&self, alloc: Global) -> Result<Token, NoMemory>
        ensures { IfOk result (λ token. plain_token token ≡ item_token self.now) }
    {
        let Site { start, end, file } = self.site;
        if end < start {
            return Err(AllocError);
        }
        Ok(Token {
            kind: self.source.token().kind,
            text: Vec::from_slice(alloc, self.source.token().text.as_slice())?,
            joined: self.source.token().joined,
            origin: Origin {
                file: self.source.token().origin.file,
                span: self.source.token().origin.span,
                place: self.place,
                site: Span { start, end },
                site_file: file,
            },
        })
    }
}
