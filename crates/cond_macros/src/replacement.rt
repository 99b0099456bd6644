//! What replaces an outermost list.
ghost use Rattle.std.specs.Prelude.{◌≡◌, ℕ, List, Bool, map, IsTrue, IfOk};
ghost use Rattle.c_text.specs.Token.{plain_token};
ghost use Rattle.c_text.specs.Macros as spec;
ghost use Rattle.c_text.specs.Preprocessing as preprocessing;
ghost use Rattle.cond_formula.specs.Features.{has};
ghost use Rattle.cond_formula.specs.Conditions.{condition_of, value};
ghost use Rattle.conditional.specs.Entries.{entries_of, seen};
ghost use Rattle.macro_table.specs.Features.{macros_at};
ghost use Rattle.cond_bodies.specs.CondItems.{items_at};
ghost use Rattle.cond_macros.specs.CondReplacements.{Replaces};
ghost use Rattle.cond_macros.specs.Owned.{AreOwn};

use crate::replacing::replaced_list;
use c_text::{BUILT_IN_FILE, Origin, Place, Token, TokenKind};
use cond_bodies::{Item, Level, tokens_of};
use cond_formula::{Formula, NoMemory, Oracle};
use conditional::{CondList, Guarded};
use macro_table::Macros;
use std::alloc::Global;
use text_edits::Span;

/// What becomes of a list of tokens in all configurations.
#[derive(Drop)]
pub struct CondReplacement {
    /// The tokens that replace the list. Where it is refused they mean nothing.
    pub tokens: CondList<Token>,
    /// Where a call in the list is refused.
    pub refused: Formula,
}

// The depth of a list in which no macro but a feature may be replaced.
const DEEPEST: u32 = 256;

// How long the text of the built-in file is.
const BUILT_IN_LENGTH: u32 = 118;

// The token that replaces a feature that is on. It stands at the end of the built-in file.
fn feature_token(alloc: Global) -> Result<Token, NoMemory>
    ensures { IfOk result (λ token. plain_token token ≡ preprocessing.feature_token) }
{
    let text = Vec::from_slice(alloc, b"1")?;
    let span = Span {
        start: BUILT_IN_LENGTH,
        end: BUILT_IN_LENGTH,
    };
    Ok(Token {
        kind: TokenKind::Number,
        text,
        joined: false,
        origin: Origin {
            file: BUILT_IN_FILE,
            span,
            place: Place::MacroBody,
            site: span,
            site_file: BUILT_IN_FILE,
        },
    })
}

// The tokens of an outermost list.
fn outermost_items<'t>(
    alloc: Global,
    tokens: &'t [Guarded<&'t Token>],
) -> Result<Vec<Guarded<Item<'t>>>, NoMemory>
    ensures items { IfOk result (λ items. (on : ℕ → Bool) → items_at on items.items ≡ map spec.fresh (seen on (entries_of (λ t. plain_token t.now) tokens.now))) }
    ensures own { IfOk result (λ items. AreOwn items.items) }
{
    let mut items = Vec::with_capacity(alloc, tokens.len())?;
    for entry in tokens {
        items.push(Guarded {
            when: entry.when.try_clone(alloc)?,
            what: Item::fresh(alloc, entry.what),
        })?;
    }
    Ok(items)
}

// What replaces an outermost list, with the token that replaces a feature that is on.
fn outermost_replaced<'t, O: Oracle>(
    alloc: Global,
    macros: Macros<'t>,
    oracle: &mut O,
    within: &Formula,
    tokens: &'t [Guarded<&'t Token>],
    feature: &'t Token,
) -> Result<CondReplacement, NoMemory>
    requires { plain_token feature.now ≡ preprocessing.feature_token }
    ensures kept { O.admits oracle.new ≡ O.admits oracle.old }
    ensures replaces { IfOk result (λ r. (c : List Bool) → IsTrue (value (has c) (O.admits oracle.old)) → IsTrue (value (has c) (condition_of within.now)) → Replaces (has c) (spec.replaced (macros_at (has c) macros.entry) (seen (has c) (entries_of (λ t. plain_token t.now) tokens.now))) r) }
{
    let items = outermost_items(alloc, tokens)?;
    let active: Vec<&Token> = Vec::new(alloc);
    let level = Level {
        alloc,
        macros,
        feature,
        active: active.as_slice(),
        left: DEEPEST,
        within: &*within,
    };
    let f = replaced_list(&level, oracle, items.as_slice())?;
    let tokens = tokens_of(alloc, f.items.as_slice())?;
    Ok(CondReplacement {
        tokens,
        refused: f.refused,
    })
}

/// Replaces the macros in an outermost list, or in the list of an `#if` or `#elif`, as far as a condition holds: elsewhere
/// nothing is promised of the answer. A call whose `)` ends in the file before its name begins would have a site that no
/// token can have; among the tokens of one file in their order there is none, and in other lists it counts as want of
/// memory.
pub fn replaced<O: Oracle>(
    alloc: Global,
    macros: &Macros<'_>,
    oracle: &mut O,
    within: &Formula,
    tokens: &[Guarded<&Token>],
) -> Result<CondReplacement, NoMemory>
    ensures kept { O.admits oracle.new ≡ O.admits oracle.old }
    ensures replaces { IfOk result (λ r. (c : List Bool) → IsTrue (value (has c) (O.admits oracle.old)) → IsTrue (value (has c) (condition_of within.now)) → Replaces (has c) (spec.replaced (macros_at (has c) macros.now) (seen (has c) (entries_of (λ t. plain_token t.now) tokens.now))) r) }
{
    let feature = feature_token(alloc)?;
    outermost_replaced(alloc, *macros, oracle, within, &*tokens, &feature)
}
