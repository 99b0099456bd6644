use c_text::{BUILT_IN_FILE, BadKind, Origin, Place, Token, TokenKind};
use std::alloc::{AllocError, Global};
use std::test::Fail;
use text_edits::Span;

#[test]
fn built_in_text_stays(rt: HostRuntime) {
    let span = Span { start: 4, end: 7 };
    let mut origin = Origin {
        file: 0,
        span,
        place: Place::Text,
        site: span,
        site_file: 0,
    };
    assert!(rt; origin.editable());
    origin.file = BUILT_IN_FILE;
    assert!(rt; !origin.editable());
}

fn token(alloc: Global, kind: TokenKind, text: &[u8], start: u32) -> Result<Token, AllocError> {
    let span = Span {
        start,
        end: start.saturating_add(1),
    };
    let origin = Origin {
        file: 0,
        span,
        place: Place::Text,
        site: span,
        site_file: 0,
    };
    Ok(Token {
        kind,
        text: Vec::from_slice(alloc, text)?,
        joined: false,
        origin,
    })
}

#[test]
fn places_do_not_count(rt: HostRuntime) -> Result<(), Fail> {
    let name = token(rt.alloc(), TokenKind::Name, b"x", 0)?;
    assert!(rt; name.same_spelling(&token(rt.alloc(), TokenKind::Name, b"x", 7)?));
    assert!(rt; !name.same_spelling(&token(rt.alloc(), TokenKind::Name, b"y", 0)?));
    let bad = TokenKind::Bad(BadKind::BadByte);
    assert!(rt; !name.same_spelling(&token(rt.alloc(), bad, b"x", 0)?));
    Ok(())
}
