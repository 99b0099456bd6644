use c_text::{FileToken, Origin, Place, Token, TokenKind};
use class_occurrences::{UnitPairs, where_fixed, where_from_macro_body};
use cond_formula::{Config, Formula, NoMemory};
use cond_pairings::CondPairing;
use cond_tokens::CondToken;
use std::alloc::Global;
use std::test::Fail;
use text_edits::Span;

fn span(start: u32) -> Span {
    Span {
        start,
        end: start.saturating_add(1),
    }
}

/// A name at an offset of the first file.
fn name(alloc: Global, text: &[u8], start: u32, place: Place) -> Result<CondToken, NoMemory> {
    let token = Token {
        kind: TokenKind::Name,
        text: Vec::from_slice(alloc, text)?,
        joined: false,
        origin: Origin {
            file: 0,
            span: span(start),
            place,
            site: span(start),
            site_file: 0,
        },
    };
    Ok(CondToken {
        token,
        when: Formula::True,
    })
}

#[test]
fn occurrences_of_a_class_stand_in_the_way(rt: HostRuntime) -> Result<(), Fail> {
    let alloc = rt.alloc();
    let tokens = [
        name(alloc, b"x", 4, Place::Text)?,
        name(alloc, b"x", 12, Place::MacroBody)?,
        name(alloc, b"main", 20, Place::Text)?,
    ];
    let pairs = [
        CondPairing {
            identifier: 0,
            declared_by: 0,
            when: Formula::True,
        },
        CondPairing {
            identifier: 1,
            declared_by: 0,
            when: Formula::Var(0),
        },
        CondPairing {
            identifier: 2,
            declared_by: 2,
            when: Formula::True,
        },
    ];
    let unit = UnitPairs {
        tokens: &tokens,
        pairs: &pairs,
    };
    let names = [4, 12].map(|start| FileToken {
        file: 0,
        span: span(start),
    });
    let from_body = where_from_macro_body(alloc, &unit, &names)?;
    assert_eq!(rt; from_body.value(Config { bits: 1 }), true);
    assert_eq!(rt; from_body.value(Config { bits: 0 }), false);
    let main = [FileToken {
        file: 0,
        span: span(20),
    }];
    let fixed = where_fixed(alloc, &unit, &main)?;
    assert_eq!(rt; fixed.value(Config { bits: 0 }), true);
    let free = where_fixed(alloc, &unit, &names)?;
    assert_eq!(rt; free.value(Config { bits: 1 }), false);
    Ok(())
}
