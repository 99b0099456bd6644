use c_text::{Origin, Place, Token, TokenKind};
use cond_formula::{Config, Formula, NoMemory};
use cond_name_spaces::{Space, SpacedName};
use cond_selections::Selection;
use conditional::CondList;
use member_pairs::member_pairs;
use std::alloc::Global;
use std::test::Fail;
use text_edits::Span;
use type_tables::Tables;

/// The name `m`, whose site is its number in the stream.
fn name(alloc: Global, number: u32) -> Result<Token, NoMemory> {
    let place = Span {
        start: number,
        end: number,
    };
    Ok(Token {
        kind: TokenKind::Name,
        text: Vec::from_slice(alloc, b"m")?,
        joined: false,
        origin: Origin {
            file: 0,
            span: place,
            place: Place::Text,
            site: place,
            site_file: 0,
        },
    })
}

/// Two structs have a member `m`: S, which has it with feature 0 alone, and T.
fn members(alloc: Global) -> Result<CondList<SpacedName>, NoMemory> {
    let mut names = CondList::empty(alloc);
    let of_s = SpacedName {
        number: 3,
        token: name(alloc, 3)?,
        space: Space::MembersOf(Vec::from_slice(alloc, b"S")?),
    };
    names.push(Formula::Var(0), of_s)?;
    let of_t = SpacedName {
        number: 5,
        token: name(alloc, 5)?,
        space: Space::MembersOf(Vec::from_slice(alloc, b"T")?),
    };
    names.push(Formula::True, of_t)?;
    Ok(names)
}

#[test]
fn a_use_is_declared_in_its_struct(rt: HostRuntime) -> Result<(), Fail> {
    let alloc = rt.alloc();
    let mut tables = Tables::new(alloc);
    let structure = tables.declare_struct(alloc, b"S", Formula::True)?;
    let mut uses = CondList::empty(alloc);
    let selection = Selection {
        name: name(alloc, 7)?,
        structure,
    };
    uses.push(Formula::True, selection)?;
    let pairs = member_pairs(alloc, &tables, &uses, &members(alloc)?)?;
    assert_eq!(rt; pairs.len(), 1);
    for pair in &pairs {
        assert_eq!(rt; (pair.identifier, pair.declared_by), (7, 3));
        assert_eq!(rt; pair.when.value(Config { bits: 1 }), true);
        assert_eq!(rt; pair.when.value(Config { bits: 0 }), false);
    }
    Ok(())
}
