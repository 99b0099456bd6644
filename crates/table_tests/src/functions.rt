use crate::items::{leaf, when};
use crate::parameters::around;
use c_text::TokenKind;
use c_tree::Kind;
use c_types::CType;
use choice_trees::{Choice, Item};
use cond_formula::{Config, Formula, NoMemory, PlainOracle};
use cond_units::{UnitTables, declare_function};
use conditional::{CondList, Outcomes};
use plain_objects::Storage;
use std::alloc::Global;
use std::test::Fail;
use type_tables::{DeclaredType, Tables};

/// `(WORD)`, between the parentheses
fn list(alloc: Global, word: &str) -> Result<Item, NoMemory> {
    let keyword = leaf(alloc, TokenKind::Keyword, word)?;
    let words = around(alloc, Kind::Specifiers, Some(keyword))?;
    let absent = around(alloc, Kind::Absent, None)?;
    let mut parts = Vec::with_capacity(alloc, 2)?;
    parts.push(when(alloc, Formula::True, words)?)?;
    parts.push(when(alloc, Formula::True, absent)?)?;
    around(
        alloc,
        Kind::Parameters,
        Some(Item::Node(Kind::Parameter, parts)),
    )
}

/// One more token.
fn push_token(
    alloc: Global,
    parts: &mut Vec<Choice<Item>>,
    here: Formula,
    kind: TokenKind,
    text: &str,
) -> Result<(), NoMemory> {
    let token = leaf(alloc, kind, text)?;
    parts.push(when(alloc, here, token)?)?;
    Ok(())
}

/// `f(WORD)`, with a star before it where the condition is true
fn declarator(alloc: Global, starred: Formula, word: &str) -> Result<Item, NoMemory> {
    let mut parts: Vec<Choice<Item>> = Vec::with_capacity(alloc, 5)?;
    push_token(alloc, &mut parts, starred, TokenKind::Punctuator, "*")?;
    push_token(alloc, &mut parts, Formula::True, TokenKind::Name, "f")?;
    push_token(alloc, &mut parts, Formula::True, TokenKind::Punctuator, "(")?;
    let list = list(alloc, word)?;
    parts.push(when(alloc, Formula::True, list)?)?;
    push_token(alloc, &mut parts, Formula::True, TokenKind::Punctuator, ")")?;
    Ok(Item::Node(Kind::FunctionDeclarator, parts))
}

/// A declaration behind `int`
fn declare(
    alloc: Global,
    unit: &mut UnitTables,
    here: &Formula,
    initialised: bool,
    declarator: &Item,
) -> Result<Formula, NoMemory> {
    let mut base = Outcomes::nothing(alloc);
    let ty = DeclaredType { ty: CType::Int };
    base.fine.place(alloc, Formula::True, ty)?;
    declare_function(
        alloc,
        &mut PlainOracle,
        unit,
        here,
        Storage::Absent,
        initialised,
        &base,
        declarator,
    )
}

/// Where the declaration is refused behind `int f(int)` with A.
fn refused(alloc: Global, initialised: bool, next: &Item) -> Result<Formula, NoMemory> {
    let mut unit = UnitTables {
        tables: Tables::new(alloc),
        defined: CondList::empty(alloc),
    };
    let first = declarator(alloc, Formula::False, "int")?;
    declare(alloc, &mut unit, &Formula::Var(0), false, &first)?;
    declare(alloc, &mut unit, &Formula::True, initialised, next)
}

#[test]
fn a_function_is_refused_where_its_results_differ(rt: HostRuntime) -> Result<(), Fail> {
    let alloc = rt.alloc();
    let f = refused(alloc, false, &declarator(alloc, Formula::Var(1), "int")?)?;
    assert!(rt; !f.value(Config { bits: 1 }));
    assert!(rt; !f.value(Config { bits: 2 }));
    assert!(rt; f.value(Config { bits: 3 }));
    Ok(())
}

#[test]
fn a_function_is_refused_where_its_parameters_differ(rt: HostRuntime) -> Result<(), Fail> {
    let alloc = rt.alloc();
    let f = refused(alloc, false, &declarator(alloc, Formula::False, "char")?)?;
    assert!(rt; !f.value(Config { bits: 0 }));
    assert!(rt; f.value(Config { bits: 1 }));
    Ok(())
}

#[test]
fn a_function_has_no_initialiser(rt: HostRuntime) -> Result<(), Fail> {
    let alloc = rt.alloc();
    let f = refused(alloc, true, &declarator(alloc, Formula::False, "int")?)?;
    assert!(rt; f.value(Config { bits: 0 }));
    Ok(())
}
