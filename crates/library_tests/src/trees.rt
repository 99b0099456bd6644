use c_lexer::lex;
use c_text::Token;
use c_tree::{Tree, height, spell};
use cond_formula::NoMemory;
use plain_parse::{ParseError, parse};
use std::alloc::Global;
use std::test::Fail;

/// The tokens of a text of one line.
fn tokens_of(alloc: Global, text: &str) -> Result<Vec<Token>, NoMemory> {
    let mut tokens = Vec::new(alloc);
    if text.len() < 4_294_967_295 {
        for line in lex(alloc, 0, text.as_bytes())? {
            for token in line.tokens {
                tokens.push(token)?;
            }
        }
    }
    Ok(tokens)
}

/// The tree of the tokens; no test has too many of them.
fn tree_of(alloc: Global, tokens: &[Token]) -> Result<Tree, ParseError> {
    if tokens.len() < 4_294_967_295 {
        parse(alloc, tokens)
    } else {
        Err(ParseError::Memory)
    }
}

/// What `parse` says of so many parentheses around a number.
fn of_parentheses(
    alloc: Global,
    count: usize,
    closed: bool,
) -> Result<Result<u32, ParseError>, NoMemory> {
    let mut text = String::from_str(alloc, "int main(void) { return")?;
    for _ in 0..count {
        text.push('(')?;
    }
    if closed {
        text.push('0')?;
        for _ in 0..count {
            text.push(')')?;
        }
        text.push_str("; }")?;
    }
    let tokens = tokens_of(alloc, text.as_str())?;
    Ok(tree_of(alloc, &tokens).map(|tree| height(&tree)))
}

#[test]
fn trees_are_at_most_512_high(rt: HostRuntime) -> Result<(), Fail> {
    let alloc = rt.alloc();
    assert_eq!(rt; of_parentheses(alloc, 507, true)?, Ok(512));
    assert_eq!(rt; of_parentheses(alloc, 508, true)?, Err(ParseError::TooHigh));
    Ok(())
}

/// What `parse` says of a declaration in so many blocks within the body of a function.
fn in_blocks(
    alloc: Global,
    declaration: &str,
    count: usize,
) -> Result<Result<u32, ParseError>, NoMemory> {
    let mut text = String::from_str(alloc, "int main(void) {")?;
    for _ in 0..count {
        text.push('{')?;
    }
    text.push_str(declaration)?;
    for _ in 0..count {
        text.push('}')?;
    }
    text.push_str("return 0; }")?;
    let tokens = tokens_of(alloc, text.as_str())?;
    Ok(tree_of(alloc, &tokens).map(|tree| height(&tree)))
}

#[test]
fn a_struct_by_its_name_is_two_high(rt: HostRuntime) -> Result<(), Fail> {
    let alloc = rt.alloc();
    assert_eq!(rt; in_blocks(alloc, "int x;", 507)?, Ok(512));
    assert_eq!(rt; in_blocks(alloc, "struct S x;", 506)?, Ok(512));
    assert_eq!(rt;
        in_blocks(alloc, "struct S x;", 507)?,
        Err(ParseError::TooHigh)
    );
    Ok(())
}

#[test]
fn open_parentheses_need_no_deep_stack(rt: HostRuntime) -> Result<(), Fail> {
    let want = Err(ParseError::Unexpected(100_007));
    assert_eq!(rt; of_parentheses(rt.alloc(), 100_000, false)?, want);
    Ok(())
}

#[test]
fn a_tree_spells_its_tokens(rt: HostRuntime) -> Result<(), Fail> {
    let alloc = rt.alloc();
    let tokens = tokens_of(alloc, "int main(void) { return ((0)); }")?;
    let spelled = spell(alloc, &tree_of(alloc, &tokens)?)?;
    assert_eq!(rt; spelled.len(), tokens.len());
    for (one, other) in spelled.iter().zip(tokens.iter()) {
        assert!(rt; one.same_spelling(other));
    }
    Ok(())
}
