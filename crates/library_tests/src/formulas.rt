use cond_formula::{
    Config, Cube, Formula, May, Oracle, PlainOracle, expression_texts_have_one_meaning,
};
use std::test::Fail;

#[test]
fn cubes_clash_on_a_shared_feature(rt: HostRuntime) {
    let first = Cube { mask: 3, value: 1 };
    let second = Cube { mask: 6, value: 4 };
    let third = Cube { mask: 6, value: 2 };
    assert!(rt; first.holds(Config { bits: 5 }));
    assert!(rt; !first.holds(Config { bits: 7 }));
    assert!(rt; !first.clashes(&second));
    assert!(rt; first.clashes(&third));
}

fn asked<O: Oracle>(oracle: &mut O) -> May {
    oracle.may(&Formula::False)
}

#[test]
fn the_plain_oracle_knows_nothing(rt: HostRuntime) {
    assert!(rt; asked(&mut PlainOracle) != May::No);
}

#[test]
fn prints_parentheses_where_operators_nest(rt: HostRuntime) -> Result<(), Fail> {
    let alloc = rt.alloc();
    let names = vec![in alloc;
        String::from_str(alloc, "A")?,
        String::from_str(alloc, "B")?,
    ]?;
    let without_a = Formula::not(alloc, Formula::Var(0))?;
    let b_alone = Formula::and(alloc, without_a, Formula::Var(1))?;
    let either = Formula::or(alloc, b_alone, Formula::Var(0))?;
    let text = either.print_if(alloc, &names)?;
    assert_eq!(rt;
        text.as_slice(),
        b"(!defined(A) && defined(B)) || defined(A)".as_slice()
    );
    Ok(())
}

#[test]
fn the_law_can_be_cited() {
    expression_texts_have_one_meaning();
}
