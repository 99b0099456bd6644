use cond_formula::{Config, Formula, NoMemory, PlainOracle};
use path_conditions::{
    Presence, conjoined, exclude, follows, is_excluded, left_of, presence_on, with, without,
};
use std::alloc::Global;
use std::test::Fail;

/// Where the first two features are on.
fn first_two(alloc: Global) -> Result<Vec<Formula>, NoMemory> {
    let both = Formula::and(alloc, Formula::Var(0), Formula::Var(1))?;
    with(alloc, &[], &both)
}

#[test]
fn a_path_says_what_follows_from_it(rt: HostRuntime) -> Result<(), Fail> {
    let alloc = rt.alloc();
    let path = first_two(alloc)?;
    assert!(rt; follows(&Formula::Var(1), &path));
    assert!(rt; !follows(&Formula::Var(2), &path));
    let neither = Formula::not(alloc, Formula::Var(1))?;
    assert!(rt; is_excluded(&neither, &path));
    let mut oracle = PlainOracle;
    assert_eq!(rt;
        presence_on(alloc, &path, &Formula::Var(0), &mut oracle)?,
        Presence::Present
    );
    assert_eq!(rt;
        presence_on(alloc, &path, &neither, &mut oracle)?,
        Presence::Absent
    );
    assert_eq!(rt;
        presence_on(alloc, &path, &Formula::Var(2), &mut oracle)?,
        Presence::Unsure
    );
    Ok(())
}

#[test]
fn a_path_grows_by_what_is_false_too(rt: HostRuntime) -> Result<(), Fail> {
    let alloc = rt.alloc();
    let path = first_two(alloc)?;
    let mut longer = without(alloc, &path, &Formula::Var(2))?;
    assert!(rt; is_excluded(&Formula::Var(2), &longer));
    exclude(&mut longer, alloc, &Formula::Var(3))?;
    let all = conjoined(alloc, &longer)?;
    assert!(rt; all.value(Config { bits: 3 }));
    assert!(rt; !all.value(Config { bits: 1 }));
    assert!(rt; !all.value(Config { bits: 7 }));
    assert!(rt; !all.value(Config { bits: 11 }));
    Ok(())
}

#[test]
fn what_a_path_says_is_left_out(rt: HostRuntime) -> Result<(), Fail> {
    let alloc = rt.alloc();
    let path = first_two(alloc)?;
    let wanted = Formula::and(alloc, Formula::Var(1), Formula::Var(2))?;
    let left = left_of(alloc, &wanted, &path)?;
    assert!(rt; left.value(Config { bits: 4 }));
    assert!(rt; !left.value(Config { bits: 3 }));
    Ok(())
}
