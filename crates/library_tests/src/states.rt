use crate::choices::{leaf, seen};
use c_tree::Kind;
use choice_states::{
    After, Closing, State, around, behind_left_out, certain, ending, finished, is_same_place,
    joined, list_at, number_before, push, push_nothing, some_are_there, split,
};
use choice_trees::{Choice, Forest, Item};
use cond_formula::{Config, Formula, NoMemory};
use grammar_moves::{Category, Flavour, Place, Role, Row};
use std::alloc::Global;
use std::test::Fail;

/// Behind an item of a block.
fn behind_item() -> Place {
    Place::InList(Kind::Items, Category::Item)
}

/// `x` where the first feature is on.
fn one_item(alloc: Global) -> Result<Vec<Choice<Item>>, NoMemory> {
    let mut parts = Vec::new(alloc);
    let x = certain(alloc, leaf(alloc, 0, "x")?)?;
    push(&mut parts, alloc, &[Formula::Var(0)], behind_item(), x)?;
    Ok(parts)
}

/// The same, then `y`.
fn two_items(alloc: Global) -> Result<Vec<Choice<Item>>, NoMemory> {
    let mut parts = one_item(alloc)?;
    let y = certain(alloc, leaf(alloc, 1, "y")?)?;
    push(&mut parts, alloc, &[], behind_item(), y)?;
    Ok(parts)
}

#[test]
fn a_part_is_seen_where_it_was_pushed(rt: HostRuntime) -> Result<(), Fail> {
    let alloc = rt.alloc();
    let some = some_are_there(alloc, &[], &one_item(alloc)?)?;
    assert!(rt; some.value(Config { bits: 1 }));
    assert!(rt; !some.value(Config { bits: 0 }));
    let forest = Forest {
        items: two_items(alloc)?,
    };
    assert_eq!(rt; seen(alloc, &forest, 0)?.as_slice(), b"y ".as_slice());
    assert_eq!(rt; seen(alloc, &forest, 1)?.as_slice(), b"x y ".as_slice());
    Ok(())
}

/// `if ( x )`, and `y` where the second feature is on.
fn statement(alloc: Global) -> Result<Forest, NoMemory> {
    let mut parts = Vec::new(alloc);
    for (number, text) in ["if", "(", "x", ")"].iter().enumerate() {
        let part = certain(alloc, leaf(alloc, number as u32, text)?)?;
        push(
            &mut parts,
            alloc,
            &[],
            Place::Inside(Row::Of(Kind::If), number + 1),
            part,
        )?;
    }
    let y = certain(alloc, leaf(alloc, 4, "y")?)?;
    push(
        &mut parts,
        alloc,
        &[Formula::Var(1)],
        Place::Inside(Row::Of(Kind::If), 5),
        y,
    )?;
    push_nothing(&mut parts, alloc, &[], Place::Inside(Row::Of(Kind::If), 6))?;
    let mut items = Vec::new(alloc);
    items.push(certain(alloc, Item::Node(Kind::If, parts))?)?;
    Ok(Forest { items })
}

#[test]
fn parts_of_an_if_have_numbers(rt: HostRuntime) -> Result<(), Fail> {
    let alloc = rt.alloc();
    let forest = statement(alloc)?;
    assert_eq!(rt;
        seen(alloc, &forest, 0)?.as_slice(),
        b"if ( x ) ; ".as_slice()
    );
    assert_eq!(rt;
        seen(alloc, &forest, 2)?.as_slice(),
        b"if ( x ) y ".as_slice()
    );
    assert_eq!(rt; number_before(Place::Inside(Row::Of(Kind::If), 5)), Some(4));
    assert_eq!(rt; number_before(behind_item()), None);
    Ok(())
}

#[test]
fn alternatives_at_the_same_place_are_one(rt: HostRuntime) -> Result<(), Fail> {
    let alloc = rt.alloc();
    let here = State::At(behind_item(), true);
    let there = State::At(behind_item(), false);
    assert!(rt; matches!(joined(alloc, Formula::Var(0), here, there)?, State::At(..)));
    let split = split(
        alloc,
        Formula::Var(0),
        State::Dead,
        State::At(behind_item(), false),
    )?;
    assert!(rt; matches!(split, State::Split(..)));
    Ok(())
}

#[test]
fn a_whole_node_is_a_part(rt: HostRuntime) -> Result<(), Fail> {
    let alloc = rt.alloc();
    let closing = Closing {
        kind: Some(Kind::Items),
        ended: behind_item(),
        waited_for: true,
    };
    let mut items = Vec::new(alloc);
    if let After::Whole(part, _) = finished(alloc, State::Closed(closing), two_items(alloc)?)? {
        items.push(part)?;
    }
    let forest = Forest { items };
    assert_eq!(rt; seen(alloc, &forest, 1)?.as_slice(), b"x y ".as_slice());
    Ok(())
}

#[test]
fn places_of_lists(rt: HostRuntime) -> Result<(), Fail> {
    let block = Place::Inside(Row::Of(Kind::Block), 1);
    let place = match list_at(block) {
        Some((behind, before)) => around(before, behind),
        None => None,
    };
    assert!(rt;
        match place {
            Some(place) => is_same_place(place, block),
            None => false,
        }
    );
    let left = behind_left_out(Place::Inside(Row::Of(Kind::If), 5), 1);
    assert!(rt; is_same_place(left, Place::Inside(Row::Of(Kind::If), 6)));
    let ended = ending(Place::DeclaratorRead(Role::Local, Flavour::Object));
    assert!(rt;
        is_same_place(
            ended,
            Place::DeclaratorRead(Role::FileLater, Flavour::Object)
        )
    );
    Ok(())
}
