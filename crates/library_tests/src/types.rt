use c_types::{
    CType, TagTable, a_conversion_is_the_one_value, converting_again_changes_nothing, print_type,
};
use std::test::Fail;

#[test]
fn types_are_printed_with_their_names(rt: HostRuntime) -> Result<(), Fail> {
    let alloc = rt.alloc();
    let none = TagTable {
        tags: Vec::new(alloc),
    };
    let text = print_type(alloc, &CType::ULong, &none, b"x")?;
    assert_eq!(rt; text.as_slice(), b"unsigned long x".as_slice());
    Ok(())
}

#[test]
fn the_laws_can_be_cited() {
    a_conversion_is_the_one_value();
    converting_again_changes_nothing();
}
