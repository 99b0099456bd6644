//! Declarations read declarator by declarator (in `specs/`), and the laws that this is how they are judged (ISO/IEC 9899:2011, 6.7), contracts of
//! functions that compute nothing.
#![tactic(auto)]

ghost use Rattle.declaration_readings.specs.Laws.{LocalsAreRead, MembersAreRead, NamesAreRead};

/// The declarators of a declaration in a block, one after the other, declare what the declaration does, and one is refused exactly where it is.
pub fn locals_are_read()
    ensures { LocalsAreRead }
{}

/// The declarators of a declaration in a struct, one after the other, declare the members that the declaration does.
pub fn members_are_read()
    ensures { MembersAreRead }
{}

/// The declarators of a declaration at file scope, one after the other, declare what the declaration does.
pub fn names_are_read()
    ensures { NamesAreRead }
{}
