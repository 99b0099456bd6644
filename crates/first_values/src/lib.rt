//! What the first values of objects of file scope are bound to (ISO/IEC 9899:2011, 6.6, 6.7.9). Here are the definitions (in `specs/`) and the law,
//! the contract of a function without a body.
#![tactic(auto)]

ghost use Rattle.first_values.specs.Laws.{FirstValuesNameNoMembers};

/// Where the first value of an object of file scope is judged well, none of its identifiers names a member.
pub fn first_values_name_no_members()
    ensures { FirstValuesNameNoMembers }
{}
