//! Reference classes of projects that are alike: two readings of one project file may differ in how conditions are written, and in no more. What
//! such projects have in common are their classes, what stands in the way of renaming one, and the class to which a byte leads. Here are
//! the laws (in `specs/`), each the contract of a function without a body.
#![tactic(auto)]

ghost use Rattle.alike_classes.specs.Laws.{ClassesAreAlike, PreconditionsAreAlike, NamedClassesAreAlike};

/// Projects that are alike have the same classes, and the same renamings rename them.
pub fn classes_are_alike()
    ensures { ClassesAreAlike }
{}

/// The same stands in the way of renaming a class of them.
pub fn preconditions_are_alike()
    ensures { PreconditionsAreAlike }
{}

/// A byte of their files leads to the same class.
pub fn named_classes_are_alike()
    ensures { NamedClassesAreAlike }
{}
