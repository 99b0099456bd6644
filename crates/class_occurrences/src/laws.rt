//! That the tests are those of the preconditions, with no code.
ghost use Rattle.class_occurrences.specs.Laws.{TestsAreOfPreconditions};

/// The law that what is tested of an occurrence is what a precondition says of it, to be cited in proofs; the call does nothing.
pub fn tests_are_of_preconditions()
    ensures { TestsAreOfPreconditions }
{}
