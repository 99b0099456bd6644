//! What is true of refutations, with no code.

ghost use Rattle.refute_check.specs.Refutations.{RefutationLaw};

/// The law of refutations, to be cited in proofs; the call does nothing.
pub fn refuted_clauses_are_unsatisfiable()
    ensures { RefutationLaw }
{}
