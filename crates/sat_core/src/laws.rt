//! What is true of translations and refutations, with no code.

ghost use Rattle.sat_core.specs.Translations.{TranslationLaw, NoModelLaw};
ghost use Rattle.sat_core.specs.Acceptance.{AcceptanceLaw};

use refute_check::refuted_clauses_are_unsatisfiable;

/// The law that a translation is satisfiable exactly where its formula has a model, to be cited in proofs; the call does
/// nothing.
pub fn translations_are_equisatisfiable()
    ensures { TranslationLaw }
{}

/// The law that a formula whose translation has a refutation is true in no configuration.
pub fn refuted_formulas_have_no_model()
    ensures { NoModelLaw }
{
    refuted_clauses_are_unsatisfiable();
}

/// The law that a checker with room for a refutation accepts it.
pub fn refutations_are_accepted()
    ensures { AcceptanceLaw }
{}
