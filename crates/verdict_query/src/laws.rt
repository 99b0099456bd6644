//! What is true of least models, with no code.

ghost use Rattle.verdict_query.specs.Verdicts.{FewerFeaturesLaw, EqualConditionsLaw};

/// The law that a least model over more features than a condition names is the least over those that it names; so the least
/// configuration of a question is that of the project's own features.
pub fn fewer_features_suffice()
    ensures { FewerFeaturesLaw }
{}

/// The law that conditions which are true in the same configurations have the same least model.
pub fn equal_conditions_have_one_least_model()
    ensures { EqualConditionsLaw }
{}
