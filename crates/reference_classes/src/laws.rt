//! Laws of reference classes. Each function is its contract, and leans on what tokens bring along.
ghost use Rattle.reference_classes.specs.Laws.{ClassesAreLeast, ClassesAreOne};

/// What holds of a place, and with each token of all that it brings along in any product, holds of the place's class.
pub fn classes_are_least()
    ensures { ClassesAreLeast }
{}

/// Each token of a class has that same class.
pub fn classes_are_one()
    ensures { ClassesAreOne }
{
    program_occurrences::tokens_bring_back();
}
