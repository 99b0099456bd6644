//! Laws of bindings. Each function is its contract, and leans on how units are derived.
ghost use Rattle.bindings.specs.Laws.{JudgementsBindAlike, FileNamesAreUsedAlike, UndeclaredIsFirst, DeclaredIsUnrefused, UnitsAreJudged, ProgramsAreJudged, BoundNamesAreVisible};

/// Where a unit is judged well, the judgement binds its identifiers as the bindings of the unit do: each to what the first
/// identifier of its entity declares. So none is undeclared.
pub fn judgements_bind_alike()
    ensures { JudgementsBindAlike }
{
    tree_derivations::units_are_derived();
}

/// Where a unit is judged well, its expressions use the names of file scope that the bindings of the unit say: those that stand
/// at file scope and in no block.
pub fn file_names_are_used_alike()
    ensures { FileNamesAreUsedAlike }
{
    tree_derivations::units_are_derived();
}

/// A unit that is refused as undeclared has an undeclared identifier, and is refused at the place of the first.
pub fn undeclared_is_first()
    ensures { UndeclaredIsFirst }
{
    tree_derivations::units_are_derived();
}

/// So no unit is refused as undeclared in which each identifier is declared; and in a unit that is judged well each is.
pub fn declared_is_unrefused()
    ensures { DeclaredIsUnrefused }
{
    tree_derivations::units_are_derived();
}

/// A unit of the grammar, with tokens that are spelt as their kinds say, is judged: it is fine or refused.
pub fn units_are_judged()
    ensures { UnitsAreJudged }
{
    tree_derivations::units_are_derived();
}

/// So are the units of a program together.
pub fn programs_are_judged()
    ensures { ProgramsAreJudged }
{
    tree_derivations::units_are_derived();
}

/// In a unit that is judged well, each name of file scope to which an identifier is bound is visible at its end.
pub fn bound_names_are_visible()
    ensures { BoundNamesAreVisible }
{
    tree_derivations::units_are_derived();
}
