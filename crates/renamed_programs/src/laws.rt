//! Laws of units that differ only in names. Each function is its contract, and leans on how units are derived.
ghost use Rattle.renamed_programs.specs.Laws.{ProgramsAreAlike, ElaborationsAreAlike};

/// Lists of units whose trees differ only in the names of identifiers, that are judged well, whose identifiers are bound alike, and
/// whose names of file scope correspond so that what was linked is linked, have the same core program, whether they link or not.
pub fn programs_are_alike()
    ensures { ProgramsAreAlike }
{
    tree_derivations::units_are_derived();
}

/// So what comes of them, where both link, is one core program.
pub fn elaborations_are_alike()
    ensures { ElaborationsAreAlike }
{
    tree_derivations::units_are_derived();
}
