//! Laws of occurrences, and of what tokens bring along. Each function is its contract, and leans on how units are derived and judged.
ghost use Rattle.program_occurrences.specs.Laws.{DeclarationsAreOccurrences, IdentifiersAreBound, OccurrencesAreBound, UnitsOfProgramsAreJudged, TokensBringBack};

/// What declares an identifier of a unit is an occurrence of the unit, which declares itself.
pub fn declarations_are_occurrences()
    ensures { DeclarationsAreOccurrences }
{}

/// The bindings of a unit are those of its identifiers, each once, in the order of the text.
pub fn identifiers_are_bound()
    ensures { IdentifiersAreBound }
{
    tree_derivations::units_are_derived();
}

/// Where a unit is judged well, its occurrences are its identifiers, and each is declared by the one to which the bindings of the
/// unit bind it. So no identifier is left out, and none is paired with what another one stands for.
pub fn occurrences_are_bound()
    ensures { OccurrencesAreBound }
{
    tree_derivations::units_are_derived();
    bindings::judgements_bind_alike();
}

/// Each unit of a program is judged well behind the structs of those before it, without the numbers of the core program.
pub fn units_of_programs_are_judged()
    ensures { UnitsOfProgramsAreJudged }
{}

/// A token that another one brings along brings that one along too.
pub fn tokens_bring_back()
    ensures { TokensBringBack }
{}
