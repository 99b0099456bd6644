//! Worked rows. Each function is its contract alone.
ghost use Rattle.program_occurrences.specs.Rows.{MembersAreBound, PrototypesHaveTheirOwn, BlocksCapture, ExternalNamesAreLinked, NamesAreLinkedAnew, BuiltInsAreLinked, AlternativesAreOneClass};

/// What identifiers of programs by hand are bound and linked to.
pub fn worked_rows()
    ensures members { MembersAreBound }
    ensures prototypes { PrototypesHaveTheirOwn }
    ensures captures { BlocksCapture }
    ensures linked { ExternalNamesAreLinked }
    ensures anew { NamesAreLinkedAnew }
    ensures built_in { BuiltInsAreLinked }
{}

/// Which tokens of a file by hand are of one class.
pub fn worked_class()
    ensures { AlternativesAreOneClass }
{}
