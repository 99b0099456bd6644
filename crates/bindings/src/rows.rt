//! Worked rows. Each function is its contract alone.
ghost use Rattle.bindings.specs.Rows.{BlocksHide, PrototypesHaveTheirOwn, TagsAreOfFileScope, StructsAreNamedBefore, EarlierParametersAreVisible, InitialisersSeeTheirName, ForIsABlock, ExpressionsUseFileNames};

/// Which identifiers units by hand bind, and to what.
pub fn worked_rows()
    ensures blocks { BlocksHide }
    ensures prototypes { PrototypesHaveTheirOwn }
    ensures tags { TagsAreOfFileScope }
    ensures structs { StructsAreNamedBefore }
    ensures parameters { EarlierParametersAreVisible }
    ensures initialisers { InitialisersSeeTheirName }
    ensures turns { ForIsABlock }
    ensures uses { ExpressionsUseFileNames }
{}
