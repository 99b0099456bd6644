//! Corresponding runs of core programs: what an extraction, an inlining and a renaming keep of them (ISO/IEC 9899:2011, 5.1.2.3,
//! 6.2.4, 6.5.2.2). The relations are definitions, in `specs/`; the laws are the contracts of functions without a body.
#![tactic(auto)]

ghost use Rattle.run_pairs.specs.Laws.{ExtractionPieces, ExtractionRuns, InliningPieces, InliningRuns, RenamingRuns};
ghost use Rattle.run_pairs.specs.WorkedTrees.{WorkedTrees};
ghost use Rattle.run_pairs.specs.WorkedPairs.{WorkedPair, WorkedTexts, WorkedInlining, WrongPairs};

/// Expressions, statements and calls of an extraction that begin in related states end in related ways, where the side that the
/// bound may cut off has n of it and the other one 2n + 1.
pub fn extraction_pieces()
    ensures { ExtractionPieces }
{}

/// An extraction keeps what runs do: the original's run to n is reached by the result's to 2n + 1, and the result's to n by
/// the original's to n.
pub fn extraction_runs()
    ensures { ExtractionRuns }
{}

/// The same of an inlining, where the original has n of the bound and the result n, or the original 2n + 1 and the result n.
pub fn inlining_pieces()
    ensures { InliningPieces }
{}

/// An inlining keeps them the other way round: the original's run to n is reached by the result's to n, and the result's to n by
/// the original's to 2n + 1.
pub fn inlining_runs()
    ensures { InliningRuns }
{}

/// So does a renaming, which leaves the core program as it is.
pub fn renaming_runs()
    ensures { RenamingRuns }
{}

/// A pair by hand is an extraction.
pub fn worked_pair()
    ensures { WorkedPair }
{}

/// So is one in which texts are numbered anew, and a global points to one of them.
pub fn worked_texts()
    ensures { WorkedTexts }
{}

/// A pair by hand, in which a block stands for a call, is an inlining.
pub fn worked_inlining()
    ensures { WorkedInlining }
{}

/// The programs of the first and the last of these pairs are those that judging the trees of their texts gives.
pub fn worked_trees()
    ensures { WorkedTrees }
{}

/// Pairs that look like an extraction or an inlining and aren't: a written variable that is passed by value, a parameter that
/// shadows a global, an argument that is put at each use, and a body with an early `return`.
pub fn wrong_pairs()
    ensures { WrongPairs }
{}
