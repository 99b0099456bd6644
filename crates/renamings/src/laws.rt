//! What is true of renamings, with no code.
ghost use Rattle.renamings.specs.Laws.{LinesAreRenamed, PlacesKeepTheirOrder, TokensStandApart};

/// The law that a file in which names are renamed has the lines of the file with these tokens renamed, to be cited in
/// proofs; the call does nothing.
pub fn lines_are_renamed()
    ensures { LinesAreRenamed }
{}

/// The law that places stay in their order where names of a file are renamed, to be cited in proofs; the call does
/// nothing.
pub fn places_keep_their_order()
    ensures { PlacesKeepTheirOrder }
{}

/// The law that no token of a file begins or ends within a renamed one, to be cited in proofs; the call does nothing.
pub fn tokens_stand_apart()
    ensures { TokensStandApart }
{}
