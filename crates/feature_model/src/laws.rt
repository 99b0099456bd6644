//! Laws of constraints' texts. Each function is its contract alone.
ghost use Rattle.feature_model.specs.Laws.{TokensAreOne, TreeIsOne};

/// A text is written with one list of tokens at most.
pub fn tokens_are_one()
    ensures { TokensAreOne }
{}

/// A text has one tree at most.
pub fn tree_is_one()
    ensures { TreeIsOne }
{}
