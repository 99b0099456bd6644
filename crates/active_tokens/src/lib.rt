//! Which file tokens are active in a configuration (ISO/IEC 9899:2011, 6.10.1): the definitions (in `specs/`) and their law, the
//! contract of a function without a body.
#![tactic(auto)]

ghost use Rattle.active_tokens.specs.Active.{TokensComeFromActive};

/// What preprocessing gives comes from active tokens, but for the tokens of features that are on.
pub fn tokens_come_from_active()
    ensures { TokensComeFromActive }
{}
