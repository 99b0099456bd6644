//! What streams have to do with active tokens, with no code.
ghost use Rattle.cond_pp.specs.Laws.{StreamsComeFromActive};

use active_tokens::tokens_come_from_active;

/// The law that the tokens of a stream come from active tokens, but for those of features that are on; the call does nothing.
pub fn streams_come_from_active()
    ensures { StreamsComeFromActive }
{
    tokens_come_from_active();
}
