//! What both preprocessors read of a unit's files, whatever the configuration: where the files stand, what an `#include` finds, how
//! a directive line belongs to groups, and the tokens that refuse (ISO/IEC 9899:2011, 6.10).
#![tactic(auto)]

mod bad_tokens;
mod features;
mod inclusions;
mod laws;
mod refusals;
mod roles;
mod sources;
mod surroundings;
mod tests;

pub use bad_tokens::{
    behind, is_spelled, is_word, refused, refused_ignored, refused_in_run, refused_token,
};
pub use features::feature_token;
pub use inclusions::{Source, source_of};
pub use laws::{sources_are_walked, sources_break};
pub use refusals::{PpKind, Refusal, earlier, refusal_at};
pub use roles::{Role, role_of};
pub use sources::{Sources, built_in_length, its_lines, source_number};
pub use surroundings::{Surroundings, is_feature};
pub use tests::{Test, test_behind};
