//! Where units don't link, in all configurations at once (ISO/IEC 9899:2011, 6.2.2, 6.9).
#![tactic(auto)]

mod agreement_laws;
mod all_names;
mod availability;
mod built_in;
mod comparing;
mod definitions;
mod duplicates;
mod external;
mod failing;
mod gathered;
mod laws;
mod left;
mod mains;
mod names;
mod questions;
mod several;

pub use agreement_laws::{incompatible_names_are_those_of_what_is_seen, undeclared_names_agree};
pub use all_names::{Names, names_once};
pub use availability::where_undefined;
pub use comparing::where_incompatible;
pub use duplicates::where_duplicate;
pub use failing::where_links_fail;
pub use laws::{faults_are_those_of_what_is_seen, other_names_have_no_fault};
pub use left::{LeftNames, LeftUnit};
pub use mains::where_no_main;
pub use names::{declared, where_external};
