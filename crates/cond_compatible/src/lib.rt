//! Where types are compatible, in all configurations at once, over the structs of all units (ISO/IEC 9899:2011, 6.2.7). Structs are compared to
//! ever greater depths: two are alike to a depth if their members agree where structs are compared to the depth before. Where nothing changes any
//! more, those that are alike are compatible.
#![tactic(auto)]

mod alike;
mod comparing;
mod laws;
mod members;
mod sorts;
mod types;

pub use alike::AlikeStructs;
pub use comparing::{alike_structs, where_compatible};
pub use laws::{agreeing_sorts_stay_so, compatible_types_stay_so};
pub use sorts::{where_alike_sorts_agree, where_signatures_agree, where_sorts_agree};
pub use types::where_types_agree;
