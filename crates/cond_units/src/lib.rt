//! The items of a unit, in all configurations at once (ISO/IEC 9899:2011, 6.7, 6.7.2.3, 6.9): what stands behind a declaration at file scope, and the
//! declarations that define no struct and no function.
#![tactic(auto)]

mod behind;
mod completions;
mod declarations;
mod definitions;
mod fitness;
mod following;
mod function_declarators;
mod function_types;
mod functions;
mod heads;
mod items;
mod lists;
mod names;
mod object_declarators;
mod object_types;
mod objects;
mod parts;
mod storages;
mod tags;
mod units;

pub use behind::ItemsBehind;
pub use declarations::{declare, declare_alone};
pub use definitions::define;
pub use following::Behind;
pub use function_declarators::read_function;
pub use functions::{declare_function, declare_signed};
pub use heads::{FunctionHead, HeadReader};
pub use items::{FileItems, declare_items};
pub use names::{FileDeclaration, declare_names};
pub use object_declarators::declare_object;
pub use parts::behind_stars;
pub use storages::{SaidStorage, Surroundings, said_storages};
pub use units::{ObjectDeclaration, UnitTables};
