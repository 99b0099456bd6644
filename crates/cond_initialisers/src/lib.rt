//! Where initialisers are refused, in all configurations at once (ISO/IEC 9899:2011, 6.7.9). An expression is refused as the caller says, a list in
//! braces by its entries, of which each is for one part of what is initialised: in each configuration the entries that are there are matched in
//! pairs with the parts that are there.
#![tactic(auto)]

mod constant_laws;
mod constants;
mod expressions;
mod first_values;
mod forms;
mod laws;
mod lists;
mod numbers;
mod pairs;
mod places;
mod reading;
mod rows;
mod shapes;
mod typed_expressions;
mod typed_initialisers;

pub use constant_laws::{first_values_are_there, globals_are_refused_by_constants};
pub use expressions::Expressions;
pub use first_values::{Constants, where_first_value_refused};
pub use laws::{initialisers_are_refused, locals_are_refused_by_types};
pub use reading::where_refused;
pub use typed_expressions::{where_failed, where_unfit, where_without_room};
pub use typed_initialisers::{Typed, where_initialiser_refused};
