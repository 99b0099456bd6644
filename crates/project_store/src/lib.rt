//! The outside: where files are read and written, and where a report goes.
//!
//! `Store` and `Sink` say what may be relied on, whatever is behind them. The stores and sinks here
//! live in memory: `MemoryStore` and `MemorySink` fail at calls that are chosen beforehand,
//! `SureStore` and `SureSink` have their room reserved and fail for want of room alone.
#![tactic(auto)]

mod calls;
mod faults;
mod lookup;
mod memory_sink;
mod memory_store;
mod packed;
mod reads;
mod sink;
mod store;
mod sure_sink;
mod sure_store;

pub use faults::{a_rise_stays, rising_is_growing_or_standing_at_the_end};
pub use memory_sink::MemorySink;
pub use memory_store::MemoryStore;
pub use project_file::{Project, ProjectError, Unit};
pub use reads::{read_file, read_files, read_project};
pub use sink::{Sink, SinkFailed};
pub use store::{Store, StoreFault, WriteFailed};
pub use sure_sink::SureSink;
pub use sure_store::SureStore;
