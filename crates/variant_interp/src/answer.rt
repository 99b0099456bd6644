//! What a run comes to.

/// What a run comes to, with all that it put out.
#[derive(Drop)]
pub enum RunAnswer {
    /// The program ended with this status.
    Ended(Vec<u8>, i32),
    /// The bound cut the run off.
    Running(Vec<u8>),
    /// The behaviour is undefined (3.4.3).
    Undefined(Vec<u8>),
}
