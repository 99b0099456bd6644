use morpheus_top::morpheus;
use project_store::{MemorySink, MemoryStore};
use std::alloc::{AllocError, Global};
use vector_cases::{Case, copy_of};

/// What a command answered.
#[derive(Debug, Drop)]
pub(crate) struct Answer {
    pub(crate) status: u8,
    pub(crate) out: MemorySink,
    pub(crate) store: MemoryStore,
}

impl Answer {
    /// What the case's command answers, where no call fails.
    pub(crate) fn of(alloc: Global, case: &Case) -> Result<Answer, AllocError> {
        let files = copy_of(alloc, &case.files)?;
        let mut store = MemoryStore::new(alloc, files, Vec::new(alloc));
        let mut out = MemorySink::new(alloc, Vec::new(alloc));
        let status = morpheus(alloc, &case.words, &mut store, &mut out);
        Ok(Answer { status, out, store })
    }
}
