use crate::rows::{failing, files_of, holds, owned_words};
use morpheus_top::morpheus;
use project_store::{MemorySink, MemoryStore, SureSink, SureStore};
use std::alloc::{AllocError, Global};
use std::test::Fail;

const PROJECT: &str = "features = [\"A\", \"B\"]
constraints = ['A || B']
[[unit]]
file = \"m.c\"
";

const TWICE: &str = "features = [\"A\", \"A\"]
[[unit]]
file = \"m.c\"
";

/// A command `admit p.toml`, and what it answers.
#[derive(Clone, Copy, Debug)]
struct Row {
    /// What stands in `p.toml`, if it is there.
    content: Option<&'static str>,
    /// The number of the call on the store that fails, or 0.
    failing_store: u32,
    /// The number of the call on the sink that fails, or 0.
    failing_sink: u32,
    status: u8,
    printed: &'static str,
}

const LEAST: Row = Row {
    content: Some(PROJECT),
    failing_store: 0,
    failing_sink: 0,
    status: 0,
    printed: "admits B\n",
};

const FAULT: Row = Row {
    content: Some(TWICE),
    failing_store: 0,
    failing_sink: 0,
    status: 5,
    printed: "bad project: duplicate A\n",
};

const NO_FILE: Row = Row {
    content: None,
    failing_store: 0,
    failing_sink: 0,
    status: 3,
    printed: "read fault\n",
};

const READ_FAILS: Row = Row {
    content: Some(PROJECT),
    failing_store: 1,
    failing_sink: 0,
    status: 3,
    printed: "read fault\n",
};

const SINK_FAILS: Row = Row {
    content: Some(PROJECT),
    failing_store: 0,
    failing_sink: 1,
    status: 6,
    printed: "",
};

const ROWS: [Row; 5] = [LEAST, FAULT, NO_FILE, READ_FAILS, SINK_FAILS];

/// What a row's command answered, and what of the rest is as wanted.
#[derive(Clone, Copy, Debug, PartialEq, Eq)]
struct Outcome {
    status: u8,
    is_printed: bool,
    is_kept: bool,
}

/// Carries out a row's command.
fn carried_out(alloc: Global, row: &Row) -> Result<Outcome, AllocError> {
    let words = owned_words(alloc, &["admit", "p.toml"])?;
    let files = files_of(alloc, "p.toml", row.content)?;
    let mut store = MemoryStore::new(alloc, files, failing(alloc, row.failing_store)?);
    let mut out = MemorySink::new(alloc, failing(alloc, row.failing_sink)?);
    let status = morpheus(alloc, &words, &mut store, &mut out);
    Ok(Outcome {
        status,
        is_printed: out.bytes() == row.printed.as_bytes(),
        is_kept: holds(&store, "p.toml", row.content),
    })
}

#[test]
fn each_row_has_its_answer(rt: HostRuntime) -> Result<(), Fail> {
    for row in &ROWS {
        let wanted = Outcome {
            status: row.status,
            is_printed: true,
            is_kept: true,
        };
        assert_eq!(rt; carried_out(rt.alloc(), row)?, wanted);
    }
    Ok(())
}

#[test]
fn told_room_suffices(rt: HostRuntime) -> Result<(), Fail> {
    let alloc = rt.alloc();
    let words = owned_words(alloc, &["admit", "p.toml"])?;
    let files = files_of(alloc, "p.toml", Some(PROJECT))?;
    let mut store = SureStore::new(alloc, files, 0, 0)?;
    let mut out = SureSink::new(alloc, 9)?;
    assert_eq!(rt; morpheus(alloc, &words, &mut store, &mut out), 0);
    assert_eq!(rt; out.bytes(), b"admits B\n".as_slice());
    Ok(())
}
