use morpheus_top::morpheus;
use project_store::{MemorySink, MemoryStore};
use std::alloc::{AllocError, Global};
use std::test::Fail;
use text_edits::{Files, SourceFile};

const EXAMPLE: &str = "int x = 65;
#ifdef A
int y;
#endif
int main(void) { putchar(x); return 0; }
";

const RENAMED: &str = "int z = 65;
#ifdef A
int y;
#endif
int main(void) { putchar(z); return 0; }
";

/// A command `quick q.c x NEW out`, and what it answers.
#[derive(Clone, Copy, Debug)]
struct Row {
    new: &'static str,
    /// What stands in `q.c`, if it is there.
    content: Option<&'static str>,
    /// The number of the call on the store that fails, or 0. The first reads, the second writes.
    failing_store: u32,
    /// The number of the call on the sink that fails, or 0.
    failing_sink: u32,
    status: u8,
    printed: &'static str,
    /// What stands in `out/q.c` afterwards, if it is there.
    written: Option<&'static str>,
}

/// The first row: the example is renamed.
const RENAMES: Row = Row {
    new: "z",
    content: Some(EXAMPLE),
    failing_store: 0,
    failing_sink: 0,
    status: 0,
    printed: "renamed 2 tokens in 1 files\n",
    written: Some(RENAMED),
};

const EMPTY_FILE: Row = Row {
    new: "z",
    content: Some(""),
    failing_store: 0,
    failing_sink: 0,
    status: 12,
    printed: "not quick at 0\n",
    written: None,
};

const SAME_NAME: Row = Row {
    new: "x",
    content: Some(EXAMPLE),
    failing_store: 0,
    failing_sink: 0,
    status: 2,
    printed: "usage\n",
    written: None,
};

const NO_FILE: Row = Row {
    new: "z",
    content: None,
    failing_store: 0,
    failing_sink: 0,
    status: 3,
    printed: "read fault\n",
    written: None,
};

const READ_FAILS: Row = Row {
    new: "z",
    content: Some(EXAMPLE),
    failing_store: 1,
    failing_sink: 0,
    status: 3,
    printed: "read fault\n",
    written: None,
};

const WRITE_FAILS: Row = Row {
    new: "z",
    content: Some(EXAMPLE),
    failing_store: 2,
    failing_sink: 0,
    status: 4,
    printed: "write fault\n",
    written: None,
};

const SINK_FAILS: Row = Row {
    new: "z",
    content: Some(EXAMPLE),
    failing_store: 0,
    failing_sink: 1,
    status: 6,
    printed: "",
    written: Some(RENAMED),
};

const ROWS: [Row; 7] = [
    RENAMES,
    EMPTY_FILE,
    SAME_NAME,
    NO_FILE,
    READ_FAILS,
    WRITE_FAILS,
    SINK_FAILS,
];

/// Words of their own.
pub(crate) fn owned_words(alloc: Global, words: &[&str]) -> Result<Vec<String>, AllocError> {
    let mut owned = Vec::new(alloc);
    for word in words {
        owned.push(String::from_str(alloc, word)?)?;
    }
    Ok(owned)
}

/// The one file of a row, if it has one.
pub(crate) fn files_of(
    alloc: Global,
    name: &str,
    content: Option<&'static str>,
) -> Result<Files, AllocError> {
    let mut list = Vec::new(alloc);
    if let Some(content) = content {
        let name = String::from_str(alloc, name)?;
        let bytes = Vec::from_slice(alloc, content.as_bytes())?;
        list.push(SourceFile { name, bytes })?;
    }
    Ok(Files { list })
}

/// The numbers of the calls that fail.
pub(crate) fn failing(alloc: Global, number: u32) -> Result<Vec<u32>, AllocError> {
    let mut numbers = Vec::new(alloc);
    if number > 0 {
        numbers.push(number)?;
    }
    Ok(numbers)
}

/// What a row's command answered, and what of the rest is as wanted.
#[derive(Clone, Copy, Debug, PartialEq, Eq)]
struct Outcome {
    status: u8,
    is_printed: bool,
    is_written: bool,
    is_kept: bool,
}

/// Whether the store has these bytes under the name, or nothing where none are wanted.
pub(crate) fn holds(store: &MemoryStore, name: &str, wanted: Option<&'static str>) -> bool {
    match (store.get(name), wanted) {
        (Some(bytes), Some(text)) => bytes == text.as_bytes(),
        (None, None) => true,
        _ => false,
    }
}

/// Carries out a row's command.
fn carried_out(alloc: Global, row: &Row) -> Result<Outcome, AllocError> {
    let words = owned_words(alloc, &["quick", "q.c", "x", row.new, "out"])?;
    let files = files_of(alloc, "q.c", row.content)?;
    let mut store = MemoryStore::new(alloc, files, failing(alloc, row.failing_store)?);
    let mut out = MemorySink::new(alloc, failing(alloc, row.failing_sink)?);
    let status = morpheus(alloc, &words, &mut store, &mut out);
    Ok(Outcome {
        status,
        is_printed: out.bytes() == row.printed.as_bytes(),
        is_written: holds(&store, "out/q.c", row.written),
        is_kept: holds(&store, "q.c", row.content),
    })
}

#[test]
fn each_row_has_its_answer(rt: HostRuntime) -> Result<(), Fail> {
    for row in &ROWS {
        let wanted = Outcome {
            status: row.status,
            is_printed: true,
            is_written: true,
            is_kept: true,
        };
        assert_eq!(rt; carried_out(rt.alloc(), row)?, wanted);
    }
    Ok(())
}
