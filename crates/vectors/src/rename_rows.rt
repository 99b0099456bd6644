//! Renamings whose second write fails, whose report isn't printed, and whose room is told.

use crate::rows::{failing, holds, owned_words};
use morpheus_top::morpheus;
use project_store::{MemorySink, MemoryStore, SureSink, SureStore};
use std::alloc::{AllocError, Global};
use std::test::Fail;
use text_edits::{Files, SourceFile};

/// The sample project.
const SAMPLE: [(&str, &str); 4] = [
    ("p.toml", SAMPLE_PROJECT),
    ("counter.h", COUNTER_HEADER),
    ("counter.c", COUNTER),
    ("main.c", SAMPLE_MAIN),
];

const SAMPLE_PROJECT: &str = "features = [\"TRACE\", \"DOUBLE\", \"WIDE\"]
headers = [\"counter.h\"]
[[unit]]
file = \"counter.c\"
[[unit]]
file = \"main.c\"
";

const COUNTER_HEADER: &str = "#ifndef COUNTER_H
#define COUNTER_H
#define CLAMP(v, top) ((v) > (top) ? (top) : (v))
struct counter {
    int total;
#ifdef WIDE
    long high;
#endif
};
void add(struct counter *c, int n);
#endif
";

/// The same with the new name of the member.
const RENAMED_COUNTER_HEADER: &str = "#ifndef COUNTER_H
#define COUNTER_H
#define CLAMP(v, top) ((v) > (top) ? (top) : (v))
struct counter {
    int sum;
#ifdef WIDE
    long high;
#endif
};
void add(struct counter *c, int n);
#endif
";

const COUNTER: &str = "#include \"counter.h\"
static int twice(int v) { return v * 2; }
void add(struct counter *c, int n)
{
    int step = n;
#ifdef DOUBLE
    step = twice(step);
#endif
    c->total = CLAMP(c->total + step, 9);
#ifdef WIDE
    c->high = c->high + 1;
#endif
}
";

const SAMPLE_MAIN: &str = "#include <stdio.h>
#include \"counter.h\"
int main(void)
{
    struct counter c = { 0 };
    int i;
    for (i = 0; i < 3; i++) {
        add(&c, i);
#ifdef TRACE
        putchar('0' + c.total);
#endif
    }
    putchar('0' + c.total);
    putchar('\\n');
    return 0;
}
";

/// A local that hides what is renamed, in one configuration.
const HIDING: [(&str, &str); 2] = [
    (
        "p.toml",
        "features = [\"A\", \"B\"]\n[[unit]]\nfile = \"m.c\"\n",
    ),
    (
        "m.c",
        "int x;\nint main(void) {\n#ifdef B\nint z; z = 1;\n#endif\nx = 2;\nreturn x;\n}\n",
    ),
];

/// The second write is the sixth call, behind a read of each file.
const SECOND_WRITE: u32 = 6;

/// The bytes of the four files in `out`, and of their names.
const ROOM: u64 = 872;

fn files_of(alloc: Global, texts: &[(&str, &str)]) -> Result<Files, AllocError> {
    let mut list = Vec::new(alloc);
    for (name, text) in texts {
        let name = String::from_str(alloc, name)?;
        let bytes = Vec::from_slice(alloc, text.as_bytes())?;
        list.push(SourceFile { name, bytes })?;
    }
    Ok(Files { list })
}

#[test]
fn what_is_written_before_a_fault_is_whole(rt: HostRuntime) -> Result<(), Fail> {
    let alloc = rt.alloc();
    let words = owned_words(alloc, &["rename", "p.toml", "counter.h@111", "sum", "out"])?;
    let mut store = MemoryStore::new(
        alloc,
        files_of(alloc, &SAMPLE)?,
        failing(alloc, SECOND_WRITE)?,
    );
    let mut out = MemorySink::new(alloc, failing(alloc, 0)?);
    assert_eq!(rt; morpheus(alloc, &words, &mut store, &mut out), 4);
    assert_eq!(rt; out.bytes(), b"write fault\n".as_slice());
    assert!(rt; holds(&store, "out/counter.h", Some(RENAMED_COUNTER_HEADER)));
    assert!(rt; holds(&store, "out/main.c", None));
    assert!(rt; holds(&store, "out/p.toml", None));
    for (name, text) in &SAMPLE {
        assert!(rt; holds(&store, name, Some(text)));
    }
    Ok(())
}

#[test]
fn a_refusal_that_is_not_printed_writes_nothing(rt: HostRuntime) -> Result<(), Fail> {
    let alloc = rt.alloc();
    let words = owned_words(alloc, &["rename", "p.toml", "m.c@4", "z", "out"])?;
    let mut store = MemoryStore::new(alloc, files_of(alloc, &HIDING)?, failing(alloc, 0)?);
    let mut out = MemorySink::new(alloc, failing(alloc, 1)?);
    assert_eq!(rt; morpheus(alloc, &words, &mut store, &mut out), 6);
    assert!(rt; holds(&store, "out/m.c", None));
    assert!(rt; holds(&store, "out/p.toml", None));
    Ok(())
}

#[test]
fn told_room_suffices(rt: HostRuntime) -> Result<(), Fail> {
    let alloc = rt.alloc();
    let words = owned_words(alloc, &["rename", "p.toml", "counter.h@111", "sum", "out"])?;
    let mut store = SureStore::new(alloc, files_of(alloc, &SAMPLE)?, 4, ROOM)?;
    let mut out = SureSink::new(alloc, 28)?;
    assert_eq!(rt; morpheus(alloc, &words, &mut store, &mut out), 0);
    assert_eq!(rt; out.bytes(), b"renamed 5 tokens in 3 files\n".as_slice());
    assert_eq!(rt;
        store.get("out/counter.h"),
        Some(RENAMED_COUNTER_HEADER.as_bytes())
    );
    assert_eq!(rt; store.get("out/p.toml"), Some(SAMPLE_PROJECT.as_bytes()));
    Ok(())
}
