//! Edits of a file of three bytes.
use crate::{Edit, EditError, apply};
use std::alloc::{AllocError, Global};
use std::test::Fail;
use text_edits::{Files, SourceFile, Span};

fn files(alloc: Global) -> Result<Files, AllocError> {
    let name = String::from_str(alloc, "a.c")?;
    let bytes = Vec::from_slice(alloc, b"abc")?;
    let list = vec![in alloc; SourceFile { name, bytes }]?;
    Ok(Files { list })
}

fn edit(alloc: Global, span: Span, text: &[u8]) -> Result<Edit, AllocError> {
    let text = Vec::from_slice(alloc, text)?;
    Ok(Edit {
        file: 0,
        span,
        text,
    })
}

fn is_past_end(done: Result<Files, EditError>, place: u32) -> bool {
    match done {
        Err(EditError::PastEnd(found)) => found == place,
        _ => false,
    }
}

fn is_overlap(done: Result<Files, EditError>, places: (u32, u32)) -> bool {
    match done {
        Err(EditError::Overlap(first, second)) => (first, second) == places,
        _ => false,
    }
}

#[test]
fn a_span_ends_past_the_file(rt: HostRuntime) -> Result<(), Fail> {
    let alloc = rt.alloc();
    let edits = vec![in alloc; edit(alloc, Span { start: 2, end: 4 }, b"x")?]?;
    assert!(rt; is_past_end(apply(alloc, &files(alloc)?, &edits), 0));
    Ok(())
}

#[test]
fn two_spans_overlap(rt: HostRuntime) -> Result<(), Fail> {
    let alloc = rt.alloc();
    let edits = vec![in alloc;
        edit(alloc, Span { start: 0, end: 2 }, b"x")?,
        edit(alloc, Span { start: 1, end: 3 }, b"y")?,
    ]?;
    assert!(rt; is_overlap(apply(alloc, &files(alloc)?, &edits), (0, 1)));
    Ok(())
}

#[test]
fn empty_spans_come_before_the_one_that_starts_there(rt: HostRuntime) -> Result<(), Fail> {
    let alloc = rt.alloc();
    let edits = vec![in alloc;
        edit(alloc, Span { start: 1, end: 2 }, b"4")?,
        edit(alloc, Span { start: 1, end: 1 }, b"2")?,
        edit(alloc, Span { start: 1, end: 1 }, b"3")?,
    ]?;
    let done = apply(alloc, &files(alloc)?, &edits)?;
    match done.list.get(0) {
        Some(file) => assert_eq!(rt; file.bytes.as_slice(), b"a234c".as_slice()),
        None => assert!(rt; false),
    }
    Ok(())
}
