use text_edits::Span;

#[test]
fn a_span_ends_before_its_end(rt: HostRuntime) {
    let word = Span { start: 3, end: 7 };
    let next = Span { start: 7, end: 8 };
    let place = Span { start: 5, end: 5 };
    assert!(rt; word.holds(3) && word.holds(6) && !word.holds(7));
    assert!(rt; word.meets(&Span { start: 6, end: 9 }));
    assert!(rt; !word.meets(&next) && !word.meets(&place));
}
