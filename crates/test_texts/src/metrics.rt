//! The status, read as Prometheus reads it.
use crate::status::NUMBERS;
use serve_texts::append_status;
use std::test::Fail;

/// What a line of the text is: its metric's name and, of a sample, its labels.
#[derive(Clone, Copy, PartialEq, Eq)]
enum Line<'a> {
    Help(&'a [u8]),
    Counter(&'a [u8]),
    Gauge(&'a [u8]),
    Sample(&'a [u8], &'a [u8]),
}

fn is_name(text: &[u8]) -> bool {
    text.starts_with(b"kudzuturret_") && text.iter().all(|b| b.is_ascii_lowercase() || *b == b'_')
}

/// One number, with a point in it or not.
fn is_value(text: &[u8]) -> bool {
    !text.is_empty()
        && text.iter().all(|b| b.is_ascii_digit() || *b == b'.')
        && text.iter().filter(|b| **b == b'.').count() < 2
}

/// What stands before the first space, and what stands after it.
fn at_space(text: &[u8]) -> Option<(&[u8], &[u8])> {
    let space = text.iter().position(|b| *b == b' ')?;
    Some((&text[..space], &text[space + 1..]))
}

/// A name, and labels in braces, if there are any.
fn at_brace(text: &[u8]) -> (&[u8], &[u8]) {
    match text.iter().position(|b| *b == b'{') {
        Some(brace) => (&text[..brace], &text[brace..]),
        None => (text, b""),
    }
}

fn is_label(text: &[u8]) -> bool {
    text.is_empty()
        || (text.starts_with(b"{kind=\"")
            && text.ends_with(b"\"}")
            && text.iter().filter(|b| **b == b'"').count() == 2)
}

fn line_of(text: &[u8]) -> Option<Line<'_>> {
    if let Some(rest) = text.strip_prefix(b"# HELP ".as_slice()) {
        let (name, help) = at_space(rest)?;
        return if help.is_empty() {
            None
        } else {
            Some(Line::Help(name))
        };
    }
    if let Some(rest) = text.strip_prefix(b"# TYPE ".as_slice()) {
        let (name, kind) = at_space(rest)?;
        return if kind == b"counter".as_slice() {
            Some(Line::Counter(name))
        } else if kind == b"gauge".as_slice() {
            Some(Line::Gauge(name))
        } else {
            None
        };
    }
    let (front, value) = at_space(text)?;
    let (name, label) = at_brace(front);
    if is_name(name) && is_label(label) && is_value(value) {
        Some(Line::Sample(name, label))
    } else {
        None
    }
}

/// Whether this line may follow those: help, then the kind, then samples of the same name. Only counters end in `_total`.
fn follows(before: Option<Line<'_>>, line: Option<Line<'_>>) -> bool {
    match (before, line) {
        (None | Some(Line::Sample(_, _)), Some(Line::Help(name))) => is_name(name),
        (Some(Line::Help(help)), Some(Line::Counter(name))) => help == name
            && name.ends_with(b"_total"),
        (Some(Line::Help(help)), Some(Line::Gauge(name))) => help == name
            && !name.ends_with(b"_total"),
        (Some(Line::Counter(kind) | Line::Gauge(kind)), Some(Line::Sample(name, _))) => kind
            == name,
        (Some(Line::Sample(other, one)), Some(Line::Sample(name, label))) => other == name
            && one != label
            && !one.is_empty(),
        _ => false,
    }
}

#[test]
fn each_metric_has_its_help_its_kind_and_its_samples(rt: HostRuntime) -> Result<(), Fail> {
    let mut head = Vec::new(rt.alloc());
    append_status(&mut head, &NUMBERS, true)?;
    let mut out = Vec::new(rt.alloc());
    append_status(&mut out, &NUMBERS, false)?;
    let text = out.as_slice().strip_prefix(head.as_slice()).unwrap_or(b"");
    // What stands after the last line feed is no line.
    let mut is_over = false;
    let mut before = None;
    let mut samples = 0u64;
    for part in text.split(|b| *b == b'\n') {
        assert!(rt; !is_over);
        if part.is_empty() {
            is_over = true;
            continue;
        }
        let line = line_of(part);
        assert!(rt; follows(before, line));
        if let Some(Line::Sample(_, _)) = line {
            samples = samples.saturating_add(1);
        }
        before = line;
    }
    assert!(rt; is_over);
    assert!(rt; samples == 26);
    Ok(())
}
