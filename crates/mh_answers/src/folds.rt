//! What of a file may be folded: the lines from an opening bracket to the one above that which closes it.
use mh_edit::{Word, words_of};
use mh_protocol::{Counter, Unit};
use mh_text::TokenKind;
use serde_json::{Value, json, push};
use std::alloc::{AllocError, Global};

/// The lines between brackets, in the order in which these close.
pub fn folds_in(alloc: Global, unit: Unit, bytes: &[u8]) -> Result<Value, AllocError> {
    let words = words_of(alloc, bytes)?;
    let mut found = Vec::new(alloc);
    push_folds(alloc, &mut found, unit, bytes, words.as_slice())?;
    Ok(Value::Array(found))
}

fn push_folds(
    alloc: Global,
    found: &mut Vec<Value>,
    unit: Unit,
    bytes: &[u8],
    words: &[Word],
) -> Result<(), AllocError> {
    let mut places = Counter::of(unit, bytes);
    let mut lines = Vec::new(alloc);
    for word in words {
        let line = places.place_at(word.at.start).line;
        match word.kind {
            TokenKind::OpenBrace | TokenKind::OpenParenthesis => lines.push(line)?,
            TokenKind::CloseBrace | TokenKind::CloseParenthesis => {
                push_fold(alloc, found, lines.pop(), line)?;
            }
            _ => {}
        }
    }
    Ok(())
}

/// Pushes what may be folded between two lines, if there is something.
fn push_fold(
    alloc: Global,
    found: &mut Vec<Value>,
    start: Option<usize>,
    close: usize,
) -> Result<(), AllocError> {
    let Some(start) = start else {
        return Ok(());
    };
    let end = close.saturating_sub(1);
    if end <= start {
        return Ok(());
    }
    push(
        found,
        json!(in alloc; {"endLine": end as u64, "startLine": start as u64})?,
    )
}
