//! What is found, compared to what is wanted.
use bstr::ByteSlice;
use std::alloc::{AllocError, Global};

/// The first line that differs: its number, counted from 1, and the line on each side, if there is one.
#[derive(Drop)]
pub struct Difference<'a> {
    pub line: usize,
    pub wanted: Option<&'a [u8]>,
    pub found: Option<&'a [u8]>,
}

/// The first line in which two texts differ; none where they are the same.
pub fn first_difference<'a>(wanted: &'a [u8], found: &'a [u8]) -> Option<Difference<'a>> {
    let mut others = found.split_str(b"\n");
    let mut line: usize = 0;
    for own in wanted.split_str(b"\n") {
        line = line.saturating_add(1);
        let other = others.next();
        if other != Some(own) {
            return Some(Difference {
                line,
                wanted: Some(own),
                found: other,
            });
        }
    }
    let other = others.next()?;
    Some(Difference {
        line: line.saturating_add(1),
        wanted: None,
        found: Some(other),
    })
}

/// The lines that hold the word.
pub fn lines_with(alloc: Global, text: &[u8], word: &str) -> Result<Vec<u8>, AllocError> {
    let mut lines = Vec::new(alloc);
    for line in text.split_str(b"\n") {
        if line.contains_str(word.as_bytes()) {
            lines.extend_from_slice(line)?;
            lines.push(b'\n')?;
        }
    }
    Ok(lines)
}
