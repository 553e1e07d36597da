//! What is told of a case that does not hold.
use crate::case::{Answer, Call, Case};
use crate::comparing::{Difference, first_difference};
use bstr::ByteSlice;
use std::alloc::{AllocError, Global};
use std::io;
use std::rt::Runtime;

/// Tells that a call could not be made.
pub fn tell_unmade<R: Runtime + AllocGlobal>(
    rt: &R,
    name: &str,
    case: &Case,
    call: &Call,
) -> io::Result<()> {
    tell_place(rt, name, case, call)?;
    println!(rt; "  cannot be made")?;
    Ok(())
}

/// Tells that another answer was found than is wanted, and the first line that differs.
pub fn tell_other<R: Runtime + AllocGlobal>(
    rt: &R,
    name: &str,
    case: &Case,
    call: &Call,
    found: &Answer,
) -> io::Result<()> {
    tell_place(rt, name, case, call)?;
    let (wanted, status) = (call.wanted.status, found.status);
    if status != wanted {
        println!(rt; "  exit status {status}, and {wanted} is wanted")?;
    }
    if call.wanted.written.is_empty() {
        return tell_found(rt, found.written.as_slice());
    }
    match first_difference(call.wanted.written.as_slice(), found.written.as_slice()) {
        Some(differs) => tell_difference(rt, &differs),
        None => Ok(()),
    }
}

/// Tells all that was found where nothing is wanted, so that it can be looked at.
fn tell_found<R: Runtime + AllocGlobal>(rt: &R, found: &[u8]) -> io::Result<()> {
    for line in found.split_str(b"\n") {
        let line = shown(rt.alloc(), Some(line))?;
        println!(rt; "  {line}")?;
    }
    Ok(())
}

fn tell_place<R: Runtime + AllocGlobal>(
    rt: &R,
    name: &str,
    case: &Case,
    call: &Call,
) -> io::Result<()> {
    let (line, title) = (call.line, case.title.as_str());
    println!(rt; "cases/{name}:{line}: {title}")?;
    let text = call.text.as_str();
    println!(rt; "  {text}")?;
    Ok(())
}

fn tell_difference<R: Runtime + AllocGlobal>(rt: &R, differs: &Difference<'_>) -> io::Result<()> {
    let line = differs.line;
    let wanted = shown(rt.alloc(), differs.wanted)?;
    let found = shown(rt.alloc(), differs.found)?;
    println!(rt; "  line {line} wanted: {wanted}")?;
    println!(rt; "  line {line} found:  {found}")?;
    Ok(())
}

/// A line as a file of cases writes it, or that there is none.
fn shown(alloc: Global, line: Option<&[u8]>) -> Result<String, AllocError> {
    let Some(line) = line else {
        return String::from_str(alloc, "(the end)");
    };
    let mut text = String::new(alloc);
    for byte in line {
        let byte = *byte;
        if byte == b'\\' || !(32..127).contains(&byte) {
            text.push_str(format!(in alloc; "\\{byte:02x}")?.as_str())?;
        } else {
            text.push(byte as char)?;
        }
    }
    Ok(text)
}
