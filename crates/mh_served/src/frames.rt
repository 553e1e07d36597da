//! Messages to the editor, each in its frame.
use mh_protocol::head_for;
use serde_json::Value;
use std::alloc::{AllocError, Global};

/// Puts a message behind those that were put before.
pub(crate) fn put_message(
    alloc: Global,
    out: &mut Vec<u8>,
    message: &Value,
) -> Result<(), AllocError> {
    let text = message.to_string(alloc)?;
    put_framed(alloc, out, text.as_bytes())
}

fn put_framed(alloc: Global, out: &mut Vec<u8>, body: &[u8]) -> Result<(), AllocError> {
    let head = head_for(alloc, body.len())?;
    out.extend_from_slice(head.as_slice())?;
    out.extend_from_slice(body)
}

pub(crate) fn put_messages(
    alloc: Global,
    out: &mut Vec<u8>,
    messages: &[Value],
) -> Result<(), AllocError> {
    for message in messages {
        put_message(alloc, out, message)?;
    }
    Ok(())
}
