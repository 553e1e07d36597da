//! What the program can do, as an editor is told when it begins.
use mh_protocol::Unit;
use serde_json::Value;
use std::alloc::{AllocError, Global};

/// What it can do, where an editor counts in units of 16 bits.
const IN_UTF_16: &str =
    "{\"capabilities\":{\"positionEncoding\":\"utf-16\",\"textDocumentSync\":{\"openClose\":true,\"change\":2},\"hoverProvider\":true,\"definitionProvider\":true,\"referencesProvider\":true,\"completionProvider\":{\"triggerCharacters\":[\":\",\"(\"]},\"documentSymbolProvider\":true,\"workspaceSymbolProvider\":true,\"renameProvider\":{\"prepareProvider\":true},\"foldingRangeProvider\":true,\"colorProvider\":true,\"documentFormattingProvider\":true,\"codeActionProvider\":{\"codeActionKinds\":[\"quickfix\"]}},\"serverInfo\":{\"name\":\"redlsp\"}}";

/// The same, where it counts in bytes.
const IN_UTF_8: &str =
    "{\"capabilities\":{\"positionEncoding\":\"utf-8\",\"textDocumentSync\":{\"openClose\":true,\"change\":2},\"hoverProvider\":true,\"definitionProvider\":true,\"referencesProvider\":true,\"completionProvider\":{\"triggerCharacters\":[\":\",\"(\"]},\"documentSymbolProvider\":true,\"workspaceSymbolProvider\":true,\"renameProvider\":{\"prepareProvider\":true},\"foldingRangeProvider\":true,\"colorProvider\":true,\"documentFormattingProvider\":true,\"codeActionProvider\":{\"codeActionKinds\":[\"quickfix\"]}},\"serverInfo\":{\"name\":\"redlsp\"}}";

/// What an editor is told that counts so.
pub(crate) fn capabilities(alloc: Global, unit: Unit) -> Result<Value, AllocError> {
    let text = match unit {
        Unit::Utf16 => IN_UTF_16,
        Unit::Utf8 => IN_UTF_8,
    };
    match Value::from_str(alloc, text) {
        Ok(value) => Ok(value),
        Err(why) if why.is_memory() => Err(AllocError),
        Err(_) => Ok(Value::Null),
    }
}

/// What the editor counts in: bytes, where it offers that.
pub(crate) fn unit_offered(message: &Value) -> Unit {
    match message.pointer("/params/capabilities/general/positionEncodings") {
        Some(Value::Array(offered)) if offered.iter().any(is_utf_8) => Unit::Utf8,
        _ => Unit::Utf16,
    }
}

fn is_utf_8(offered: &Value) -> bool {
    match offered.as_str() {
        Some(word) => word == "utf-8",
        None => false,
    }
}
