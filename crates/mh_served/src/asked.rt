//! What can be asked for.

/// What can be asked for.
#[derive(Clone, Copy)]
pub(crate) enum Asked {
    Initialize,
    Shutdown,
    Hover,
    Definition,
    References,
    Completion,
    Symbols,
    ServiceSymbols,
    RenamedRange,
    Rename,
    Folds,
    Colours,
    ColourText,
    Layout,
    Actions,
    Unknown,
}

/// What a method asks for.
pub(crate) fn asked_of(method: &str) -> Asked {
    match method {
        "initialize" => Asked::Initialize,
        "shutdown" => Asked::Shutdown,
        "textDocument/hover" => Asked::Hover,
        "textDocument/definition" => Asked::Definition,
        "textDocument/references" => Asked::References,
        "textDocument/completion" => Asked::Completion,
        "textDocument/documentSymbol" => Asked::Symbols,
        "workspace/symbol" => Asked::ServiceSymbols,
        "textDocument/prepareRename" => Asked::RenamedRange,
        "textDocument/rename" => Asked::Rename,
        "textDocument/foldingRange" => Asked::Folds,
        "textDocument/documentColor" => Asked::Colours,
        "textDocument/colorPresentation" => Asked::ColourText,
        "textDocument/formatting" => Asked::Layout,
        "textDocument/codeAction" => Asked::Actions,
        _ => Asked::Unknown,
    }
}
