//! What is said to an editor: answers, refusals and what it is told unasked; and the places in them.
ghost use Rattle.std.specs.Prelude.{◌≡◌, ◌++◌, codes, decimal, IfOk, string_bytes};
ghost use Rattle.serde_json.specs.View.{view};
ghost use Rattle.mh_protocol.specs.Answers as spec;

use crate::edit::Range;
use crate::position::Position;
use serde_json::{Value, json};
use std::alloc::{AllocError, Global};

/// Why a request is refused.
#[derive(Clone, Copy, PartialEq, Eq)]
pub enum Fault {
    /// The message is no JSON.
    Parse,
    /// The message is no request.
    NoRequest,
    /// Nothing of this name can be asked for.
    MethodNotFound,
    /// What is asked for is not told in full, or cannot be done with it.
    Params,
    /// Nothing was initialized yet.
    NotInitialized,
    /// What is asked for cannot be done now.
    Failed,
}

impl Fault {
    /// The number of the protocol.
    pub fn number(self) -> i64
        ensures { result ≡ spec.fault_number self }
    {
        match self {
            Fault::Parse => -32700,
            Fault::NoRequest => -32600,
            Fault::MethodNotFound => -32601,
            Fault::Params => -32602,
            Fault::NotInitialized => -32002,
            Fault::Failed => -32803,
        }
    }
}

/// The answer to a request.
#[tactic(auto, unfolding(crate::specs::Answers::answer_data))]
pub fn answer(alloc: Global, id: &Value, result_value: Value) -> Result<Value, AllocError>
    ensures { IfOk result (λ v. view v ≡ spec.answer_data (view id.now) (view result_value)) }
{
    json!(in alloc; {"id": id, "jsonrpc": "2.0", "result": result_value})
}

/// The refusal of a request.
#[tactic(auto, unfolding(crate::specs::Answers::refusal_data))]
pub fn refusal(alloc: Global, id: &Value, fault: Fault, message: &str) -> Result<Value, AllocError>
    ensures { IfOk result (λ v. view v ≡ spec.refusal_data (view id.now) fault message.now) }
{
    let error = error_of(alloc, fault, message)?;
    json!(in alloc; {"error": error, "id": id, "jsonrpc": "2.0"})
}

#[tactic(auto, unfolding(crate::specs::Answers::error_data))]
fn error_of(alloc: Global, fault: Fault, message: &str) -> Result<Value, AllocError>
    ensures { IfOk result (λ v. view v ≡ spec.error_data fault message.now) }
{
    json!(in alloc; {"code": fault.number(), "message": message})
}

/// What is told unasked.
#[tactic(auto, unfolding(crate::specs::Answers::notice_data))]
pub fn notice(alloc: Global, method: &str, params: Value) -> Result<Value, AllocError>
    ensures { IfOk result (λ v. view v ≡ spec.notice_data method.now (view params)) }
{
    json!(in alloc; {"jsonrpc": "2.0", "method": method, "params": params})
}

/// A range, as it is written.
#[tactic(auto, unfolding(crate::specs::Answers::range_data))]
pub fn range_value(alloc: Global, range: Range) -> Result<Value, AllocError>
    ensures { IfOk result (λ v. view v ≡ spec.range_data range) }
{
    let start = position_value(alloc, range.start)?;
    let end = position_value(alloc, range.end)?;
    json!(in alloc; {"end": end, "start": start})
}

/// A place, as it is written.
#[tactic(auto, unfolding(crate::specs::Answers::position_data))]
pub fn position_value(alloc: Global, at: Position) -> Result<Value, AllocError>
    ensures { IfOk result (λ v. view v ≡ spec.position_data at) }
{
    json!(in alloc; {"character": at.character as u64, "line": at.line as u64})
}
