//! Answers to requests.
use crate::frames::put_message;
use mh_protocol::{Fault, answer, refusal};
use serde_json::Value;
use std::alloc::{AllocError, Global};

/// What is answered.
#[derive(Drop)]
pub(crate) enum Reply {
    Told(Value),
    Refused(Why),
}

/// Why a request is refused.
#[derive(Clone, Copy)]
pub(crate) enum Why {
    NoJson,
    NoRequest,
    TooLarge,
    NotInitialized,
    InitializedBefore,
    Closing,
    Unknown,
    NoFile,
    NoPlace,
    NoObject,
    BadNumber,
    Taken,
}

impl Why {
    fn fault(self) -> Fault {
        match self {
            Why::NoJson => Fault::Parse,
            Why::NoRequest | Why::TooLarge | Why::InitializedBefore | Why::Closing => {
                Fault::NoRequest
            }
            Why::NotInitialized => Fault::NotInitialized,
            Why::Unknown => Fault::MethodNotFound,
            Why::NoFile | Why::NoPlace | Why::BadNumber => Fault::Params,
            Why::NoObject | Why::Taken => Fault::Failed,
        }
    }

    fn words(self) -> &'static str {
        match self {
            Why::NoJson => "the message is no JSON",
            Why::NoRequest => "the message is no request",
            Why::TooLarge => "the message has more than 4 MiB",
            Why::NotInitialized => "nothing was initialized yet",
            Why::InitializedBefore => "it is initialized already",
            Why::Closing => "the end was asked for",
            Why::Unknown => "no such request is known",
            Why::NoFile => "no file of a service is named",
            Why::NoPlace => "no place is told",
            Why::NoObject => "no number of an object stands there",
            Why::BadNumber => "a number is from 1 to 2147483647",
            Why::Taken => "another object of the group has this number",
        }
    }
}

/// Puts the answer to the request with this id.
pub(crate) fn put_reply(
    alloc: Global,
    out: &mut Vec<u8>,
    id: &Value,
    reply: Reply,
) -> Result<(), AllocError> {
    match reply {
        Reply::Told(value) => put_answer(alloc, out, id, value),
        Reply::Refused(why) => put_refusal(alloc, out, id, why),
    }
}

fn put_answer(
    alloc: Global,
    out: &mut Vec<u8>,
    id: &Value,
    value: Value,
) -> Result<(), AllocError> {
    let message = answer(alloc, id, value)?;
    put_message(alloc, out, &message)
}

pub(crate) fn put_refusal(
    alloc: Global,
    out: &mut Vec<u8>,
    id: &Value,
    why: Why,
) -> Result<(), AllocError> {
    let message = refusal(alloc, id, why.fault(), why.words())?;
    put_message(alloc, out, &message)
}
