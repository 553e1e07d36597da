//! `Conversation`: bytes that are heard, and what is said to them.
use crate::asking::reply_to;
use crate::noticing::take_notice;
use crate::reply::{Why, put_refusal, put_reply};
use crate::session::{Phase, Session};
use crate::workspace::Workspace;
use mh_protocol::{Frame, frame_in, text_at};
use serde_json::Value;
use std::alloc::{AllocError, Global};
use std::mem;

/// How a conversation ended.
#[derive(Clone, Copy, PartialEq, Eq)]
pub enum End {
    /// It goes on.
    Not,
    /// As the editor asked for.
    Good,
    /// Without being asked for before.
    Sudden,
    /// With something that is no header of a message.
    Unreadable,
}

/// A conversation with an editor.
#[derive(Drop)]
pub struct Conversation {
    session: Session,
    /// What came of a message that has not come as a whole.
    heard: Vec<u8>,
    /// How many bytes of a message are still to come that is not read.
    skipped: usize,
    is_unreadable: bool,
}

impl Conversation {
    pub fn new(alloc: Global) -> Conversation {
        Conversation {
            session: Session::new(alloc),
            heard: Vec::new(alloc),
            skipped: 0,
            is_unreadable: false,
        }
    }

    /// Whether it ended, and how.
    pub fn end(&self) -> End {
        if self.is_unreadable {
            End::Unreadable
        } else if self.session.phase != Phase::Ended {
            End::Not
        } else if self.session.is_closed_well {
            End::Good
        } else {
            End::Sudden
        }
    }

    /// Hears some more bytes, and puts what is said to the messages that are whole with them.
    pub fn hear<W: Workspace>(
        &mut self,
        alloc: Global,
        workspace: &W,
        bytes: &[u8],
        out: &mut Vec<u8>,
    ) -> Result<(), AllocError> {
        let mut heard = mem::replace(&mut self.heard, Vec::new(alloc));
        heard.extend_from_slice(bytes)?;
        let rest = self.hear_all(alloc, workspace, heard.as_slice(), out)?;
        self.heard.extend_from_slice(rest)
    }

    /// Hears what came, and answers what is left of a message that is not whole.
    fn hear_all<'a, W: Workspace>(
        &mut self,
        alloc: Global,
        workspace: &W,
        heard: &'a [u8],
        out: &mut Vec<u8>,
    ) -> Result<&'a [u8], AllocError> {
        let mut rest = heard;
        for _ in 0..heard.len() {
            rest = self.skip(rest);
            if self.end() != End::Not || rest.is_empty() {
                return Ok(rest);
            }
            match self.hear_first(alloc, workspace, rest, out)? {
                Some(size) => rest = behind(rest, size),
                None => return Ok(rest),
            }
        }
        Ok(rest)
    }

    /// Passes over what is left of a message that is not read.
    fn skip<'a>(&mut self, rest: &'a [u8]) -> &'a [u8] {
        let size = self.skipped.min(rest.len());
        self.skipped -= size;
        behind(rest, size)
    }

    /// Hears the first message, and answers how many bytes it has; none where not all of it came.
    fn hear_first<W: Workspace>(
        &mut self,
        alloc: Global,
        workspace: &W,
        rest: &[u8],
        out: &mut Vec<u8>,
    ) -> Result<Option<usize>, AllocError> {
        match frame_in(rest) {
            Frame::More => Ok(None),
            Frame::Wrong => {
                self.is_unreadable = true;
                Ok(None)
            }
            Frame::Whole { start, length } => {
                let body = front_of(behind(rest, start), length);
                hear_message(alloc, workspace, &mut self.session, body, out)?;
                Ok(Some(start.saturating_add(length)))
            }
            Frame::Large { start, length } => {
                self.skipped = length;
                put_refusal(alloc, out, &Value::Null, Why::TooLarge)?;
                Ok(Some(start))
            }
        }
    }
}

fn behind(bytes: &[u8], size: usize) -> &[u8] {
    bytes.get(size..).unwrap_or(&[])
}

fn front_of(bytes: &[u8], size: usize) -> &[u8] {
    bytes.get(..size).unwrap_or(bytes)
}

/// Hears a message.
fn hear_message<W: Workspace>(
    alloc: Global,
    workspace: &W,
    session: &mut Session,
    body: &[u8],
    out: &mut Vec<u8>,
) -> Result<(), AllocError> {
    match Value::from_slice(alloc, body) {
        Ok(message) => hear_value(alloc, workspace, session, &message, out),
        Err(why) if why.is_memory() => Err(AllocError),
        Err(_) => put_refusal(alloc, out, &Value::Null, Why::NoJson),
    }
}

/// Hears what a message says: a request is answered, and what is told is taken. An answer is passed over, since nothing is asked.
fn hear_value<W: Workspace>(
    alloc: Global,
    workspace: &W,
    session: &mut Session,
    message: &Value,
    out: &mut Vec<u8>,
) -> Result<(), AllocError> {
    let id = message.get("id");
    match text_at(message, "/method") {
        Some(method) => match id {
            Some(id) => {
                let reply = reply_to(alloc, workspace, session, method, message)?;
                put_reply(alloc, out, id, reply)
            }
            None => take_notice(alloc, workspace, session, method, message, out),
        },
        None => match id {
            Some(_) => Ok(()),
            None => put_refusal(alloc, out, &Value::Null, Why::NoRequest),
        },
    }
}
