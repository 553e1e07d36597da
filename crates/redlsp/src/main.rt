//! The program that an editor talks to: messages come on standard input, and what is said goes to standard output. The
//! conversation is led by `mh_served`; here are the disk, what is found of a service, and the exit status.
#![tactic(auto)]

mod command_line;
mod disk;
mod rules;

use crate::command_line::read_words;
use crate::disk::Disk;
use mh_command::{tell_no_task, words_of};
use mh_exit::Exit;
use mh_served::{Conversation, End};
use std::io;
use std::io::{Read, Write};
use std::process::ExitCode;
use std::rt::Runtime;

/// The most bytes that are read at once.
const PIECE: usize = 16384;

fn main(rt: HostRuntime) -> ExitCode {
    ExitCode::from(run(&rt).unwrap_or(Exit::Failed).code())
}

/// Does what the command line asks for.
fn run<R: Runtime + AllocGlobal>(rt: &R) -> io::Result<Exit> {
    let Some(words) = words_of(rt, "redlsp")? else {
        return Ok(Exit::Unreadable);
    };
    match read_words(rt.alloc(), words.as_slice()) {
        Ok(()) => serve(rt),
        Err(why) => tell_no_task(rt, &why),
    }
}

/// Leads a conversation to its end.
fn serve<R: Runtime + AllocGlobal>(rt: &R) -> io::Result<Exit> {
    let mut conversation = Conversation::new(rt.alloc());
    converse(rt, &mut conversation)?;
    Ok(exit_of(conversation.end()))
}

fn converse<R: Runtime + AllocGlobal>(rt: &R, conversation: &mut Conversation) -> io::Result<()> {
    let mut piece = [0; PIECE];
    let mut input = rt.reader();
    for _ in 0..u64::MAX {
        let size = input.read(&mut piece)?;
        let came = piece.get(..size).unwrap_or(&[]);
        if came.is_empty() {
            return Ok(());
        }
        hear(rt, conversation, came)?;
        if conversation.end() != End::Not {
            return Ok(());
        }
    }
    Ok(())
}

/// Hears what came, and says what is said to it.
fn hear<R: Runtime + AllocGlobal>(
    rt: &R,
    conversation: &mut Conversation,
    came: &[u8],
) -> io::Result<()> {
    let mut out = Vec::new(rt.alloc());
    let disk = Disk { rt };
    conversation.hear(rt.alloc(), &disk, came, &mut out)?;
    let mut output = io::writer(rt);
    output.write_all(out.as_slice())?;
    output.flush()
}

/// How the program ends. An input that ends before the conversation does is one that the editor left suddenly.
fn exit_of(end: End) -> Exit {
    match end {
        End::Good => Exit::Good,
        End::Not | End::Sudden => Exit::Otherwise,
        End::Unreadable => Exit::Unreadable,
    }
}
