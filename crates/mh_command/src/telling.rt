//! The words of a command line, had from the system, and what is told where nothing can be done with them.
use crate::no_task::NoTask;
use mh_exit::Exit;
use mh_folder::Unread;
use std::rt::Runtime;
use std::{env, io};

/// The words of the command line; where one of them is not UTF-8 that is told under the program's name, and there are none.
pub fn words_of<R: Runtime + AllocGlobal>(
    rt: &R,
    program: &str,
) -> io::Result<Option<Vec<String>>> {
    match env::args(rt) {
        Ok(words) => Ok(Some(words.collect::<Vec<String>>(rt.alloc())?)),
        Err(error) if error.kind() == io::ErrorKind::InvalidData => {
            eprintln!(rt; "{program}: a word of the command line is not UTF-8")?;
            Ok(None)
        }
        Err(error) => Err(error),
    }
}

/// Tells why the words ask for no task.
pub fn tell_no_task<R: Runtime>(rt: &R, why: &NoTask) -> io::Result<Exit> {
    match why {
        NoTask::Said(error) => {
            error.print(rt)?;
            Ok(if error.use_stderr() {
                Exit::Unreadable
            } else {
                Exit::Good
            })
        }
        NoTask::NoMemory => Ok(Exit::Failed),
    }
}

/// Tells which file cannot be read.
pub fn tell_unread<R: Runtime>(rt: &R, why: &Unread) -> io::Result<Exit> {
    match why {
        Unread::File(name) => {
            println!(rt; "read {name}")?;
            Ok(Exit::Unreadable)
        }
        Unread::NoMemory => Ok(Exit::Failed),
    }
}
