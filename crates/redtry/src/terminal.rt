//! Reads of a terminal, with the clock.
use crate::failure::Failure;
use crate::session::{Next, Session};
use mh_exit::Exit;
use mh_live::{Live, put_end};
use mh_told::text::Text;
use std::io;
use std::io::{Read, Write};
use std::rt::Runtime;
use std::time::Instant;

/// Plays at the terminal until it is left, its input ends, or it was read so often.
pub fn play_at<R: Runtime + AllocGlobal>(
    rt: &R,
    live: &mut Live,
    session: &mut Session<'_>,
    reads: u32,
) -> Result<Exit, Failure> {
    live.begin()?;
    session.show(rt, live)?;
    let begun = Instant::now(rt)?;
    let mut reader = rt.reader();
    let mut room = [0u8; 64];
    for _ in 0..reads {
        let count = read_some(&mut reader, room.as_mut_slice())?;
        let now = u64::try_from(begun.elapsed(rt)?.as_millis()).unwrap_or(u64::MAX);
        let bytes = room.get(..count).unwrap_or(&[]);
        if session.turn(rt, live, bytes, now)? == Next::End {
            break;
        }
        session.show(rt, live)?;
    }
    leave(rt)?;
    Ok(Exit::Good)
}

/// The bytes that a terminal has; none where the read was interrupted.
fn read_some<I: Read>(reader: &mut I, room: &mut [u8]) -> Result<usize, Failure> {
    match reader.read(room) {
        Ok(count) => Ok(count),
        Err(error) if error.kind() == io::ErrorKind::Interrupted => Ok(0),
        Err(_) => Err(Failure::Failed),
    }
}

/// Leaves the cursor below what was drawn.
fn leave<R: Runtime + AllocGlobal>(rt: &R) -> Result<(), Failure> {
    let mut text = Text::new(rt.alloc());
    put_end(&mut text)?;
    write(rt, &text)
}

/// Writes what goes to the terminal.
pub fn write<R: Runtime + AllocGlobal>(rt: &R, text: &Text) -> Result<(), Failure> {
    if text.as_slice().is_empty() {
        return Ok(());
    }
    let mut output = io::writer(rt);
    output.write_all(text.as_slice())?;
    output.flush()?;
    Ok(())
}
