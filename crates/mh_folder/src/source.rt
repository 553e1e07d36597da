//! `Source`: where the bytes of a file come from, a piece at a time.
//!
//! A source tells the bytes that are left, where they can be known, and counts its reads. Reading a file is
//! one loop, here: it ends and is bounded whatever the source does, and what it hands out is all that the
//! source had, or its first 1,048,577 bytes. Where a read fails no bytes are handed out.
ghost use Rattle.std.specs.Prelude.{◌≡◌, ◌+◌, ◌<◌, ◌≤◌, ℕ, List, Option, ◌++◌, length, take, unwrap_or, Some, IfOk, IfErr, OnErr, IfSome, IfNone};
ghost use Rattle.std.specs.Io.KnownBytes.{Consumes};
ghost use Rattle.mh_base.specs.Limits.{largest_file};
ghost use Rattle.mh_folder.specs.declared.tally.Tally.{Tally};
ghost use Rattle.mh_folder.specs.Source.{most_read, unread, Gave, after_read, CanCount, IsFrugal, HasGiven, IsHad, IsFault, IsRefused};

use crate::tally::Tally;
use crate::unread::Unread;
use mh_base::LARGEST_FILE;
use std::alloc::{AllocError, Global};
use std::io;

/// The most bytes that are asked for: one more than a file may have, by which a longer one is known.
pub const MOST_READ: usize = LARGEST_FILE + 1;

/// The most bytes that one read is asked for.
const PIECE: usize = 4096;

/// Gives the bytes of a file.
pub trait Source {
    /// The bytes that reads will give from here on, where they can be known.
    ghost left: { Self → Option (List ℕ) };

    /// How it was read so far.
    ghost tally: { Self → Tally };

    /// Gives some bytes, at the front of the room, and says how many: none only at the end. Where the read
    /// fails nothing is said, and no byte was taken.
    fn read(&mut self, room: &mut [u8]) -> Option<usize>
        requires some { 0 < length room.old }
        requires counts { CanCount (tally self.old) (length room.old) }
        ensures within { unwrap_or result 0 ≤ length room.old }
        ensures bytes { Gave (left self.old) (left self.new) result room.new }
        ensures tallied { tally self.new ≡ after_read result (length room.old) (tally self.old) };
}

/// The bytes of a file: all that the source has, or its first 1,048,577. Where a read fails the file is
/// called by its name, and no bytes are handed out.
pub fn read_whole<S: Source>(alloc: Global, name: &str, source: &mut S) -> Result<Vec<u8>, Unread>
    requires { CanCount (S.tally source.old) most_read }
    ensures whole { IfOk result (λ bytes. IfSome (S.left source.old) (λ had. bytes.items ≡ take most_read had)) }
    ensures rest { IfOk result (λ bytes. Consumes (S.left source.old) (S.left source.new) bytes.items) }
    ensures most { IfOk result (λ bytes. length bytes.items ≤ most_read) }
    ensures good { IfOk result (λ bytes. HasGiven (S.tally source.old) (S.tally source.new) bytes.items) }
    ensures fault { IfErr result (IsFault name.now (S.tally source.old) (S.tally source.new)) }
    ensures frugal { IsFrugal (S.tally source.old) (S.tally source.new) }
{
    let told = String::from_str(alloc, name)?;
    match bytes_of(alloc, source)? {
        Some(bytes) => Ok(bytes),
        None => Err(Unread::File(told)),
    }
}

/// The bytes of a file that may not be longer than 1,048,576 bytes. A longer one is told as one that
/// cannot be read.
pub fn read_short<S: Source>(alloc: Global, name: &str, source: &mut S) -> Result<Vec<u8>, Unread>
    requires { CanCount (S.tally source.old) most_read }
    ensures whole { IfOk result (λ bytes. IfSome (S.left source.old) (λ had. bytes.items ≡ had)) }
    ensures most { IfOk result (λ bytes. length bytes.items ≤ largest_file) }
    ensures good { IfOk result (λ bytes. HasGiven (S.tally source.old) (S.tally source.new) bytes.items) }
    ensures refused { IfErr result (IsRefused name.now (S.left source.old) (S.tally source.old) (S.tally source.new)) }
    ensures frugal { IsFrugal (S.tally source.old) (S.tally source.new) }
{
    let bytes = read_whole(alloc, name, source)?;
    if bytes.len() > LARGEST_FILE {
        return Err(Unread::File(String::from_str(alloc, name)?));
    }
    Ok(bytes)
}

/// The bytes of a source up to its end, or its first ones; none where a read fails.
fn bytes_of<S: Source>(alloc: Global, source: &mut S) -> Result<Option<Vec<u8>>, AllocError>
    requires { CanCount (S.tally source.old) most_read }
    ensures had { IfOk result (λ found. IfSome found (λ bytes. IsHad (S.left source.old) (S.left source.new) bytes.items)) }
    ensures good { IfOk result (λ found. IfSome found (λ bytes. HasGiven (S.tally source.old) (S.tally source.new) bytes.items)) }
    ensures fault { IfOk result (λ found. IfNone found ((S.tally source.new).faults ≡ (S.tally source.old).faults + 1)) }
    ensures kept { OnErr result ((S.tally source.new).faults ≡ (S.tally source.old).faults) }
    ensures frugal { IsFrugal (S.tally source.old) (S.tally source.new) }
{
    let mut bytes = Vec::new(alloc);
    let mut piece = [0; PIECE];
    while bytes.len() < MOST_READ {
        let room = PIECE.min(MOST_READ - bytes.len());
        match read_piece(source, &mut piece[..room], &mut bytes)? {
            None => return Ok(None),
            Some(0) => return Ok(Some(bytes)),
            Some(_) => {}
        }
    }
    Ok(Some(bytes))
}

/// One read, into this room: what it gave is put behind the bytes.
fn read_piece<S: Source>(
    source: &mut S,
    room: &mut [u8],
    bytes: &mut Vec<u8>,
) -> Result<Option<usize>, AllocError>
    requires some { 0 < length room.old }
    requires counts { CanCount (S.tally source.old) (length room.old) }
    ensures within { IfOk result (λ answer. unwrap_or answer 0 ≤ length room.old) }
    ensures put { IfOk result (λ answer. bytes.new.items ≡ bytes.old.items ++ take (unwrap_or answer 0) room.new) }
    ensures gave { IfOk result (λ answer. Gave (S.left source.old) (S.left source.new) answer room.new) }
    ensures tallied { IfOk result (λ answer. S.tally source.new ≡ after_read answer (length room.old) (S.tally source.old)) }
    ensures refused { OnErr result ((n : ℕ) × (n ≤ length room.old) × (S.tally source.new ≡ after_read (Some n) (length room.old) (S.tally source.old))) }
{
    let answer = source.read(room);
    if let Some(count) = answer {
        bytes.extend_from_slice(&room[..count])?;
    }
    Ok(answer)
}

/// A source over a reader of std, as a file is one. What is left of it is what the reader will give, where
/// that can be known. A read that is interrupted has failed.
#[derive(Drop)]
pub struct ReaderSource<R> {
    pub reader: R,
    pub tally: Tally,
}

impl<R> ReaderSource<R> {
    /// The reader, of which nothing was read yet.
    pub fn new(reader: R) -> ReaderSource<R>
        ensures reader { result.reader ≡ reader }
        ensures tally { result.tally ≡ unread }
    {
        ReaderSource {
            reader,
            tally: Tally::new(),
        }
    }
}

impl<R: io::Read> Source for ReaderSource<R> {
    ghost left = { λ s. R.remaining s.reader };

    ghost tally = { λ s. s.tally };

    fn read(&mut self, room: &mut [u8]) -> Option<usize> {
        let given = match self.reader.read(room) {
            Ok(count) => Some(count),
            Err(_) => None,
        };
        self.tally.count(room.len(), given);
        given
    }
}
