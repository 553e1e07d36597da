//! `Sink`: where a report goes, a piece at a time.
//!
//! A sink tells the bytes that it has taken, where they can be known, and counts the writes that failed.
//! Writing all of a list is one loop, here. What a terminal or a file makes of the bytes is not spoken of.
ghost use Rattle.std.specs.Prelude.{◌≡◌, ◌+◌, ◌-◌, ◌≤◌, ◌<◌, ◌^◌, ℕ, List, Option, Some, length, take, OnOk, OnErr, IsErrOf, IsErr, ◌↔◌};
ghost use Rattle.std.specs.Io.KnownBytes.{Appends};
ghost use Rattle.mh_report.specs.Sink.{taken_of, IsBeginning, failures_after};

use crate::play_error::PlayError;
use std::io;

/// Takes the bytes of a report.
pub trait Sink {
    /// The bytes that were taken so far, where the sink can tell them.
    ghost written: { Self → Option (List ℕ) };

    /// How many writes failed or took nothing.
    ghost failures: { Self → ℕ };

    /// Takes some of the bytes, from the first one on, and says how many. None and 0 are a failed write.
    fn write(&mut self, bytes: &[u8]) -> Option<usize>
        requires { failures self.old < 2 ^ 64 - 1 }
        ensures within { taken_of result ≤ length bytes.now }
        ensures bytes { Appends (written self.old) (written self.new) (take (taken_of result) bytes.now) }
        ensures counted { failures self.new ≡ failures_after result (failures self.old) };
}

/// Writes all of the bytes. After an error only the first ones of them were taken, and a write failed.
#[tactic(auto, using(crate::proofs::SinkLemmas::appended_rest, crate::proofs::SinkLemmas::taken_beginning))]
pub fn write_all<S: Sink>(sink: &mut S, bytes: &[u8]) -> Result<(), PlayError>
    requires { S.failures sink.old < 2 ^ 64 - 1 }
    ensures whole { OnOk result (Appends (S.written sink.old) (S.written sink.new) bytes.now) }
    ensures good { OnOk result (S.failures sink.new ≡ S.failures sink.old) }
    ensures cut { OnErr result (IsBeginning (S.written sink.old) (S.written sink.new) bytes.now) }
    ensures failed { OnErr result (S.failures sink.new ≡ S.failures sink.old + 1) }
    ensures only { IsErrOf result PlayError.Write ↔ IsErr result }
{
    let mut done = 0;
    while done < bytes.len() {
        let count = sink.write(&bytes[done..]).unwrap_or(0);
        if count == 0 {
            return Err(PlayError::Write);
        }
        done += count;
    }
    Ok(())
}

/// A sink that keeps the bytes.
#[derive(Drop)]
pub struct ListSink {
    pub bytes: Vec<u8>,
    pub failures: u64,
}

impl Sink for ListSink {
    ghost written = { λ s. Some s.bytes.items };

    ghost failures = { λ s. s.failures };

    fn write(&mut self, bytes: &[u8]) -> Option<usize> {
        if bytes.is_empty() || self.bytes.extend_from_slice(bytes).is_err() {
            self.failures += 1;
            return None;
        }
        Some(bytes.len())
    }
}

/// A sink over a writer of std, as standard output is one. What it has taken is what the writer holds,
/// where that can be known.
#[derive(Drop)]
pub struct WriterSink<W> {
    pub writer: W,
    pub failures: u64,
}

impl<W: io::Write> Sink for WriterSink<W> {
    ghost written = { λ s. W.contents s.writer };

    ghost failures = { λ s. s.failures };

    fn write(&mut self, bytes: &[u8]) -> Option<usize> {
        match self.writer.write(bytes) {
            Ok(count) if count > 0 => Some(count),
            _ => {
                self.failures += 1;
                None
            }
        }
    }
}
