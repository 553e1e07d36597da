//! A sink that stops taking bytes.
use mh_report::Sink;

/// A sink that takes so many writes, each of at most so many bytes, and none after them.
#[derive(Drop)]
pub struct CuttingSink {
    pub bytes: Vec<u8>,
    pub failures: u64,
    /// How many writes are still taken.
    pub writes: usize,
    /// How many bytes a write takes at most.
    pub most: usize,
}

impl Sink for CuttingSink {
    ghost use Rattle.std.specs.Prelude.{Some};

    ghost written = { λ s. Some s.bytes.items };

    ghost failures = { λ s. s.failures };

    fn write(&mut self, bytes: &[u8]) -> Option<usize> {
        let count = bytes.len().min(self.most);
        if self.writes == 0 || count == 0 {
            self.failures += 1;
            return None;
        }
        if self.bytes.extend_from_slice(&bytes[..count]).is_err() {
            self.failures += 1;
            return None;
        }
        self.writes -= 1;
        Some(count)
    }
}
