//! `Digest`: a word that is mixed from numbers, by which states are told apart.

/// The first word.
const FIRST: u64 = 14_695_981_039_346_656_037;

/// An odd number with bits all over, by which each word is spread.
const SPREAD: u64 = 11_400_714_819_323_198_485;

/// A word that is mixed from what it was given, in order.
#[derive(Drop)]
pub struct Digest {
    word: u64,
}

impl Digest {
    pub fn new() -> Digest {
        Digest { word: FIRST }
    }

    pub fn word(&self) -> u64 {
        self.word
    }

    pub fn put(&mut self, number: u64) {
        let spread = (self.word ^ number).wrapping_mul(SPREAD);
        self.word = spread ^ (spread >> 29);
    }

    pub fn put_flag(&mut self, flag: bool) {
        self.put(if flag { 1 } else { 0 });
    }

    pub fn put_signed(&mut self, number: i32) {
        self.put_flag(number < 0);
        self.put(u64::from(number.unsigned_abs()));
    }

    /// Bytes behind their count, so that what follows is told from them.
    pub fn put_bytes(&mut self, bytes: &[u8]) {
        self.put(bytes.len() as u64);
        for byte in bytes {
            self.put(u64::from(*byte));
        }
    }
}
