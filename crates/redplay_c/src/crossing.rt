//! What crosses between the library and a program in C, beside numbers and the handle.
ghost use Rattle.std.specs.Prelude.{◌≡◌, ◌++◌, length, take, drop};

/// A file: its path in the folder of the service, and its bytes. They are the caller's, and are looked at during the call
/// alone.
#[repr(C)]
#[derive(Drop)]
pub struct Source<'a> {
    pub name: &'a [u8],
    pub content: &'a [u8],
}

/// To how many steps the start and an input of each kind lead at most.
#[repr(C)]
#[derive(Clone, Copy)]
pub struct Bounds {
    pub start: u64,
    pub key: u64,
    pub tick: u64,
    pub stream: u64,
    pub engine: u64,
    pub arrive: u64,
}

/// How many steps were taken, how many may be taken for what was posted so far, and how many faults were met.
#[repr(C)]
#[derive(Clone, Copy)]
pub struct Counts {
    pub taken: u64,
    pub budget: u64,
    pub faults: u64,
}

/// A cell of the picture: a code point of Unicode, its colour, and the colour behind it, in 24 bits each, red in the highest
/// eight.
#[repr(C)]
#[derive(Clone, Copy)]
pub struct Cell {
    pub scalar: u32,
    pub fore: u32,
    pub back: u32,
}

/// Puts as many of the bytes there as there is room for, and answers how many there are.
pub fn put(bytes: &[u8], room: &mut [u8]) -> usize
    ensures count { result ≡ length bytes.now }
    ensures put { room.new ≡ take (length room.old) bytes.now ++ drop (length bytes.now) room.old }
{
    let count = bytes.len().min(room.len());
    room[..count].copy_from_slice(&bytes[..count]);
    bytes.len()
}
