//! Room that a caller lends for a text.
ghost use Rattle.std.specs.Prelude.{◌≡◌, ◌++◌, length, take, drop};
ghost use Rattle.mh_crossing.specs.Rooms.{IsPut};

/// Puts as many of the bytes there as there is room for, and answers how many there are.
pub fn put(bytes: &[u8], room: &mut [u8]) -> usize
    ensures count { result ≡ length bytes.now }
    ensures put { room.new ≡ take (length room.old) bytes.now ++ drop (length bytes.now) room.old }
{
    let count = bytes.len().min(room.len());
    room[..count].copy_from_slice(&bytes[..count]);
    bytes.len()
}

/// The same, and tells how many there are.
pub fn put_length(bytes: &[u8], room: &mut [u8], length: &mut usize)
    ensures { IsPut bytes.now room.old room.new length.new }
{
    *length = put(bytes, room);
}
