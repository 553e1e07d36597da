//! `Source`: a file that a caller lends.

/// A file: its path in the folder of the service, and its bytes. They are the caller's, and are looked at during the call
/// alone.
#[repr(C)]
#[derive(Drop)]
pub struct Source<'a> {
    pub name: &'a [u8],
    pub content: &'a [u8],
}
