//! The frames that were read so far.
ghost use Rattle.std.specs.Prelude.{◌≡◌, ◌+◌, ◌<◌, ◌≤◌, ◌^◌, length, IfOk, IfSome, MatchOption};
ghost use Rattle.mh_model.specs.Planes.{blank};
ghost use Rattle.mh_look.specs.Parts.{IsPartFound, IsNextFound, frames_behind, last_behind};

use crate::report::Part;
use crate::report::frame::{read_frame, stop_in_frame};
use crate::report::line::read_line;
use mh_model::Picture;
use std::alloc::{AllocError, Global};

/// How many frames there were, and the picture of the last of them.
#[derive(Drop)]
pub struct Last {
    frames: u64,
    picture: Picture,
}

impl Last {
    /// Before the first frame the screen is black.
    pub fn none(alloc: Global) -> Result<Last, AllocError>
        ensures frames { IfOk result (λ last. last.frames ≡ 0) }
        ensures picture { IfOk result (λ last. last.picture ≡ blank) }
    {
        Ok(Last {
            frames: 0,
            picture: Picture::black(alloc)?,
        })
    }

    /// The part with which the bytes begin, and how long it is. A frame that is read becomes the
    /// last one.
    pub fn read_part(
        &mut self,
        alloc: Global,
        bytes: &[u8],
    ) -> Result<Option<(Part, usize)>, AllocError>
        requires { self.old.frames + 1 < 2 ^ 64 }
        ensures found { IfOk result (IsPartFound self.old.frames self.old.picture bytes.now) }
        ensures frames { IfOk result (λ found. MatchOption found
            (self.new.frames ≡ self.old.frames)
            (λ x. self.new.frames ≡ frames_behind self.old.frames x.0)) }
        ensures picture { IfOk result (λ found. IfSome found
            (λ x. self.new.picture ≡ last_behind self.old.picture x.0)) }
    {
        if bytes.starts_with(b"frame ") {
            let next = self.read_next(alloc, bytes)?;
            return Ok(next);
        }
        let line = read_line(alloc, bytes)?;
        Ok(line)
    }

    /// The frame behind the last one, with which the bytes begin.
    fn read_next(
        &mut self,
        alloc: Global,
        bytes: &[u8],
    ) -> Result<Option<(Part, usize)>, AllocError>
        requires { self.old.frames + 1 < 2 ^ 64 }
        ensures found { IfOk result (IsNextFound self.old.frames self.old.picture bytes.now) }
        ensures frames { IfOk result (λ found. MatchOption found
            (self.new.frames ≡ self.old.frames)
            (λ x. self.new.frames ≡ frames_behind self.old.frames x.0)) }
        ensures picture { IfOk result (λ found. IfSome found
            (λ x. self.new.picture ≡ last_behind self.old.picture x.0)) }
    {
        let mut after = Picture::black(alloc)?;
        let number = self.frames + 1;
        let Some(length) = read_frame(alloc, bytes, number, &self.picture, &mut after)? else {
            return Ok(None);
        };
        self.frames = number;
        self.picture.copy_from(&after);
        Ok(Some((Part::Frame(after), length)))
    }

    /// How far bytes can be read that begin with no part: into a frame, as far as its rows are
    /// right.
    pub fn stop(&self, alloc: Global, bytes: &[u8]) -> Result<usize, AllocError>
        requires { self.now.frames + 1 < 2 ^ 64 }
        ensures { IfOk result (λ n. n ≤ length bytes.now) }
    {
        stop_in_frame(alloc, bytes, self.frames + 1, &self.picture)
    }
}
