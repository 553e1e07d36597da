//! Content files that are not there at the start, and that come as they are asked for.
use mh_base::Octets;
use mh_command::files_of;
use mh_folder::Unread;
use mh_live::is_sayable;
use mh_model::File;
use mh_told::text::Text;
use std::alloc::{AllocError, Global};
use std::rt::Runtime;

/// The folder with the content files, if one is named.
#[derive(Drop)]
pub struct Arriving<'a> {
    folder: Option<&'a str>,
}

impl<'a> Arriving<'a> {
    pub fn new(folder: Option<&'a str>) -> Arriving<'a> {
        Arriving { folder }
    }

    /// The file behind so many, in the order of their paths, as it is now. One that no script can say is passed over: its path
    /// has a space, or it is empty.
    pub fn next<R: Runtime + AllocGlobal>(
        &self,
        rt: &R,
        count: usize,
    ) -> Result<Option<File>, Unread> {
        let Some(folder) = self.folder else {
            return Ok(None);
        };
        let mut left = count;
        for (name, bytes) in files_of(rt, folder)? {
            if bytes.is_empty() || !is_sayable(name.as_bytes()) {
                continue;
            }
            if left == 0 {
                let content = Octets::from_vec(rt.alloc(), bytes)?;
                return Ok(Some(File { name, content }));
            }
            left -= 1;
        }
        Ok(None)
    }

    /// What is told where none is left.
    pub fn none_text(&self, alloc: Global) -> Result<Text, AllocError> {
        let mut text = Text::new(alloc);
        match self.folder {
            Some(_) => text.put(b"no file is left that f could bring")?,
            None => text.put(b"f brings the files of the folder that --files names")?,
        }
        Ok(text)
    }
}
