//! Cases: what they are made of.
use mh_base::GroupName;
use std::alloc::{AllocError, Global};

/// A file of a service: its path and its bytes.
pub type File = (GroupName, Vec<u8>);

/// What a call is made with: the files of the service, and those that options name.
#[derive(Drop)]
pub struct Material {
    pub files: Vec<File>,
    pub script: Option<Vec<u8>>,
    pub late: Option<Vec<u8>>,
    pub tags: Option<Vec<u8>>,
    /// What `redplay` printed, which is to be explained.
    pub output: Option<Vec<u8>>,
}

/// What a call writes, and its exit status.
#[derive(Drop)]
pub struct Answer {
    pub status: u8,
    pub written: Vec<u8>,
}

/// A call, and what is wanted of it.
#[derive(Drop)]
pub struct Call {
    /// The number of its line.
    pub line: usize,
    /// The command line.
    pub text: String,
    /// If only the lines with this word count.
    pub word: Option<String>,
    pub wanted: Answer,
    /// Whether it is said what is wanted.
    pub is_whole: bool,
}

impl Call {
    /// The words of the command line, in order. `''` is the empty word.
    pub fn words(&self, alloc: Global) -> Result<Vec<&str>, AllocError> {
        let mut words = Vec::new(alloc);
        for word in self.text.split(' ') {
            words.push(if word == "''" { "" } else { word })?;
        }
        Ok(words)
    }
}

/// A case: a title, what there is, and what is done with it.
#[derive(Drop)]
pub struct Case {
    pub title: String,
    /// The number of the line of the title.
    pub line: usize,
    pub material: Material,
    pub calls: Vec<Call>,
}
