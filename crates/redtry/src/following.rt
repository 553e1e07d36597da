//! The files of a service that is played, and whether they have changed.
use crate::failure::Failure;
use mh_base::GroupName;
use mh_command::{Choice, Source, choice_of, files_of};
use mh_folder::Unread;
use mh_try::Chosen;
use std::alloc::Global;
use std::mem::swap;
use std::rt::Runtime;

/// The files of a service, and what is chosen of it.
#[derive(Drop)]
pub struct Given {
    pub files: Vec<(GroupName, Vec<u8>)>,
    pub chosen: Chosen,
}

/// The files of a source, as they are now.
pub fn given_of<R: Runtime + AllocGlobal>(
    rt: &R,
    source: &Source<'_>,
    mjd: u32,
) -> Result<Given, Unread> {
    let files = files_of(rt, source.folder)?;
    let choice = choice_of(rt, source)?;
    Ok(Given {
        files,
        chosen: chosen(choice, mjd),
    })
}

/// What is chosen, with the day on which the play begins.
fn chosen(choice: Choice, mjd: u32) -> Chosen {
    let Choice { start, late, tags } = choice;
    Chosen {
        start,
        late,
        tags,
        mjd,
    }
}

impl Given {
    fn is_same(&self, other: &Given) -> bool {
        are_same(self.files.as_slice(), other.files.as_slice())
            && is_same_option(&self.chosen.late, &other.chosen.late)
            && is_same_option(&self.chosen.tags, &other.chosen.tags)
    }
}

fn are_same(files: &[(GroupName, Vec<u8>)], others: &[(GroupName, Vec<u8>)]) -> bool {
    files.len() == others.len()
        && files
            .iter()
            .zip(others.iter())
            .all(|(file, other)| is_same_file(file, other))
}

fn is_same_file(file: &(GroupName, Vec<u8>), other: &(GroupName, Vec<u8>)) -> bool {
    file.0 == other.0 && file.1.as_slice() == other.1.as_slice()
}

fn is_same_option(bytes: &Option<Vec<u8>>, other: &Option<Vec<u8>>) -> bool {
    match (bytes, other) {
        (Some(bytes), Some(other)) => bytes.as_slice() == other.as_slice(),
        (None, None) => true,
        _ => false,
    }
}

/// What a look at the files has told.
#[derive(Drop)]
pub enum Look {
    /// They are as they were.
    Same,
    /// They have changed.
    Changed,
    /// This one cannot be read.
    Unread(String),
}

/// The files that are played, and those that were seen last, where these cannot be played.
#[derive(Drop)]
pub struct Followed<'a> {
    alloc: Global,
    source: &'a Source<'a>,
    mjd: u32,
    played: Given,
    other: Option<Given>,
}

impl<'a> Followed<'a> {
    pub fn new(alloc: Global, source: &'a Source<'a>, mjd: u32, given: Given) -> Followed<'a> {
        Followed {
            alloc,
            source,
            mjd,
            played: given,
            other: None,
        }
    }

    /// The files that are played.
    pub fn given(&self) -> &Given {
        &self.played
    }

    /// Looks whether the files have changed since the last look. Those that have are kept, to be exchanged.
    pub fn look<R: Runtime + AllocGlobal>(&mut self, rt: &R) -> Result<Look, Failure> {
        match given_of(rt, self.source, self.mjd) {
            Ok(given) => Ok(self.note(given)),
            Err(Unread::NoMemory) => Err(Failure::Failed),
            Err(Unread::File(name)) => Ok(Look::Unread(name)),
        }
    }

    fn note(&mut self, given: Given) -> Look {
        if self.is_seen(&given) {
            return Look::Same;
        }
        self.other = Some(given);
        Look::Changed
    }

    /// Whether these are the files that were seen last.
    fn is_seen(&self, given: &Given) -> bool {
        match &self.other {
            Some(seen) => seen.is_same(given),
            None => self.played.is_same(given),
        }
    }

    /// Exchanges the files that are played and those that were seen last.
    pub fn exchange(&mut self) {
        if let Some(other) = &mut self.other {
            swap(&mut self.played, other);
        }
    }
}
