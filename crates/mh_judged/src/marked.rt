//! `Marked`: the files of a folder with the marks of each, so that many parts of actions are found in them, and each file is read
//! once for all.
//!
//! Promise: what is found is what the definitions of the same matter in `specs/Places` say.
ghost use Rattle.std.specs.Prelude.{◌≡◌, IfOk, slice_get};
ghost use Rattle.std.specs.Option.{option_copied};
ghost use Rattle.mh_places.specs.Directory.{AreBeside, IsFound, file_of};
ghost use Rattle.mh_judged.specs.Places as spec;
ghost use Rattle.mh_judged.specs.Places.{IsMarked};

use crate::sites::{file_named, site_at};
use crate::spans::span_by;
use mh_base::{GroupName, Seq};
use mh_cause::Detail;
use mh_findings::Site;
use mh_places::{Directory, Span};
use mh_text::{Mark, marks};
use mh_verify::Place;
use std::alloc::{AllocError, Global};
use std::marker::Model;

/// The files, where things stand in them, and their marks. A contract sees the files.
#[derive(Drop)]
pub(crate) struct Marked<'a> {
    directory: &'a Directory<'a>,
    /// File by file.
    marks: Vec<Seq<Mark>>,
}

impl<'a> Model for Marked<'a> {
    ghost use Rattle.std.specs.Prelude.{List};
    ghost use Rattle.mh_told.specs.Reading.{Source};
    ghost use Rattle.mh_places.specs.Directory.{AreBeside};
    ghost use Rattle.mh_judged.specs.Places.{IsMarked};

    ghost Value = { List Source };

    ghost view = { λ m. m.directory.now };

    ghost invariant = { λ m. AreBeside IsMarked m.directory.now m.marks.items };
}

impl<'a> Marked<'a> {
    /// The files of this directory, with their marks.
    pub(crate) fn of(alloc: Global, directory: &'a Directory<'a>) -> Result<Marked<'a>, AllocError>
        ensures { IfOk result (λ marked. marked ≡ directory.now) }
    {
        let marks = marks_by_file(alloc, directory.files())?;
        Ok(Marked { directory, marks })
    }

    /// Where the objects and the actions stand.
    pub(crate) fn directory(&self) -> &Directory<'a>
        ensures { result.now ≡ self.now }
    {
        self.directory
    }

    /// The marks of the file of the group.
    fn marks_of(&self, group: &GroupName) -> Option<&Seq<Mark>>
        ensures { IsFound IsMarked (file_of self.now group.now) (option_copied result) }
    {
        match self.directory.file_number(group) {
            Some(number) => marks_at(self.marks.as_slice(), number),
            None => None,
        }
    }

    /// What is meant by this part of an action in its file, if that is there.
    fn part_in(&self, place: &Place, detail: Detail) -> Option<Span>
        ensures { result ≡ spec.part_in self.now place.now detail }
    {
        let file = file_named(self.directory.files(), place.group.as_bytes());
        span_in(place, detail, file, self.marks_of(&place.group))
    }

    /// Where the part of an action stands that the verifier names.
    #[tactic(auto, unfolding(crate::specs::Places::part_site))]
    pub(crate) fn part_site(
        &self,
        alloc: Global,
        folder: &[u8],
        place: &Place,
        detail: Detail,
    ) -> Result<Site, AllocError>
        ensures { IfOk result (λ site. site ≡ spec.part_site folder.now self.now place.now detail) }
    {
        let span = self.part_in(place, detail);
        site_at(alloc, folder, place.group.as_bytes(), span)
    }
}

fn marks_at(all: &[Seq<Mark>], number: usize) -> Option<&Seq<Mark>>
    ensures { option_copied result ≡ slice_get all.now number }
{
    all.get(number)
}

/// What is meant by this part of an action in its file, with the marks of that.
fn span_in(
    place: &Place,
    detail: Detail,
    file: Option<&(GroupName, Vec<u8>)>,
    marks: Option<&Seq<Mark>>,
) -> Option<Span>
    ensures { result ≡ spec.part_by place.now detail (option_copied file.entry) (option_copied marks.entry) }
{
    match (file, marks) {
        (Some(file), Some(marks)) => span_by(place, detail, file.1.as_slice(), marks.as_slice()),
        _ => None,
    }
}

fn marks_by_file(
    alloc: Global,
    files: &[(GroupName, Vec<u8>)],
) -> Result<Vec<Seq<Mark>>, AllocError>
    ensures { IfOk result (λ all. AreBeside IsMarked files.now all.items) }
{
    let mut all = Vec::new(alloc);
    for file in files {
        all.push(marks_in(alloc, file.1.as_slice())?)?;
    }
    Ok(all)
}

/// The marks of a text.
fn marks_in(alloc: Global, bytes: &[u8]) -> Result<Seq<Mark>, AllocError>
    ensures { IfOk result (IsMarked bytes.now) }
{
    Ok(Seq::from_vec(marks(alloc, bytes)?))
}
