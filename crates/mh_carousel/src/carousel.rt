//! `Carousel`: the content files that are there, and who waits for which.
//!
//! What may want memory is `arrive`, `wait` and what makes room alone.
ghost use Rattle.std.specs.Prelude.{◌≡◌, ◌≤◌, [], Some, None, OnOk, OnErr, IfOk, IfErr, IsErrOf, IsErrAnd, MatchOption, filter};
ghost use Rattle.std.specs.Option.{option_copied};
ghost use Rattle.std.specs.Str.{bytes_eq};
ghost use Rattle.mh_model.specs.Files.{arrived, awaited, content};
ghost use Rattle.mh_model.specs.Files.{forgotten, is_too_large, is_too_many, with_file};
ghost use Rattle.mh_model.specs.Step.{files_ahead};
ghost use Rattle.mh_carousel.specs.Arrival.{arrival_refusal};
ghost use Rattle.mh_carousel.specs.Carried.{awaited_names, waiting_for};

use crate::refusal::{ArrivalError, RefusedArrival};
use crate::waits::Waits;
use crate::{ahead, files};
use indexmap::IndexMap;
use mh_base::{GroupName, ObjRef, Octets, Seq};
use mh_events::Queue;
use mh_model::{File, Wait};
use std::alloc::{AllocError, Global};
use std::marker::Model;

/// The most octets of a file.
const MOST_OCTETS: usize = 65535;

/// The content files that are there (ISO/IEC 13522-5, ReferencedContent), and the objects that wait
/// for one. A contract sees both lists, and for how many more of each there is room.
#[derive(Drop)]
pub struct Carousel {
    files: IndexMap<GroupName, Octets>,
    waits: Waits,
}

impl Model for Carousel {
    ghost use Rattle.indexmap.specs.IndexMap.{spare};
    ghost use Rattle.mh_carousel.specs.Carried.{Carried, files_of};

    ghost Value = { Carried };

    ghost view = { λ c. record {
      files = files_of c.files.entries;
      waits = c.waits.waits;
      file_room = spare c.files;
      room = c.waits.room;
    } };
}

impl Carousel {
    /// No files, and nobody who waits. It takes no memory.
    pub fn new(alloc: Global) -> Carousel
        ensures files { result.files ≡ [] }
        ensures waits { result.waits ≡ [] }
    {
        Carousel {
            files: IndexMap::new(alloc),
            waits: Waits::new(alloc),
        }
    }

    /// What the file of this name contains, if it is there.
    pub fn content(&self, name: &GroupName) -> Option<&Octets>
        ensures { option_copied result ≡ content name.now self.now.files }
    {
        files::content(&self.files, name)
    }

    /// Whether there would be one file too many when this one comes behind all that waits. It takes
    /// the longer, the more waits, where there may be as many files as there can.
    pub fn is_one_too_many(&self, file: &File, queue: &Queue) -> bool
        ensures { result ≡ is_too_many file.now (files_ahead self.now.files queue.now.items) }
    {
        ahead::is_one_too_many(&self.files, file, queue)
    }

    /// Makes room for one more file. Where memory is refused nothing changes.
    pub fn reserve_file(&mut self) -> Result<(), AllocError>
        ensures files { self.new.files ≡ self.old.files }
        ensures waits { self.new.waits ≡ self.old.waits }
        ensures room { OnOk result (1 ≤ self.new.file_room) }
        ensures other_room { self.new.room ≡ self.old.room }
    {
        self.files.reserve(1)
    }

    /// Puts the file in the place of an older one of its name, or at the end, where there is room.
    /// It takes no memory.
    pub fn put(&mut self, file: File)
        requires { 1 ≤ self.old.file_room }
        ensures files { self.new.files ≡ with_file file self.old.files }
        ensures waits { self.new.waits ≡ self.old.waits }
        ensures room { self.new.room ≡ self.old.room }
    {
        files::put_file(&mut self.files, file);
    }

    /// Puts the file in the place of an older one of its name, or at the end. One that is too large, or
    /// that is one too many, is handed back, and so is one for which memory is refused; nothing changes then.
    pub fn arrive(&mut self, file: File) -> Result<(), RefusedArrival>
        ensures files { OnOk result (self.new.files ≡ with_file file self.old.files) }
        ensures waits { self.new.waits ≡ self.old.waits }
        ensures accepted { OnOk result (arrival_refusal file self.old.files ≡ None) }
        ensures back { IfErr result (λ refused. refused.file ≡ file) }
        ensures kept { OnErr result (self.new.files ≡ self.old.files) }
        ensures refused { MatchOption (arrival_refusal file self.old.files)
            (IfErr result (λ refused. refused.why ≡ ArrivalError.NoMemory))
            (λ why. IsErrAnd result (λ refused. refused.why ≡ why)) }
    {
        match self.admit(&file) {
            Ok(()) => {
                self.put(file);
                Ok(())
            }
            Err(why) => Err(RefusedArrival { why, file }),
        }
    }

    /// Makes room for the file, if it may be there.
    fn admit(&mut self, file: &File) -> Result<(), ArrivalError>
        ensures files { self.new.files ≡ self.old.files }
        ensures waits { self.new.waits ≡ self.old.waits }
        ensures room { OnOk result (1 ≤ self.new.file_room) }
        ensures accepted { OnOk result (arrival_refusal file.now self.old.files ≡ None) }
        ensures refused { MatchOption (arrival_refusal file.now self.old.files)
            (IfErr result (λ why. why ≡ ArrivalError.NoMemory))
            (λ why. IsErrOf result why) }
    {
        if is_large(file) {
            return Err(ArrivalError::TooLarge);
        }
        if files::is_beyond(&self.files, file) {
            return Err(ArrivalError::TooMany);
        }
        self.reserve_file()?;
        Ok(())
    }

    /// The objects that wait for the file of this name, in the order in which they came to. Where none does it takes
    /// no memory.
    pub fn waiting(&self, alloc: Global, name: &GroupName) -> Result<Vec<ObjRef>, AllocError>
        ensures { IfOk result (λ objects. objects.items ≡ waiting_for name.now self.now.waits) }
    {
        self.waits.waiting(alloc, name)
    }

    /// The names of the files for which some object waits, each once, in the order in which one came to. It takes the
    /// longer, the more wait. Where none does it takes no memory.
    pub fn awaited_names(&self, alloc: Global) -> Result<Seq<GroupName>, AllocError>
        ensures { IfOk result (λ names. names ≡ awaited_names self.now.waits) }
    {
        self.waits.awaited_names(alloc)
    }

    /// Makes room for one more object that waits. Where memory is refused nothing changes.
    pub fn reserve_wait(&mut self) -> Result<(), AllocError>
        ensures files { self.new.files ≡ self.old.files }
        ensures waits { self.new.waits ≡ self.old.waits }
        ensures room { OnOk result (1 ≤ self.new.room) }
        ensures other_room { self.new.file_room ≡ self.old.file_room }
    {
        self.waits.reserve()
    }

    /// Lets the object wait for this file, and for no other any more, where there is room. It takes
    /// no memory.
    pub fn wait_reserved(&mut self, wait: Wait)
        requires { 1 ≤ self.old.room }
        ensures files { self.new.files ≡ self.old.files }
        ensures waits { self.new.waits ≡ awaited (Some wait.name) wait.object self.old.waits }
        ensures room { self.new.file_room ≡ self.old.file_room }
    {
        self.waits.wait(wait);
    }

    /// Lets the object wait for the file of this name, and for no other any more. Where memory is
    /// refused nothing changes.
    pub fn wait(&mut self, name: &GroupName, object: &ObjRef) -> Result<(), AllocError>
        ensures files { self.new.files ≡ self.old.files }
        ensures waits { OnOk result
            (self.new.waits ≡ awaited (Some name.now) object.now self.old.waits) }
        ensures kept { OnErr result (self.new.waits ≡ self.old.waits) }
    {
        let wait = Wait {
            object: object.clone()?,
            name: name.clone()?,
        };
        self.reserve_wait()?;
        self.wait_reserved(wait);
        Ok(())
    }

    /// Lets the object wait for nothing any more.
    pub fn forget(&mut self, object: &ObjRef)
        ensures files { self.new.files ≡ self.old.files }
        ensures waits { self.new.waits ≡ forgotten object.now self.old.waits }
        ensures file_room { self.new.file_room ≡ self.old.file_room }
        ensures room { self.old.room ≤ self.new.room }
    {
        self.waits.forget(object);
    }

    /// Lets nobody wait for the file of this name any more.
    pub fn arrived(&mut self, name: &GroupName)
        ensures files { self.new.files ≡ self.old.files }
        ensures waits { self.new.waits ≡ arrived name.now self.old.waits }
        ensures file_room { self.new.file_room ≡ self.old.file_room }
        ensures room { self.old.room ≤ self.new.room }
    {
        self.waits.arrived(name);
    }

    /// Lets the objects of the application alone wait on, as when a scene is left.
    pub fn leave_scene(&mut self, application: &GroupName)
        ensures files { self.new.files ≡ self.old.files }
        ensures waits { self.new.waits
            ≡ filter (λ w. bytes_eq w.object.group application.now) self.old.waits }
        ensures file_room { self.new.file_room ≡ self.old.file_room }
        ensures room { self.old.room ≤ self.new.room }
    {
        self.waits.keep(application);
    }

    /// Lets nobody wait any more.
    pub fn clear_waits(&mut self)
        ensures files { self.new.files ≡ self.old.files }
        ensures waits { self.new.waits ≡ [] }
        ensures file_room { self.new.file_room ≡ self.old.file_room }
        ensures room { self.old.room ≤ self.new.room }
    {
        self.waits.clear();
    }
}

/// Whether the file has more octets than a string may have.
pub fn is_large(file: &File) -> bool
    ensures { result ≡ is_too_large file.now }
{
    MOST_OCTETS < file.content.as_slice().len()
}
