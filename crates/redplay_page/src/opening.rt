//! How a session begins: the service of files, a machine for it that is traced, and the content files that are there at first.
ghost use Rattle.std.specs.Prelude.{◌≡◌, Ok, IfOk, OnOk};
ghost use Rattle.mh_codec.specs.Tags.{profile};
ghost use Rattle.mh_told.specs.Reading.{Gives};
ghost use Rattle.mh_trace.specs.Trace.{preset_all, presets_text};
ghost use Rattle.mh_try.specs.Directory.{directory_of as written_in};
ghost use Rattle.mh_try.specs.Tried.{beginning};
ghost use Rattle.redplay_page.specs.Playing.{IsOpened, opened_with, preset_session, unopened_number};
ghost use Rattle.redplay_page.specs.Tried.{telling_all};

use crate::choosing::chosen;
use crate::session::Session;
use crate::told::UNREAD;
use crate::trying::telling_all;
use mh_base::{GroupName, NameError, both};
use mh_codec::TagTable;
use mh_crossing::{NO_MEMORY, NO_PATH, OUT_OF_RANGE, Source, owned_files};
use mh_model::File;
use mh_script::read_contents;
use mh_service::Service;
use mh_told::text::Text;
use mh_told::unplayable::Unplayable;
use mh_trace::{Telling, Tracer};
use mh_try::directory_of;
use mh_try::tried::{Chosen, begun, service_of};
use std::alloc::{AllocError, Global};

/// The last modified Julian day on which a play may begin.
const LAST_DAY: u32 = 1_000_000;

/// Why there is no session.
#[derive(Clone, Copy, PartialEq, Eq)]
pub enum Unopened {
    NoMemory,
    /// There is no such day.
    NoDay,
    /// The name of a file is no path.
    NoPath,
    /// A file cannot be read, or the files make no service.
    Unread,
}

impl Unopened {
    /// The number that is answered.
    pub fn number(self) -> u32
        ensures { result ≡ unopened_number self }
    {
        match self {
            Unopened::NoMemory => NO_MEMORY,
            Unopened::NoDay => OUT_OF_RANGE,
            Unopened::NoPath => NO_PATH,
            Unopened::Unread => UNREAD,
        }
    }

    fn of_name(why: NameError) -> Unopened {
        match why {
            NameError::BadName => Unopened::NoPath,
            NameError::NoMemory => Unopened::NoMemory,
        }
    }

    fn of_unread(why: &Unplayable) -> Unopened {
        match why {
            Unplayable::NoMemory => Unopened::NoMemory,
            _ => Unopened::Unread,
        }
    }
}

impl Session {
    /// A session at the start of the service that the files make, whatever the verifier would say of it. The content files that
    /// the service names are there. Its steps are told as lines, or as objects for other programs.
    #[tactic(auto, using(crate::proofs::PlayLemmas::opened_so))]
    pub fn open(
        alloc: Global,
        sources: &[Source],
        start: &[u8],
        late: &[u8],
        day: u32,
        objects: bool,
    ) -> Result<Session, Unopened>
        ensures { IfOk result (λ session. IsOpened sources.now start.now late.now day objects session) }
    {
        if day > LAST_DAY {
            return Err(Unopened::NoDay);
        }
        match owned_files(alloc, sources) {
            Ok(files) => match chosen(alloc, start, late, day) {
                Ok(chosen) => opened_of(alloc, files.as_slice(), &chosen, objects),
                Err(_) => Err(Unopened::NoMemory),
            },
            Err(why) => Err(Unopened::of_name(why)),
        }
    }
}

fn opened_of(
    alloc: Global,
    files: &[(GroupName, Vec<u8>)],
    chosen: &Chosen,
    objects: bool,
) -> Result<Session, Unopened>
    ensures { IfOk result (λ session. opened_with (telling_all objects) chosen.now files.now profile ≡ Ok session) }
{
    match opened(alloc, files, chosen, telling_all(objects)) {
        Ok(session) => Ok(session),
        Err(why) => Err(Unopened::of_unread(&why)),
    }
}

fn opened(
    alloc: Global,
    files: &[(GroupName, Vec<u8>)],
    chosen: &Chosen,
    telling: Telling,
) -> Result<Session, Unplayable>
    ensures { Gives (λ session. session) result (opened_with telling chosen.now files.now profile) }
{
    let tags = TagTable::profile(alloc)?;
    opened_with(alloc, &tags, files, chosen, telling)
}

/// The same with these tags of the binary notation.
#[tactic(auto, unfolding(crate::specs::Playing::opened_with))]
fn opened_with(
    alloc: Global,
    tags: &TagTable,
    files: &[(GroupName, Vec<u8>)],
    chosen: &Chosen,
    telling: Telling,
) -> Result<Session, Unplayable>
    ensures { Gives (λ session. session) result (opened_with telling chosen.now files.now tags.now) }
{
    let service = service_of(alloc, tags, files, chosen)?;
    let contents = read_contents(alloc, tags, &service, files)?;
    let session = opened_on(
        alloc,
        files,
        service,
        chosen.mjd,
        telling,
        contents.as_slice(),
    )?;
    Ok(session)
}

/// A session of this service of the files, with these content files there.
fn opened_on(
    alloc: Global,
    files: &[(GroupName, Vec<u8>)],
    service: Service,
    day: u32,
    telling: Telling,
    contents: &[File],
) -> Result<Session, AllocError>
    ensures { IfOk result (λ session. session ≡ preset_session telling contents.now (beginning (written_in files.now) service day)) }
{
    let directory = directory_of(alloc, files)?;
    let tracer = begun(alloc, directory, service, day)?;
    let session = preset_session(alloc, telling, tracer, contents)?;
    Ok(session)
}

/// A session of this machine, once the content files are there.
fn preset_session(
    alloc: Global,
    telling: Telling,
    tracer: Tracer,
    contents: &[File],
) -> Result<Session, AllocError>
    ensures { IfOk result (λ session. session ≡ preset_session telling contents.now tracer) }
{
    let mut tracer = tracer;
    let told = tell_presets(alloc, telling, &mut tracer, contents);
    let (told, tracer) = both(told, Ok(tracer))?;
    Ok(Session {
        alloc,
        tracer,
        telling,
        told,
    })
}

/// The same with a tracer that is lent, so that no machine is dropped where memory is refused.
fn tell_presets(
    alloc: Global,
    telling: Telling,
    tracer: &mut Tracer,
    contents: &[File],
) -> Result<Text, AllocError>
    ensures told { IfOk result (λ text. text ≡ presets_text telling contents.now tracer.old) }
    ensures left { OnOk result (tracer.new ≡ preset_all contents.now tracer.old) }
{
    let mut text = Text::new(alloc);
    tracer.preset_all(&telling, contents, &mut text)?;
    Ok(text)
}
