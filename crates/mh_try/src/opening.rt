//! The engine that a play at a terminal begins with, and what the verifier says of a service.
use crate::tried::{Chosen, bytes_of, service_of};
use mh_base::GroupName;
use mh_engine::{Engine, RefusedWhy};
use mh_model::File;
use mh_script::read_contents;
use mh_service::Service;
use mh_told::tags::table_of;
use mh_told::text::Text;
use mh_told::unplayable::Unplayable;
use mh_verdict::refusal_text;
use mh_verify::{Refusal, RefusalKind, verify};
use std::alloc::Global;

/// An engine at the start of the service of these files, with its content files there. It has a budget of steps if the
/// verifier accepts the service; else it plays what is refused.
pub fn engine_of(
    alloc: Global,
    files: &[(GroupName, Vec<u8>)],
    chosen: &Chosen,
) -> Result<Engine, Unplayable> {
    let tags = table_of(alloc, bytes_of(&chosen.tags))?;
    let service = service_of(alloc, &tags, files, chosen)?;
    let contents = read_contents(alloc, &tags, &service, files)?;
    with_contents(begun(alloc, service, chosen.mjd), contents.as_slice())
}

/// The lines on the service of these files, if the verifier refuses it.
pub fn refusal_of(
    alloc: Global,
    files: &[(GroupName, Vec<u8>)],
    chosen: &Chosen,
) -> Result<Option<Text>, Unplayable> {
    let tags = table_of(alloc, bytes_of(&chosen.tags))?;
    let service = service_of(alloc, &tags, files, chosen)?;
    lines_if_refused(alloc, verify(alloc, service, &[]))
}

/// What is generic in what is accepted does not speak of how a verdict is dropped.
fn lines_if_refused<A: Drop>(
    alloc: Global,
    verdict: Result<A, Refusal>,
) -> Result<Option<Text>, Unplayable> {
    match verdict {
        Ok(_) => Ok(None),
        Err(refusal) => lines_on(alloc, &refusal),
    }
}

fn lines_on(alloc: Global, refusal: &Refusal) -> Result<Option<Text>, Unplayable> {
    match refusal.kind {
        RefusalKind::NoMemory => Err(Unplayable::NoMemory),
        _ => Ok(Some(refusal_text(alloc, refusal)?)),
    }
}

fn begun(alloc: Global, service: Service, mjd: u32) -> Result<Engine, Unplayable> {
    match verify(alloc, service, &[]) {
        Ok(accepted) => unless_refused(Engine::start(alloc, accepted, mjd)),
        Err(refusal) => begun_lenient(alloc, refusal, mjd),
    }
}

fn begun_lenient(alloc: Global, refusal: Refusal, mjd: u32) -> Result<Engine, Unplayable> {
    match refusal.kind {
        RefusalKind::NoMemory => Err(Unplayable::NoMemory),
        _ => unless_refused(Engine::start_lenient(alloc, refusal.service, mjd)),
    }
}

/// What was made, unless memory was refused.
fn unless_refused<M: Drop, W: Drop>(made: Result<M, W>) -> Result<M, Unplayable> {
    match made {
        Ok(made) => Ok(made),
        Err(_) => Err(Unplayable::NoMemory),
    }
}

/// What takes content files. What is generic in it does not speak of how an engine is dropped.
trait Presets: Drop {
    /// Puts the content files there; one that is refused is not.
    fn preset_all(&mut self, contents: &[File]) -> Result<(), Unplayable>;
}

impl Presets for Engine {
    fn preset_all(&mut self, contents: &[File]) -> Result<(), Unplayable> {
        for content in contents {
            preset(self, content)?;
        }
        Ok(())
    }
}

/// What has begun, with the content files there.
fn with_contents<P: Presets>(
    begun: Result<P, Unplayable>,
    contents: &[File],
) -> Result<P, Unplayable> {
    let mut begun = begun?;
    begun.preset_all(contents)?;
    Ok(begun)
}

/// Puts a content file there; one that is refused is not.
fn preset(engine: &mut Engine, content: &File) -> Result<(), Unplayable> {
    match engine.preset(content.clone()?) {
        Ok(()) => Ok(()),
        Err(refused) => match refused.why {
            RefusedWhy::NoMemory => Err(Unplayable::NoMemory),
            _ => Ok(()),
        },
    }
}
