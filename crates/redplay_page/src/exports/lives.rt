//! How a session begins and ends.
ghost use Rattle.std.specs.Prelude.{◌≡◌, ◌<◌, None, is_none, false, IfOk, if◌then◌else◌};
ghost use Rattle.mh_crossing.specs.Answers.{good, in_use, no_session};
ghost use Rattle.redplay_page.specs.Playing.{HasOpened, IsOpened};

use crate::handle::Handle;
use crate::opening::Unopened;
use crate::session::Session;
use mh_crossing::{GOOD, IN_USE, NO_SESSION, Source};
use std::alloc::Global;
use std::mem;

/// Starts a session in a handle that has none, whatever the verifier would say of the service. Its steps are told as lines,
/// or as objects for other programs.
#[unsafe(no_mangle)]
#[tactic(auto, using(crate::proofs::PlayLemmas::unopened_some, crate::proofs::PlayLemmas::has_opened))]
pub extern "C" fn redpage_start(
    alloc: Global,
    handle: &mut Handle,
    sources: &[Source],
    start: &[u8],
    late: &[u8],
    day: u32,
    objects: bool,
) -> u32
    ensures used { is_none handle.old.session ≡ false → (result ≡ in_use) × (handle.new.session ≡ handle.old.session) }
    ensures refused { 0 < result → handle.new.session ≡ handle.old.session }
    ensures started { result ≡ good → is_none handle.new.session ≡ false }
    ensures opened { result ≡ good → HasOpened sources.now start.now late.now day objects handle.new.session }
{
    if !handle.is_none() {
        return IN_USE;
    }
    match boxed(alloc, sources, start, late, day, objects) {
        Ok(session) => {
            mem::replace(handle, Handle::of(session)).let_go();
            GOOD
        }
        Err(why) => why.number(),
    }
}

/// A session on the heap.
fn boxed(
    alloc: Global,
    sources: &[Source],
    start: &[u8],
    late: &[u8],
    day: u32,
    objects: bool,
) -> Result<Box<Session, Global>, Unopened>
    ensures { IfOk result (λ session. IsOpened sources.now start.now late.now day objects session.value) }
{
    match Session::open(alloc, sources, start, late, day, objects) {
        Ok(session) => in_box(alloc, session),
        Err(why) => Err(why),
    }
}

/// A value on the heap. What is generic in it does not speak of how a session is dropped.
fn in_box<T: Drop>(alloc: Global, whole: T) -> Result<Box<T, Global>, Unopened>
    ensures { IfOk result (λ boxed. boxed.value ≡ whole) }
{
    match Box::new(alloc, whole) {
        Ok(boxed) => Ok(boxed),
        Err(_) => Err(Unopened::NoMemory),
    }
}

/// Ends the session of a handle and gives all its memory back.
#[unsafe(no_mangle)]
pub extern "C" fn redpage_free(alloc: Global, handle: &mut Handle) -> u32
    ensures gone { handle.new.session ≡ None }
    ensures answer { result ≡ (if is_none handle.old.session then no_session else good) }
{
    if handle.is_none() {
        return NO_SESSION;
    }
    let session = mem::replace(handle, Handle::none(alloc)).into_box();
    drop(session);
    GOOD
}
