//! How a session begins and ends.
ghost use Rattle.std.specs.Prelude.{◌≡◌, ◌<◌, None, is_none, false, true, IfOk, IfErr, if◌then◌else◌};
ghost use Rattle.redplay_c.specs.Answers.{good, in_use, no_session};
ghost use Rattle.redplay_c.specs.Files.{choice_of};
ghost use Rattle.redplay_c.specs.SealedStarts.{HasSealed, IsSealed, IsUnsealed, IsUnsealedBy};
ghost use Rattle.redplay_c.specs.Starts.{HasStarted, IsStarted, IsToldBy, IsUnstarted};

use crate::answer::{GOOD, IN_USE, NO_SESSION};
use crate::choice::Choice;
use crate::crossing::Source;
use crate::handle::Handle;
use crate::session::Session;
use crate::start_refusal::StartRefusal;
use std::alloc::Global;
use std::mem;

/// Starts a session in a handle that has none.
#[unsafe(no_mangle)]
#[tactic(auto, using(crate::proofs::StartLemmas::told_some, crate::proofs::StartLemmas::has_started))]
pub extern "C" fn redplay_start(
    alloc: Global,
    handle: &mut Handle,
    sources: &[Source],
    start: &[u8],
    late: &[u8],
    mjd: u32,
    lenient: bool,
) -> u32
    ensures used { is_none handle.old.session ≡ false → (result ≡ in_use) × (handle.new.session ≡ handle.old.session) }
    ensures refused { 0 < result → handle.new.session ≡ handle.old.session }
    ensures started { result ≡ good → is_none handle.new.session ≡ false }
    ensures begun { result ≡ good → HasStarted sources.now (choice_of start.now late.now mjd lenient) handle.new.session }
    ensures why { is_none handle.old.session ≡ true → 0 < result → IsToldBy sources.now (choice_of start.now late.now mjd lenient) result }
{
    if !handle.is_none() {
        return IN_USE;
    }
    let choice = Choice {
        start,
        late,
        day: mjd,
        lenient,
    };
    match boxed(alloc, sources, &choice) {
        Ok(session) => {
            mem::replace(handle, Handle::of(session)).let_go();
            GOOD
        }
        Err(why) => why.number(),
    }
}

/// Starts a session by a seal in a handle that has none.
#[unsafe(no_mangle)]
#[tactic(auto, using(crate::proofs::SealedStartLemmas::unsealed_some, crate::proofs::SealedStartLemmas::has_sealed))]
pub extern "C" fn redplay_start_sealed(
    alloc: Global,
    handle: &mut Handle,
    seal: &[u8],
    sources: &[Source],
    mjd: u32,
) -> u32
    ensures used { is_none handle.old.session ≡ false → (result ≡ in_use) × (handle.new.session ≡ handle.old.session) }
    ensures refused { 0 < result → handle.new.session ≡ handle.old.session }
    ensures started { result ≡ good → is_none handle.new.session ≡ false }
    ensures begun { result ≡ good → HasSealed seal.now sources.now mjd handle.new.session }
    ensures why { is_none handle.old.session ≡ true → 0 < result → IsUnsealedBy seal.now sources.now mjd result }
{
    if !handle.is_none() {
        return IN_USE;
    }
    match boxed_by_seal(alloc, seal, sources, mjd) {
        Ok(session) => {
            mem::replace(handle, Handle::of(session)).let_go();
            GOOD
        }
        Err(why) => why.number(),
    }
}

/// A session by a seal, on the heap.
fn boxed_by_seal(
    alloc: Global,
    seal: &[u8],
    sources: &[Source],
    mjd: u32,
) -> Result<Box<Session, Global>, StartRefusal>
    ensures started { IfOk result (λ session. IsSealed seal.now sources.now mjd session.value) }
    ensures refused { IfErr result (λ why. IsUnsealed seal.now sources.now mjd why) }
{
    match Session::start_sealed(alloc, seal, sources, mjd) {
        Ok(session) => in_box(alloc, session),
        Err(why) => Err(why),
    }
}

/// A session on the heap.
fn boxed(
    alloc: Global,
    sources: &[Source],
    choice: &Choice,
) -> Result<Box<Session, Global>, StartRefusal>
    ensures started { IfOk result (λ session. IsStarted sources.now choice.now session.value) }
    ensures refused { IfErr result (λ why. IsUnstarted sources.now choice.now why) }
{
    match Session::start(alloc, sources, choice) {
        Ok(session) => in_box(alloc, session),
        Err(why) => Err(why),
    }
}

/// A value on the heap. What is generic in it does not speak of how a session is dropped.
fn in_box<T: Drop>(alloc: Global, whole: T) -> Result<Box<T, Global>, StartRefusal>
    ensures same { IfOk result (λ boxed. boxed.value ≡ whole) }
    ensures memory { IfErr result (λ why. why ≡ StartRefusal.NoMemory) }
{
    match Box::new(alloc, whole) {
        Ok(boxed) => Ok(boxed),
        Err(_) => Err(StartRefusal::NoMemory),
    }
}

/// Ends the session of a handle and gives all its memory back.
#[unsafe(no_mangle)]
pub extern "C" fn redplay_free(alloc: Global, handle: &mut Handle) -> u32
    ensures gone { handle.new.session ≡ None }
    ensures answer { result ≡ (if is_none handle.old.session then no_session else good) }
{
    if handle.is_none() {
        return NO_SESSION;
    }
    let session = mem::replace(handle, Handle::none(alloc)).into_box();
    drop(session);
    GOOD
}
