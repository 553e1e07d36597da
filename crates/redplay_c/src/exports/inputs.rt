//! What is posted.
ghost use Rattle.redplay_c.specs.Calls.{IsArrived, IsBrought, IsPosted, IsPressed};
ghost use Rattle.redplay_c.specs.Keys.{key_of};
ghost use Rattle.redplay_c.specs.OnSession.{OnSession};

use crate::answer::{NO_KEY, NO_SESSION};
use crate::handle::Handle;
use crate::keys::key_of;
use mh_model::Input;

/// Posts a key, by its number.
#[unsafe(no_mangle)]
pub extern "C" fn redplay_key(handle: &mut Handle, key: u32) -> u32
    ensures { OnSession (IsPressed (key_of key)) handle.old.session handle.new.session result }
{
    if handle.is_none() {
        return NO_SESSION;
    }
    match key_of(key) {
        Some(key) => handle.held().post(Input::Key(key)),
        None => NO_KEY,
    }
}

/// Posts that so many milliseconds passed.
#[unsafe(no_mangle)]
pub extern "C" fn redplay_tick(handle: &mut Handle, milliseconds: u32) -> u32
    ensures { OnSession (IsPosted (Input.Tick milliseconds)) handle.old.session handle.new.session result }
{
    if handle.is_none() {
        return NO_SESSION;
    }
    handle.held().post(Input::Tick(milliseconds))
}

/// Posts a stream event.
#[unsafe(no_mangle)]
pub extern "C" fn redplay_stream(handle: &mut Handle, tag: i32) -> u32
    ensures { OnSession (IsPosted (Input.Stream tag)) handle.old.session handle.new.session result }
{
    if handle.is_none() {
        return NO_SESSION;
    }
    handle.held().post(Input::Stream(tag))
}

/// Posts an event of the engine.
#[unsafe(no_mangle)]
pub extern "C" fn redplay_event(handle: &mut Handle, number: i32) -> u32
    ensures { OnSession (IsPosted (Input.Engine number)) handle.old.session handle.new.session result }
{
    if handle.is_none() {
        return NO_SESSION;
    }
    handle.held().post(Input::Engine(number))
}

/// Posts a content file that is there now.
#[unsafe(no_mangle)]
pub extern "C" fn redplay_file(handle: &mut Handle, name: &[u8], content: &[u8]) -> u32
    ensures { OnSession (IsArrived name.now content.now) handle.old.session handle.new.session result }
{
    if handle.is_none() {
        return NO_SESSION;
    }
    handle.held().arrive(name, content)
}

/// Posts the file of a scene that was late.
#[unsafe(no_mangle)]
pub extern "C" fn redplay_scene(handle: &mut Handle, name: &[u8], content: &[u8]) -> u32
    ensures { OnSession (IsBrought name.now content.now) handle.old.session handle.new.session result }
{
    if handle.is_none() {
        return NO_SESSION;
    }
    handle.held().bring(name, content)
}
