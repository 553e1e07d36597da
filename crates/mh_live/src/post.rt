//! `Post`: what is posted from a terminal.
ghost use Rattle.std.specs.Prelude.{◌≡◌, IfOk};
ghost use Rattle.std.specs.Option.{option_copied};
ghost use Rattle.mh_model.specs.State.{all};
ghost use Rattle.mh_live.specs.Posts as spec;

use crate::asks::Ask;
use crate::hearing::first_heard;
use mh_base::{EventType, GroupName, both};
use mh_machine::Machine;
use mh_model::{File, Input, Key, SharedGroup, Transition};
use mh_service::Service;
use mh_store::Objects;
use std::alloc::AllocError;

/// What is posted from a terminal.
#[derive(Drop)]
pub enum Post {
    Key(Key),
    /// Time passes: so many milliseconds.
    Tick(u32),
    /// A stream event with this tag.
    Stream(i32),
    /// An event of the engine with this number.
    Engine(i32),
    /// The file of this scene, as the service has it.
    Scene(GroupName),
    /// A content file.
    File(File),
}

/// The input that is posted; none where the service has no such scene.
pub fn input_of(post: &Post, service: &Service) -> Result<Option<Input>, AllocError>
    ensures { IfOk result (λ input. input ≡ spec.input_of post.now service.now) }
{
    match post {
        Post::Key(key) => Ok(Some(Input::Key(*key))),
        Post::Tick(length) => Ok(Some(Input::Tick(*length))),
        Post::Stream(tag) => Ok(Some(Input::Stream(*tag))),
        Post::Engine(number) => Ok(Some(Input::Engine(*number))),
        Post::Scene(name) => scene_input(name, service.written(name)),
        Post::File(file) => file_input(file),
    }
}

/// The file that the service has under this name, if it has one.
fn scene_input(name: &GroupName, written: Option<&SharedGroup>) -> Result<Option<Input>, AllocError>
    ensures { IfOk result (λ input. input ≡ spec.scene_input name.now (option_copied written.entry)) }
{
    match written {
        Some(group) => {
            let (name, group) = both(name.clone(), group.clone())?;
            Ok(Some(Input::Scene(name, group)))
        }
        None => Ok(None),
    }
}

fn file_input(file: &File) -> Result<Option<Input>, AllocError>
    ensures { IfOk result (λ input. input ≡ Some (Input.Arrive file.now)) }
{
    Ok(Some(Input::Arrive(file.clone()?)))
}

/// Whether time alone passes.
pub fn is_tick(post: &Post) -> bool
    ensures { result ≡ spec.is_tick post.now }
{
    matches!(post, Post::Tick(_))
}

/// What is posted where this is asked for, if anything is.
pub fn post_of(ask: Ask, machine: &Machine) -> Result<Option<Post>, AllocError>
    ensures { IfOk result (λ post. post ≡ spec.post_of ask machine.now) }
{
    match ask {
        Ask::Key(key) => Ok(Some(Post::Key(key))),
        Ask::Stream => Ok(stream_post(machine.objects())),
        Ask::Engine => Ok(Some(engine_post(machine.objects()))),
        Ask::Scene => scene_post(machine.transition()),
        Ask::File | Ask::Back | Ask::Forth | Ask::Redraw | Ask::Quit => Ok(None),
    }
}

/// The stream event for which a link waits, if one does.
fn stream_post(objects: &Objects) -> Option<Post>
    ensures { result ≡ spec.stream_post (all objects.now) }
{
    match first_heard(EventType::StreamEvent, objects) {
        Some(tag) => Some(Post::Stream(tag)),
        None => None,
    }
}

/// The event of the engine for which a link waits, or that with number 0.
fn engine_post(objects: &Objects) -> Post
    ensures { result ≡ spec.engine_post (all objects.now) }
{
    match first_heard(EventType::EngineEvent, objects) {
        Some(number) => Post::Engine(number),
        None => Post::Engine(0),
    }
}

/// The file of the scene for which a transition waits, if one does. A name with a space cannot be said in a script.
fn scene_post(transition: &Transition) -> Result<Option<Post>, AllocError>
    ensures { IfOk result (λ post. post ≡ spec.scene_post transition.now) }
{
    match transition {
        Transition::Awaits(scene) if is_sayable(scene.as_bytes()) => {
            Ok(Some(Post::Scene(scene.clone()?)))
        }
        Transition::Awaits(_) | Transition::Rests | Transition::Begun => Ok(None),
    }
}

/// Whether a script can say the name: no space and no end of a line stands in it.
#[tactic(auto, unfolding(crate::specs::Posts::is_sayable))]
pub fn is_sayable(name: &[u8]) -> bool
    ensures { result ≡ spec.is_sayable name.now }
{
    name.iter().all(|byte| is_sayable_byte(*byte))
}

fn is_sayable_byte(byte: u8) -> bool
    ensures { result ≡ spec.is_sayable_byte byte }
{
    byte != b' ' && byte != b'\n'
}
