//! What comes from outside in a script that is tried, one at a time.
use mh_base::{GroupName, both};
use mh_model::{Input, Key};
use mh_service::Service;
use std::alloc::AllocError;

/// One thing that comes from outside.
#[derive(Clone, Copy, PartialEq, Eq)]
pub enum Stimulus {
    Key(Key),
    /// So many milliseconds pass, 1 to 60,000.
    Tick(u32),
    /// A stream event with this tag, which is not negative.
    Stream(i32),
    /// An event of the engine with this number, which is not negative.
    Engine(i32),
    /// The file of the scene that stands at this place among those of the service that come late.
    Scene(usize),
}

/// The stimulus as a machine takes it; none where there is no such scene.
pub fn input_of(stimulus: Stimulus, service: &Service) -> Result<Option<Input>, AllocError> {
    match stimulus {
        Stimulus::Key(key) => Ok(Some(Input::Key(key))),
        Stimulus::Tick(length) => Ok(Some(Input::Tick(length))),
        Stimulus::Stream(tag) => Ok(Some(Input::Stream(tag))),
        Stimulus::Engine(number) => Ok(Some(Input::Engine(number))),
        Stimulus::Scene(place) => match service.late().get(place) {
            Some(name) => scene_input(name, service),
            None => Ok(None),
        },
    }
}

/// The file that the service has under this name.
fn scene_input(name: &GroupName, service: &Service) -> Result<Option<Input>, AllocError> {
    match service.written(name) {
        Some(group) => {
            let (name, group) = both(name.clone(), group.clone())?;
            Ok(Some(Input::Scene(name, group)))
        }
        None => Ok(None),
    }
}
