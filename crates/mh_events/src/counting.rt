//! What is counted of what waits.
ghost use Rattle.std.specs.Prelude.{◌≡◌};
ghost use Rattle.std.specs.Str.{bytes_eq};
ghost use Rattle.mh_model.specs.Rules.{stays, is_input};
ghost use Rattle.mh_model.specs.Step.{is_file_of, time_of};

use mh_base::GroupName;
use mh_model::{Input, Waiting};

/// The most inputs that wait.
pub(crate) const MOST_INPUTS: usize = 256;

/// How much time passes when the input is taken, in milliseconds.
pub(crate) fn time_of(input: &Input) -> u64
    ensures { result ≡ time_of (Waiting.Input input.now) }
{
    match input {
        Input::Tick(milliseconds) => u64::from(*milliseconds),
        _ => 0,
    }
}

pub(crate) fn is_input(waiting: &Waiting) -> bool
    ensures { result ≡ is_input waiting.now }
{
    matches!(waiting, Waiting::Input(_))
}

/// Whether it is the file of this scene.
pub(crate) fn is_file_of(waiting: &Waiting, scene: &GroupName) -> bool
    ensures { result ≡ is_file_of scene.now waiting.now }
{
    match waiting {
        Waiting::Input(Input::Scene(name, _)) => *scene == *name,
        _ => false,
    }
}

/// Whether it waits on when the scene is left: an input, or an event of the application.
pub(crate) fn stays(waiting: &Waiting, application: &GroupName) -> bool
    ensures { result ≡ stays application.now waiting.now }
{
    match waiting {
        Waiting::Input(_) => true,
        Waiting::Event(event) => event.source.group == *application,
    }
}
