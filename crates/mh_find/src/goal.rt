//! `Goal`: what a script is to lead to.
ghost use Rattle.std.specs.Prelude.{◌≡◌, ◌<◌, drop, take};
ghost use Rattle.std.specs.Option.{option_copied};
ghost use Rattle.mh_model.specs.Step.{is_empty};
ghost use Rattle.mh_find.specs.Goal as spec;

use mh_base::GroupName;
use mh_machine::Machine;
use mh_model::Picture;
use mh_model::picture::{COLUMNS, ROWS};

/// What a script is to lead to.
#[derive(Drop)]
pub enum Goal {
    /// A fault.
    Fault,
    /// Something that is still to be done, behind the steps that were made.
    More,
    /// This scene.
    Scene(GroupName),
    /// A picture that shows these characters in one row, one behind the other.
    Shown(Vec<u32>),
}

impl Goal {
    /// Whether the machine is where a script is to lead.
    pub fn is_reached(&self, machine: &mut Machine) -> bool
        ensures led { result ≡ spec.is_led self.now machine.old }
    {
        match self {
            Goal::Fault => !is_empty(machine.faults()),
            Goal::More => !machine.is_settled(),
            Goal::Scene(scene) => is_scene(scene, machine.scene()),
            Goal::Shown(text) => shows(text.as_slice(), machine.picture()),
        }
    }
}

fn is_scene(scene: &GroupName, current: Option<&GroupName>) -> bool
    ensures { result ≡ spec.is_scene scene.now (option_copied current.entry) }
{
    match current {
        Some(current) => *scene == *current,
        None => false,
    }
}

/// Whether the characters stand one behind the other in a row.
fn shows(text: &[u32], picture: &Picture) -> bool
    ensures { result ≡ spec.shows text.now picture.now }
{
    for row in 0..ROWS {
        if holds(text, row_of(picture, row)) {
            return true;
        }
    }
    false
}

/// The characters of a row.
#[tactic(auto, unfolding(crate::specs::Goal::row_of))]
fn row_of(picture: &Picture, row: usize) -> &[u32]
    requires { row < 36 }
    ensures { result.now ≡ spec.row_of picture.now row }
{
    front_of(behind(picture.scalars(), row * COLUMNS), COLUMNS)
}

fn behind(scalars: &[u32], place: usize) -> &[u32]
    ensures { result.now ≡ drop place scalars.now }
{
    if place < scalars.len() {
        &scalars[place..]
    } else {
        &[]
    }
}

fn front_of(scalars: &[u32], count: usize) -> &[u32]
    ensures { result.now ≡ take count scalars.now }
{
    if count < scalars.len() {
        &scalars[..count]
    } else {
        scalars
    }
}

/// Whether the characters stand somewhere in these.
#[tactic(auto, unfolding(crate::specs::Goal::holds))]
fn holds(text: &[u32], row: &[u32]) -> bool
    ensures { result ≡ spec.holds text.now row.now }
{
    let mut rest = row;
    while let [_, behind @ ..] = rest {
        if begins(text, rest) {
            return true;
        }
        rest = behind;
    }
    is_empty(text)
}

fn is_empty<T>(items: &[T]) -> bool
    ensures { result ≡ is_empty items.now }
{
    match items {
        [] => true,
        [_, ..] => false,
    }
}

/// Whether these begin with the characters.
fn begins(text: &[u32], row: &[u32]) -> bool
    ensures { result ≡ spec.begins text.now row.now }
{
    row.starts_with(text)
}
