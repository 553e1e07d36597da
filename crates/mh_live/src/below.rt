//! The lines below the picture: the application and the scene with what runs there, the steps, and the last faults.

mod awaited;
pub(crate) mod faults;

ghost use Rattle.std.specs.Prelude.{◌≡◌, ◌++◌, [], ◌∷◌, OnOk, IfOk};
ghost use Rattle.std.specs.Option.{option_copied, option_map_or};
ghost use Rattle.mh_model.specs.State.{all};
ghost use Rattle.mh_live.specs.Below as spec;

use crate::below::awaited::push_awaited;
use crate::below::faults::push_last;
use mh_base::GroupName;
use mh_engine::{Engine, Rest};
use mh_group::Class;
use mh_machine::Machine;
use mh_model::Object;
use mh_store::Objects;
use mh_told::text::Text;
use std::alloc::{AllocError, Global};

/// The lines below the picture, from the top, with the places of faults and what is told below everything.
pub fn lines_below(
    alloc: Global,
    engine: &Engine,
    places: &[Text],
    notice: &Text,
) -> Result<Vec<Text>, AllocError>
    ensures { IfOk result (λ lines. lines.items ≡ spec.below places.now notice.now engine.now) }
{
    let mut lines = Vec::new(alloc);
    push_state(alloc, &mut lines, engine)?;
    push_awaited(alloc, &mut lines, engine.machine())?;
    push_last(alloc, &mut lines, engine.faults(), places)?;
    push_notice(alloc, &mut lines, notice)?;
    Ok(lines)
}

/// The lines on the application, the scene and the steps.
fn push_state(alloc: Global, lines: &mut Vec<Text>, engine: &Engine) -> Result<(), AllocError>
    ensures { OnOk result (lines.new.items ≡ lines.old.items ++ spec.application_line engine.now.state
        ∷ spec.scene_line engine.now.state ∷ spec.steps_line engine.now ∷ []) }
{
    lines.push(application_line(alloc, engine.machine())?)?;
    lines.push(scene_line(alloc, engine.machine())?)?;
    lines.push(steps_line(alloc, engine)?)?;
    Ok(())
}

/// The line that is told below everything, if it is not empty.
fn push_notice(alloc: Global, lines: &mut Vec<Text>, notice: &Text) -> Result<(), AllocError>
    ensures { OnOk result (lines.new.items ≡ lines.old.items ++ spec.notice_lines notice.now) }
{
    match notice.as_slice() {
        [] => Ok(()),
        [_, ..] => {
            lines.push(copied(alloc, notice)?)?;
            Ok(())
        }
    }
}

fn copied(alloc: Global, text: &Text) -> Result<Text, AllocError>
    ensures { IfOk result (λ copy. copy ≡ text.now) }
{
    let mut copy = Text::new(alloc);
    copy.put(text.as_slice())?;
    Ok(copy)
}

#[tactic(auto, unfolding(crate::specs::Below::application_line))]
fn application_line(alloc: Global, machine: &Machine) -> Result<Text, AllocError>
    ensures { IfOk result (λ line. line ≡ spec.application_line machine.now) }
{
    let mut line = Text::new(alloc);
    line.put(b"application ")?;
    put_group(&mut line, machine.application(), machine.objects())?;
    Ok(line)
}

fn scene_line(alloc: Global, machine: &Machine) -> Result<Text, AllocError>
    ensures { IfOk result (λ line. line ≡ spec.scene_line machine.now) }
{
    let mut line = Text::new(alloc);
    put_scene(&mut line, machine.scene(), machine.objects())?;
    Ok(line)
}

fn put_scene(
    line: &mut Text,
    scene: Option<&GroupName>,
    objects: &Objects,
) -> Result<(), AllocError>
    ensures { OnOk result (line.new ≡ line.old ++ spec.scene_text (option_copied scene.entry) (all objects.now)) }
{
    match scene {
        Some(scene) => {
            line.put(b"scene ")?;
            put_group(line, scene, objects)
        }
        None => line.put(b"no scene"),
    }
}

/// Puts a group, and the numbers of its objects that run.
#[tactic(auto, unfolding(crate::specs::Below::group_text))]
fn put_group(line: &mut Text, group: &GroupName, objects: &Objects) -> Result<(), AllocError>
    ensures { OnOk result (line.new ≡ line.old ++ spec.group_text group.now (all objects.now)) }
{
    line.put(group.as_bytes())?;
    line.put(b", running:")?;
    put_running(line, group, objects)
}

#[tactic(auto, unfolding(crate::specs::Below::running_text))]
fn put_running(line: &mut Text, group: &GroupName, objects: &Objects) -> Result<(), AllocError>
    ensures { OnOk result (line.new ≡ line.old ++ spec.running_text group.now (all objects.now)) }
{
    for place in 0..objects.len() {
        put_running_at(line, group, objects.at(place))?;
    }
    Ok(())
}

fn put_running_at(
    line: &mut Text,
    group: &GroupName,
    found: Option<&Object>,
) -> Result<(), AllocError>
    ensures { OnOk result (line.new
        ≡ line.old ++ option_map_or (spec.running_part group.now) (option_copied found.entry) []) }
{
    match found {
        Some(object) => put_running_object(line, group, object),
        None => Ok(()),
    }
}

/// Puts the number of the object, if it is told as one of this group that runs.
#[tactic(auto, unfolding(crate::specs::Below::running_part))]
fn put_running_object(line: &mut Text, group: &GroupName, object: &Object) -> Result<(), AllocError>
    ensures { OnOk result (line.new ≡ line.old ++ spec.running_part group.now object.now) }
{
    if !is_told(group, object) {
        return Ok(());
    }
    line.put(b" ")?;
    line.put_number(u64::from(object.fixed.get().key.number))
}

fn is_told(group: &GroupName, object: &Object) -> bool
    ensures { result ≡ spec.is_told group.now object.now }
{
    if !object.body.running {
        return false;
    }
    let fixed = object.fixed.get();
    is_told_class(fixed.class) && fixed.key.group == *group
}

/// Links and groups are not told: nearly all of them run.
fn is_told_class(class: Class) -> bool
    ensures { result ≡ spec.is_told_class class }
{
    !matches!(class, Class::Link | Class::Application | Class::Scene)
}

/// The steps that were taken, how many are left where a bound is known, and what is left to do.
#[tactic(auto, unfolding(crate::specs::Below::steps_line))]
fn steps_line(alloc: Global, engine: &Engine) -> Result<Text, AllocError>
    ensures { IfOk result (λ line. line ≡ spec.steps_line engine.now) }
{
    let mut line = Text::new(alloc);
    let taken = engine.taken();
    line.put(b"steps taken ")?;
    line.put_number(taken)?;
    put_left(
        &mut line,
        engine.is_accepted(),
        engine.budget().saturating_sub(taken),
    )?;
    line.put(rest_text(engine.rest()))?;
    Ok(line)
}

fn put_left(line: &mut Text, is_bounded: bool, left: u64) -> Result<(), AllocError>
    ensures { OnOk result (line.new ≡ line.old ++ spec.left_text is_bounded left) }
{
    if is_bounded {
        line.put(b", left ")?;
        line.put_number(left)
    } else {
        line.put(unbounded())
    }
}

#[tactic(auto, unfolding(crate::specs::Below::unbounded))]
fn unbounded() -> &'static [u8]
    ensures { result.now ≡ spec.unbounded }
{
    b", no bound is known"
}

#[tactic(auto, unfolding(crate::specs::Below::rest_text))]
fn rest_text(rest: Rest) -> &'static [u8]
    ensures { result.now ≡ spec.rest_text rest }
{
    match rest {
        Rest::Idle => b"",
        Rest::More => b", more to do",
        Rest::Ended => b", the application has quit",
    }
}
