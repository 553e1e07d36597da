//! The lines on what is awaited: the scene to which a transition leads, and content files.
ghost use Rattle.std.specs.Prelude.{◌≡◌, ◌++◌, ◌∷◌, OnOk, IfOk};
ghost use Rattle.std.specs.List.{flat_map};
ghost use Rattle.mh_live.specs.Below as spec;

use mh_base::GroupName;
use mh_machine::Machine;
use mh_model::Transition;
use mh_told::text::Text;
use std::alloc::{AllocError, Global};

/// The lines on the scene for which a transition waits, and on the content files for which objects do.
pub fn push_awaited(
    alloc: Global,
    lines: &mut Vec<Text>,
    machine: &Machine,
) -> Result<(), AllocError>
    ensures { OnOk result (lines.new.items ≡ lines.old.items ++ spec.awaited_lines machine.now) }
{
    push_scene(alloc, lines, machine.transition())?;
    let names = machine.awaited_files()?;
    push_files(alloc, lines, names.as_slice())
}

fn push_scene(
    alloc: Global,
    lines: &mut Vec<Text>,
    transition: &Transition,
) -> Result<(), AllocError>
    ensures { OnOk result (lines.new.items ≡ lines.old.items ++ spec.scene_lines transition.now) }
{
    match transition {
        Transition::Awaits(scene) => {
            lines.push(scene_line(alloc, scene)?)?;
            Ok(())
        }
        Transition::Rests | Transition::Begun => Ok(()),
    }
}

#[tactic(auto, unfolding(crate::specs::Below::awaited_text))]
fn scene_line(alloc: Global, scene: &GroupName) -> Result<Text, AllocError>
    ensures { IfOk result (λ line. line ≡ spec.awaited_text scene.now) }
{
    let mut line = Text::new(alloc);
    line.put(awaited_front())?;
    line.put(scene.as_bytes())?;
    line.put(awaited_end())?;
    Ok(line)
}

#[tactic(auto, unfolding(crate::specs::Below::awaited_front))]
fn awaited_front() -> &'static [u8]
    ensures { result.now ≡ spec.awaited_front }
{
    b"waits for the file of scene "
}

#[tactic(auto, unfolding(crate::specs::Below::awaited_end))]
fn awaited_end() -> &'static [u8]
    ensures { result.now ≡ spec.awaited_end }
{
    b", which l brings"
}

/// The line on the content files of these names, if there are any.
fn push_files(alloc: Global, lines: &mut Vec<Text>, names: &[GroupName]) -> Result<(), AllocError>
    ensures { OnOk result (lines.new.items ≡ lines.old.items ++ spec.file_lines names.now) }
{
    match names {
        [] => Ok(()),
        [_, ..] => {
            lines.push(files_line(alloc, names)?)?;
            Ok(())
        }
    }
}

#[tactic(auto, unfolding(crate::specs::Below::files_text))]
fn files_line(alloc: Global, names: &[GroupName]) -> Result<Text, AllocError>
    ensures { IfOk result (λ line. line ≡ spec.files_text names.now) }
{
    let mut line = Text::new(alloc);
    line.put(files_front())?;
    put_names(&mut line, names)?;
    Ok(line)
}

#[tactic(auto, unfolding(crate::specs::Below::files_front))]
fn files_front() -> &'static [u8]
    ensures { result.now ≡ spec.files_front }
{
    b"waits for content files:"
}

fn put_names(line: &mut Text, names: &[GroupName]) -> Result<(), AllocError>
    ensures { OnOk result (line.new ≡ line.old ++ flat_map spec.name_part names.now) }
{
    for name in names {
        put_name(line, name)?;
    }
    Ok(())
}

#[tactic(auto, unfolding(crate::specs::Below::name_part))]
fn put_name(line: &mut Text, name: &GroupName) -> Result<(), AllocError>
    ensures { OnOk result (line.new ≡ line.old ++ spec.name_part name.now) }
{
    line.put(b" ")?;
    line.put(name.as_bytes())
}
