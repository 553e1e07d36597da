//! What is waited for: the scene that a transition waits for, and the content files that texts wait for.
ghost use Rattle.std.specs.Prelude.{◌≡◌, ◌++◌, ◌∷◌, [], IfOk, OnOk};
ghost use Rattle.std.specs.List.{flat_map};
ghost use Rattle.redplay_c.specs.Calls.{IsAwaitedTold, awaited_lines, file_line, scene_lines};

use crate::answer::{GOOD, NO_MEMORY};
use crate::crossing::put;
use crate::session::Session;
use mh_base::GroupName;
use mh_model::Transition;
use mh_told::text::Text;
use std::alloc::AllocError;

impl Session {
    /// Tells what is waited for, a line each: `scene NAME` first, if a transition waits for one, then `file NAME`.
    pub fn awaited(&self, text: &mut [u8], length: &mut usize) -> u32
        ensures { IsAwaitedTold text.old text.new length.old length.new self.now self.now result }
    {
        match self.awaited_lines() {
            Ok(lines) => {
                *length = put(lines.as_slice(), text);
                GOOD
            }
            Err(_) => NO_MEMORY,
        }
    }

    fn awaited_lines(&self) -> Result<Text, AllocError>
        ensures { IfOk result (λ text. text ≡ awaited_lines self.now.engine.state) }
    {
        let machine = self.player.machine();
        let names = machine.awaited_files()?;
        let mut text = Text::new(self.alloc);
        put_scene(&mut text, machine.transition())?;
        put_files(&mut text, names.as_slice())?;
        Ok(text)
    }
}

fn put_scene(text: &mut Text, transition: &Transition) -> Result<(), AllocError>
    ensures { OnOk result (text.new ≡ text.old ++ scene_lines transition.now) }
{
    match transition {
        Transition::Awaits(scene) => put_line(text, b"scene ", scene.as_bytes()),
        _ => Ok(()),
    }
}

fn put_files(text: &mut Text, names: &[GroupName]) -> Result<(), AllocError>
    ensures { OnOk result (text.new ≡ text.old ++ flat_map file_line names.now) }
{
    for name in names {
        put_line(text, b"file ", name.as_bytes())?;
    }
    Ok(())
}

fn put_line(text: &mut Text, word: &[u8], name: &[u8]) -> Result<(), AllocError>
    ensures { OnOk result (text.new ≡ text.old ++ ((word.now ++ name.now) ++ 10 ∷ [])) }
{
    text.put(word)?;
    text.put(name)?;
    text.put(b"\n")
}
