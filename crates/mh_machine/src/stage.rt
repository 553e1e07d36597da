//! `Stage`: the objects, the display stack and the screen, which change together.
//!
//! What a change can be seen in is marked, and painted when the picture is wanted.

mod marking;

ghost use Rattle.std.specs.Prelude.{◌≡◌, ◌≤◌, [], false, filter, IfOk, OnOk, OnErr};
ghost use Rattle.std.specs.Borrow.{sem};
ghost use Rattle.std.specs.Str.{bytes_eq};
ghost use Rattle.mh_display.specs.Surface.{IsClean};
ghost use Rattle.mh_model.specs.Bodies.{given};
ghost use Rattle.mh_model.specs.Edits.{edited};
ghost use Rattle.mh_model.specs.Picture.{picture};
ghost use Rattle.std.specs.Option.{option_map_or};
ghost use Rattle.mh_group.specs.Table.{is_visible};
ghost use Rattle.mh_model.specs.Rules.{all_placed, changed, text_brought};
ghost use Rattle.mh_model.specs.Service.{object_at, parts};
ghost use Rattle.mh_model.specs.State.{all};
ghost use Rattle.mh_machine.specs.Lent.{StageStays};
ghost use Rattle.mh_store.specs.Places.{is_among};
ghost use Rattle.mh_machine.specs.Plans.{restacked};

use crate::plan::Stacking;
use crate::stage::marking::{spoil_at, spoil_each, spoil_others, spoil_placed, spoil_unless};
use mh_actions::ordering::Reorder;
use mh_base::{GroupName, ObjRef, Octets, Value};
use mh_display::{Screen, Stack, Walk};
use mh_group::Position;
use mh_model::{Edit, Picture};
use mh_store::{Group, Objects};
use std::alloc::{AllocError, Global};
use std::marker::Model;

/// The objects that are present, those of them that can be seen in their order, and what is shown of
/// them. A contract sees the objects, the stack, its room, and the marks of the cells.
#[derive(Drop)]
pub struct Stage {
    objects: Objects,
    stack: Stack,
    screen: Screen,
    /// Whether a scene has come since the picture was painted.
    exchanged: bool,
}

impl Model for Stage {
    ghost use Rattle.mh_display.specs.Surface.{IsRight};
    ghost use Rattle.mh_model.specs.State.{all};
    ghost use Rattle.mh_machine.specs.Stage.{Staged};

    ghost Value = { Staged };

    ghost view = { λ s. record {
      objects = s.objects;
      stack = s.stack.places;
      room = s.stack.room;
      marks = s.screen.marks;
    } };

    ghost invariant = { λ s. IsRight (all s.objects) s.stack.places s.screen };
}

impl Stage {
    /// The objects of an application, with nothing on the display stack.
    pub fn new(alloc: Global, application: Group) -> Result<Stage, AllocError>
        ensures objects { IfOk result (λ s. s.objects ≡ record { application = application; scene = [] }) }
        ensures stack { IfOk result (λ s. s.stack ≡ []) }
    {
        let screen = Screen::new(alloc)?;
        Ok(Stage {
            objects: Objects::new(application),
            stack: Stack::new(alloc),
            screen,
            exchanged: false,
        })
    }

    pub fn objects(&self) -> &Objects
        ensures { result.now ≡ self.now.objects }
    {
        &self.objects
    }

    /// What can be seen, the bottom first.
    pub fn stack(&self) -> Walk<'_>
        ensures { result ≡ self.now.stack }
    {
        self.stack.up()
    }

    /// Makes room for one more on the stack.
    pub fn reserve(&mut self) -> Result<(), AllocError>
        ensures objects { self.new.objects ≡ self.old.objects }
        ensures stack { self.new.stack ≡ self.old.stack }
        ensures room { OnOk result (1 ≤ self.new.room) }
    {
        self.stack.reserve()
    }

    /// Changes the body of an object.
    pub fn edit(&mut self, at: &ObjRef, edit: Edit) -> Result<(), AllocError>
        ensures done { OnOk result (self.new.objects ≡ changed (edited edit) at.now self.old.objects) }
        ensures stack { self.new.stack ≡ self.old.stack }
        ensures room { self.new.room ≡ self.old.room }
        ensures own { parts self.new.objects.application ≡ parts self.old.objects.application }
        ensures others { parts self.new.objects.scene ≡ parts self.old.objects.scene }
        ensures kept { OnErr result (self.new.objects ≡ self.old.objects) }
    {
        match edit {
            Edit::Give(value) => {
                self.give(at, value);
                Ok(())
            }
            other => self.edit_seen(at, other),
        }
    }

    /// Changes the body of an object. It can be seen in the box before the change, and in the one behind
    /// it.
    #[inline(always)]
    fn edit_seen(&mut self, at: &ObjRef, edit: Edit) -> Result<(), AllocError>
        ensures done { OnOk result (self.new.objects ≡ changed (edited edit) at.now self.old.objects) }
        ensures stack { self.new.stack ≡ self.old.stack }
        ensures room { self.new.room ≡ self.old.room }
        ensures own { parts self.new.objects.application ≡ parts self.old.objects.application }
        ensures others { parts self.new.objects.scene ≡ parts self.old.objects.scene }
        ensures kept { OnErr result (self.new.objects ≡ self.old.objects) }
    {
        spoil_at(&mut self.screen, &self.objects, at);
        let _ = self.objects.edit(at, edit)?;
        spoil_at(&mut self.screen, &self.objects, at);
        Ok(())
    }

    /// Gives a variable a value, which is never seen.
    #[inline(always)]
    pub fn give(&mut self, at: &ObjRef, value: Value)
        ensures given { self.new.objects ≡ changed (λ _ b. given value b) at.now self.old.objects }
        ensures stack { self.new.stack ≡ self.old.stack }
        ensures room { self.new.room ≡ self.old.room }
        ensures own { parts self.new.objects.application ≡ parts self.old.objects.application }
        ensures others { parts self.new.objects.scene ≡ parts self.old.objects.scene }
    {
        self.objects.give(at, value);
    }

    /// Changes the body of an object that is no visible, and places these. Where memory is refused
    /// everything stays as it was.
    pub fn edit_and_place(
        &mut self,
        at: &ObjRef,
        edit: Edit,
        placed: &[(ObjRef, Position)],
    ) -> Result<(), AllocError>
        requires { option_map_or (λ o. is_visible o.fixed.class) (object_at at.now (all self.old.objects)) false ≡ false }
        ensures done { OnOk result (self.new.objects
            ≡ all_placed placed.now (changed (edited edit) at.now self.old.objects)) }
        ensures stack { self.new.stack ≡ self.old.stack }
        ensures room { self.new.room ≡ self.old.room }
        ensures own { parts self.new.objects.application ≡ parts self.old.objects.application }
        ensures others { parts self.new.objects.scene ≡ parts self.old.objects.scene }
        ensures kept { OnErr result (self.new.objects ≡ self.old.objects) }
    {
        spoil_placed(&mut self.screen, &self.objects, placed);
        let _ = self.objects.edit_and_place(at, edit, placed)?;
        spoil_placed(&mut self.screen, &self.objects, placed);
        Ok(())
    }

    /// Gives these objects this text, which can be seen in their boxes. Where memory is refused everything stays as it
    /// was.
    pub fn bring_text(&mut self, waiting: &[ObjRef], text: &Octets) -> Result<(), AllocError>
        ensures done { OnOk result (self.new.objects
            ≡ text_brought (is_among waiting.now) text.now self.old.objects) }
        ensures stack { self.new.stack ≡ self.old.stack }
        ensures own { parts self.new.objects.application ≡ parts self.old.objects.application }
        ensures others { parts self.new.objects.scene ≡ parts self.old.objects.scene }
        ensures kept { OnErr result (self.new.objects ≡ self.old.objects) }
    {
        if waiting.is_empty() {
            return Ok(());
        }
        spoil_each(&mut self.screen, &self.objects, waiting);
        let _ = self.objects.bring_text(waiting, text)?;
        spoil_each(&mut self.screen, &self.objects, waiting);
        Ok(())
    }

    /// Changes the display stack, which has room for one more. That can be seen in the box of the object
    /// that moves.
    pub fn restack(&mut self, stacking: Stacking)
        requires { 1 ≤ self.old.room }
        ensures objects { self.new.objects ≡ self.old.objects }
        ensures stack { self.new.stack ≡ restacked stacking self.old.stack }
    {
        match stacking {
            Stacking::Same => {}
            Stacking::Rise(at) => {
                spoil_at(&mut self.screen, &self.objects, &at);
                self.stack.rise(at);
            }
            Stacking::Fall(at) => {
                spoil_at(&mut self.screen, &self.objects, &at);
                self.stack.fall(&at);
            }
            Stacking::Move(at, how) => self.reorder(at, how),
        }
    }

    fn reorder(&mut self, at: ObjRef, how: Reorder)
        requires { 1 ≤ self.old.room }
        ensures objects { self.new.objects ≡ self.old.objects }
        ensures stack { self.new.stack ≡ restacked (Stacking.Move at how) self.old.stack }
    {
        spoil_at(&mut self.screen, &self.objects, &at);
        reorder(&mut self.stack, at, how);
    }

    /// Puts the objects of another application in the place of all that are there. On the stack stays
    /// nothing.
    pub fn launch(&mut self, alloc: Global, application: Group)
        ensures objects { self.new.objects ≡ record { application = application; scene = [] } }
        ensures stack { self.new.stack ≡ [] }
    {
        self.objects.launch(application);
        self.stack = Stack::new(alloc);
        self.screen.spoil_all();
    }

    /// Puts the objects of another scene in the place of those that are there. On the stack stays what is
    /// the application's. What goes is marked in its boxes; what comes is marked when it runs. Where a scene has come
    /// already since the picture was painted, all is marked: that is one write, and scenes that nobody saw have many boxes.
    pub fn exchange(&mut self, scene: Group, application: &GroupName)
        ensures objects { self.new.objects ≡ record self.old.objects { scene = scene } }
        ensures stack { self.new.stack ≡ filter (λ r. bytes_eq r.group application.now) self.old.stack }
    {
        let was_other = self.objects.has_other_scene(application);
        spoil_others(
            &mut self.screen,
            &self.objects,
            self.stack.up(),
            application,
        );
        self.objects.exchange(scene);
        self.stack.keep(application);
        let is_other = self.objects.has_other_scene(application);
        spoil_unless(&mut self.screen, was_other && is_other && !self.exchanged);
        self.exchanged = true;
    }

    /// Paints what is to be painted.
    fn settle(&mut self)
        ensures objects { self.new.objects ≡ self.old.objects }
        ensures stack { self.new.stack ≡ self.old.stack }
        ensures clean { IsClean self.new.marks }
    {
        self.screen.repaint(&self.objects, &self.stack);
        self.exchanged = false;
    }

    /// The picture. What is to be painted is painted now.
    pub fn picture(&mut self) -> &Picture
        ensures* same { sem 𝓛 (StageStays self.entry) }
        ensures shown { result.now ≡ picture (all self.old.objects) self.old.stack }
    {
        self.settle();
        self.painted()
    }

    /// The picture, where all of it is painted.
    fn painted(&self) -> &Picture
        requires { IsClean self.now.marks }
        ensures { result.now ≡ picture (all self.now.objects) self.now.stack }
    {
        let picture = self.screen.picture();
        let _ = picture.cells();
        picture
    }
}

/// What an action makes of the stack.
fn reorder(stack: &mut Stack, at: ObjRef, how: Reorder)
    requires { 1 ≤ stack.old.room }
    ensures { stack.new.places ≡ restacked (Stacking.Move at how) stack.old.places }
{
    match how {
        Reorder::Nothing => {}
        Reorder::ToFront => stack.bring_to_front(at),
        Reorder::ToBack => stack.send_to_back(at),
        Reorder::Above(other) => stack.put_above(at, &other),
        Reorder::Below(other) => stack.put_below(at, &other),
    }
}
