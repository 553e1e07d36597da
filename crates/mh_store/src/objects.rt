//! `Objects`: those of the application and those of the scene.
ghost use Rattle.std.specs.Prelude.{◌≡◌, IfOk, OnOk, OnErr, [], true, false, length, slice_get};
ghost use Rattle.std.specs.Option.{option_copied, option_map_or};
ghost use Rattle.mh_group.specs.Table.{is_visible};
ghost use Rattle.mh_model.specs.Bodies.{given};
ghost use Rattle.mh_model.specs.Edits.{edited};
ghost use Rattle.mh_model.specs.Rules.{changed, text_brought, all_placed};
ghost use Rattle.mh_model.specs.Service.{object_at, parts};
ghost use Rattle.mh_model.specs.State.{all};
ghost use Rattle.mh_store.specs.Apart.{AreOfOthers};
ghost use Rattle.mh_store.specs.Places.{is_among, places_from};
ghost use Rattle.mh_store.specs.Placing.{renewed};

use crate::placing::{ready_placed, renew_all};
use crate::scene::{at_in, boxed_in, is_other_in, len_in, places_in, put_in, ready_in, renew_in};
use crate::trying::{
    edit_application_first, edit_scene_first, give_application_first, give_scene_first,
};
use crate::{Boxed, Group};
use mh_base::{GroupName, ObjRef, Octets, Value};
use mh_group::Position;
use mh_model::{Edit, Object};
use std::alloc::AllocError;
use std::marker::Model;

/// The objects that are present: those of the active application, and those of the current scene.
#[derive(Drop)]
pub struct Objects {
    application: Group,
    scene: Option<Group>,
    /// There is a scene, and its name is not the application's. No reference leads into both then, so
    /// that the scene, where most are found, can be asked first.
    apart: bool,
}

impl Model for Objects {
    ghost use Rattle.mh_model.specs.State.{Objects as ObjectsValue};
    ghost use Rattle.mh_store.specs.Apart.{AreApart};
    ghost use Rattle.mh_store.specs.Trying.{of_scene, with_scene};

    ghost Value = { ObjectsValue };

    ghost view = { λ o. with_scene o.application o.scene };

    ghost invariant = { λ o. AreApart o.apart o.application (of_scene o.scene) };
}

impl Objects {
    /// Those of an application, with no scene. It takes no memory.
    pub fn new(application: Group) -> Objects
        ensures { result ≡ record { application = application; scene = [] } }
    {
        Objects {
            application,
            scene: None,
            apart: false,
        }
    }

    /// The object to which the reference leads, if it is present.
    pub fn get(&self, at: &ObjRef) -> Option<&Object>
        ensures { option_copied result ≡ object_at at.now (all self.now) }
    {
        match self.boxed(at) {
            Some(kept) => Some(kept.object()),
            None => None,
        }
    }

    /// The object to which the reference leads, with its box, if it is present.
    pub fn boxed(&self, at: &ObjRef) -> Option<&Boxed>
        ensures { option_copied result ≡ object_at at.now (all self.now) }
    {
        if self.apart
            && let Some(kept) = boxed_in(&self.scene, at)
        {
            return Some(kept);
        }
        match self.application.boxed(at) {
            Some(kept) => Some(kept),
            None => boxed_in(&self.scene, at),
        }
    }

    /// The object at this place in the one list, the application's first.
    pub fn at(&self, place: usize) -> Option<&Object>
        ensures { option_copied result ≡ slice_get (all self.now) place }
    {
        let behind = self.application.len();
        if place < behind {
            self.application.at(place)
        } else {
            at_in(&self.scene, place - behind)
        }
    }

    /// Whether the scene, if there is one, is another group than the one of the name, so that no reference to that one
    /// leads to an object of the scene.
    pub fn has_other_scene(&self, name: &GroupName) -> bool
        ensures { AreOfOthers result name.now self.now.scene }
    {
        is_other_in(&self.scene, name)
    }

    /// How many objects are present.
    pub fn len(&self) -> usize
        ensures { result ≡ length (all self.now) }
    {
        self.application.len() + len_in(&self.scene)
    }

    /// The places of the objects that have these references, in the one list, in rising order and each once. Each is
    /// found by its reference: what else is present costs nothing.
    pub fn places_of(&self, named: &[ObjRef]) -> Result<Vec<usize>, AllocError>
        ensures { IfOk result (λ places. places.items ≡ places_from 0 (is_among named.now) (all self.now)) }
    {
        let behind = self.application.len();
        let mut places = self.application.places(0, named)?;
        let mut others = places_in(self.application.allocator(), &self.scene, behind, named)?;
        places.append(&mut others)?;
        Ok(places)
    }

    /// Changes the body of the object at this reference; where there is none, nothing.
    #[inline(always)]
    pub fn edit(&mut self, at: &ObjRef, edit: Edit) -> Result<(), AllocError>
        ensures done { OnOk result (self.new ≡ changed (edited edit) at.now self.old) }
        ensures own { parts self.new.application ≡ parts self.old.application }
        ensures others { parts self.new.scene ≡ parts self.old.scene }
        ensures kept { OnErr result (self.new ≡ self.old) }
    {
        if self.apart {
            edit_scene_first(&mut self.application, &mut self.scene, at, edit)
        } else {
            edit_application_first(&mut self.application, &mut self.scene, at, edit)
        }
    }

    /// Gives the variable at this reference a value. It takes no memory.
    #[inline(always)]
    pub fn give(&mut self, at: &ObjRef, value: Value)
        ensures given { self.new ≡ changed (λ _ b. given value b) at.now self.old }
        ensures own { parts self.new.application ≡ parts self.old.application }
        ensures others { parts self.new.scene ≡ parts self.old.scene }
    {
        if self.apart {
            give_scene_first(&mut self.application, &mut self.scene, at, value);
        } else {
            give_application_first(&mut self.application, &mut self.scene, at, value);
        }
    }

    /// Brings a text to the objects that wait for it. All that wants memory is made before the first of
    /// them is changed.
    pub fn bring_text(&mut self, waiting: &[ObjRef], text: &Octets) -> Result<(), AllocError>
        ensures done { OnOk result (self.new ≡ text_brought (is_among waiting.now) text.now self.old) }
        ensures own { parts self.new.application ≡ parts self.old.application }
        ensures others { parts self.new.scene ≡ parts self.old.scene }
        ensures kept { OnErr result (self.new ≡ self.old) }
    {
        let alloc = self.application.allocator();
        let application = self.application.ready(waiting, text)?;
        let scene = ready_in(alloc, &self.scene, waiting, text)?;
        self.application.put(application);
        put_in(&mut self.scene, scene);
        Ok(())
    }

    /// Changes the body of the object at this reference, which is no visible, and then places these visibles
    /// where it is said, one after another; what is absent or no visible is passed over. All that wants memory
    /// is made before the first of them is changed.
    pub fn edit_and_place(
        &mut self,
        at: &ObjRef,
        edit: Edit,
        placed: &[(ObjRef, Position)],
    ) -> Result<(), AllocError>
        requires { option_map_or (λ o. is_visible o.fixed.class) (object_at at.now (all self.old)) false ≡ false }
        ensures done { OnOk result (self.new ≡ all_placed placed.now (changed (edited edit) at.now self.old)) }
        ensures own { parts self.new.application ≡ parts self.old.application }
        ensures others { parts self.new.scene ≡ parts self.old.scene }
        ensures kept { OnErr result (self.new ≡ self.old) }
    {
        let ready = ready_placed(self.application.allocator(), self, placed)?;
        self.edit(at, edit)?;
        renew_all(self, ready);
        Ok(())
    }

    /// Puts this where the object with its reference is; where there is none, nothing. It takes no memory.
    pub(crate) fn renew(&mut self, kept: Boxed)
        ensures { self.new ≡ renewed kept self.old }
    {
        if let Some(kept) = self.application.renew(kept) {
            renew_in(&mut self.scene, kept);
        }
    }

    /// Puts the objects of another application, with no scene, in the place of all that are there. It
    /// takes no memory.
    pub fn launch(&mut self, application: Group)
        ensures { self.new ≡ record { application = application; scene = [] } }
    {
        self.apart = false;
        self.application = application;
        self.scene = None;
    }

    /// Puts the objects of another scene in the place of those that are there. It takes no memory.
    pub fn exchange(&mut self, scene: Group)
        ensures { self.new ≡ record self.old { scene = scene } }
    {
        self.apart = self.application.is_apart(&scene);
        self.scene = Some(scene);
    }
}
