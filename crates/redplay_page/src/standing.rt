//! The state in which a session stands, one of its objects, and what lies at a cell.
ghost use Rattle.std.specs.Prelude.{◌≡◌, ◌++◌, ◌<◌, [], IfOk, OnOk};
ghost use Rattle.mh_crossing.specs.Rooms.{HandsOut, IsPut};
ghost use Rattle.redplay_page.specs.Standing.{IsCellTold, IsObjectTold, IsStateTold, TellsObject, TellsObjects, cell_text, has_cell, objects_text, own_text};
ghost use Rattle.std.specs.Option.{option_copied, option_map_or};
ghost use Rattle.mh_state.specs.State.{state_text};
ghost use Rattle.mh_state.specs.Object.{object_text};
ghost use Rattle.mh_model.specs.State.{all};

use crate::cell::put_cell;
use crate::session::Session;
use mh_base::{GroupName, ObjRef};
use mh_crossing::{GOOD, NO_MEMORY, OUT_OF_RANGE, name_number, put_length};
use mh_machine::Machine;
use mh_model::Object;
use mh_model::picture::{COLUMNS, ROWS};
use mh_state::{put_object, put_state};
use mh_store::Objects;
use mh_told::text::Text;
use std::alloc::{AllocError, Global};

impl Session {
    /// Tells the state.
    pub fn tell_state(&self, text: &mut [u8], length: &mut usize) -> u32
        ensures { IsStateTold self.now text.old text.new length.old length.new result }
    {
        match state_of(self.alloc, self.tracer.machine()) {
            Ok(state) => hand_out(&state, text, length),
            Err(_) => NO_MEMORY,
        }
    }

    /// Tells an object, by its group and its number, or that it is not present.
    #[tactic(auto, using(crate::proofs::StandingLemmas::pathed_so, crate::proofs::StandingLemmas::unpathed_so))]
    pub fn tell_object(&self, group: &[u8], number: u32, text: &mut [u8], length: &mut usize) -> u32
        ensures { IsObjectTold group.now number self.now text.old text.new length.old length.new result }
    {
        match GroupName::of_path(self.alloc, group) {
            Ok(group) => self.tell_one(&ObjRef { group, number }, text, length),
            Err(why) => name_number(why),
        }
    }

    fn tell_one(&self, at: &ObjRef, text: &mut [u8], length: &mut usize) -> u32
        ensures { HandsOut (TellsObject self.now at.now) text.old text.new length.old length.new result }
    {
        match object_of(self.alloc, self.tracer.machine(), at) {
            Ok(object) => hand_out(&object, text, length),
            Err(_) => NO_MEMORY,
        }
    }

    /// Tells all objects that are present, one behind the other.
    pub fn tell_objects(&self, text: &mut [u8], length: &mut usize) -> u32
        ensures { HandsOut (TellsObjects self.now) text.old text.new length.old length.new result }
    {
        match objects_of(self.alloc, self.tracer.machine().objects()) {
            Ok(objects) => hand_out(&objects, text, length),
            Err(_) => NO_MEMORY,
        }
    }

    /// Tells what lies at a cell, the top first.
    pub fn tell_cell(&self, row: usize, column: usize, text: &mut [u8], length: &mut usize) -> u32
        ensures { IsCellTold row column self.now text.old text.new length.old length.new result }
    {
        if !has_cell(row, column) {
            return OUT_OF_RANGE;
        }
        match cell_of(self.alloc, self.tracer.machine(), row, column) {
            Ok(cell) => hand_out(&cell, text, length),
            Err(_) => NO_MEMORY,
        }
    }
}

/// Whether there is such a cell.
fn has_cell(row: usize, column: usize) -> bool
    ensures { result ≡ has_cell row column }
{
    row < ROWS && column < COLUMNS
}

fn hand_out(made: &Text, text: &mut [u8], length: &mut usize) -> u32
    ensures put { IsPut made.now text.old text.new length.new }
    ensures good { result ≡ 0 }
{
    put_length(made.as_slice(), text, length);
    GOOD
}

fn state_of(alloc: Global, machine: &Machine) -> Result<Text, AllocError>
    ensures { IfOk result (λ text. text ≡ state_text machine.now) }
{
    let mut text = Text::new(alloc);
    put_state(alloc, &mut text, machine)?;
    Ok(text)
}

fn object_of(alloc: Global, machine: &Machine, at: &ObjRef) -> Result<Text, AllocError>
    ensures { IfOk result (λ text. text ≡ object_text (all machine.now.objects) at.now) }
{
    let mut text = Text::new(alloc);
    put_object(alloc, &mut text, machine.objects(), at)?;
    Ok(text)
}

fn cell_of(alloc: Global, machine: &Machine, row: usize, column: usize) -> Result<Text, AllocError>
    requires rows { row < 36 }
    requires columns { column < 60 }
    ensures { IfOk result (λ text. text ≡ cell_text machine.now row column) }
{
    let mut text = Text::new(alloc);
    put_cell(alloc, &mut text, machine, row, column)?;
    Ok(text)
}

fn objects_of(alloc: Global, objects: &Objects) -> Result<Text, AllocError>
    ensures { IfOk result (λ text. text ≡ objects_text (all objects.now)) }
{
    let mut text = Text::new(alloc);
    put_objects(alloc, &mut text, objects)?;
    Ok(text)
}

fn put_objects(alloc: Global, text: &mut Text, objects: &Objects) -> Result<(), AllocError>
    ensures { OnOk result (text.new ≡ text.old ++ objects_text (all objects.now)) }
{
    for place in 0..objects.len() {
        put_own_if(alloc, text, objects, objects.at(place))?;
    }
    Ok(())
}

fn put_own_if(
    alloc: Global,
    text: &mut Text,
    objects: &Objects,
    found: Option<&Object>,
) -> Result<(), AllocError>
    ensures { OnOk result (text.new
        ≡ text.old ++ option_map_or (own_text (all objects.now)) (option_copied found.entry) []) }
{
    match found {
        Some(object) => put_object(alloc, text, objects, &object.fixed.get().key),
        None => Ok(()),
    }
}
