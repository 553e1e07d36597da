//! `Room`: what is left of the limits of a service.
//!
//! Promise: no count can overflow, however much a group writes. Which group is refused is left to
//! `refusing`.
ghost use Rattle.std.specs.Prelude.{◌≡◌, ◌≤◌, ◌-◌, SomeIff, length};
ghost use Rattle.std.specs.List.{sum_by};
ghost use Rattle.mh_service.specs.Limits.{whole_room, room_after, group_actions, object_actions, ingredient_actions, member_actions, setting_actions};

use mh_group::{Effect, Field, Ingredient, Member, Setting, Written, group};

/// The most groups of a service.
pub const MOST_GROUPS: usize = 256;

/// The most ingredients of one group.
pub const MOST_OF_GROUP: usize = 1024;

/// The most ingredients of a service.
pub const MOST_INGREDIENTS: usize = 4096;

/// The most actions that a service writes.
pub const MOST_ACTIONS: usize = 65535;

/// How many groups, ingredients and actions a service may still have.
#[derive(Clone, Copy, PartialEq, Eq)]
pub struct Room {
    pub groups: usize,
    pub ingredients: usize,
    pub actions: usize,
}

impl Room {
    /// The room of an empty service.
    pub fn whole() -> Room
        ensures { result ≡ whole_room }
    {
        Room {
            groups: MOST_GROUPS,
            ingredients: MOST_INGREDIENTS,
            actions: MOST_ACTIONS,
        }
    }

    /// What is left behind this group, or none where a limit is passed with it.
    pub fn after(self, written: &Written) -> Option<Room>
        ensures { result ≡ room_after self written.now }
    {
        let count = group::items(written).len();
        if self.groups == 0 || count > MOST_OF_GROUP || count > self.ingredients {
            return None;
        }
        let actions = behind_group(self.actions, written)?;
        Some(Room {
            groups: self.groups - 1,
            ingredients: self.ingredients - count,
            actions,
        })
    }
}

/// What is left of a room for actions behind those of a group.
fn behind_group(room: usize, written: &Written) -> Option<usize>
    ensures { SomeIff result (group_actions written.now ≤ room) (room - group_actions written.now) }
{
    let left = behind_object(room, written.fields.as_slice())?;
    behind_ingredients(left, group::items(written))
}

fn behind_ingredients(room: usize, ingredients: &[Ingredient]) -> Option<usize>
    ensures { SomeIff result (sum_by ingredient_actions ingredients.now ≤ room) (room - sum_by ingredient_actions ingredients.now) }
{
    let mut left = room;
    for ingredient in ingredients {
        left = behind_object(left, ingredient.fields.as_slice())?;
    }
    Some(left)
}

fn behind_object(room: usize, fields: &[Field]) -> Option<usize>
    ensures { SomeIff result (object_actions fields.now ≤ room) (room - object_actions fields.now) }
{
    let mut left = room;
    for field in fields {
        left = behind_setting(left, &field.setting)?;
    }
    Some(left)
}

fn behind_setting(room: usize, setting: &Setting) -> Option<usize>
    ensures { SomeIff result (setting_actions setting.now ≤ room) (room - setting_actions setting.now) }
{
    match setting {
        Setting::Effect(actions) => room.checked_sub(actions.len()),
        Setting::Members(members) => behind_members(room, members.as_slice()),
        _ => Some(room),
    }
}

fn behind_members(room: usize, members: &[Member]) -> Option<usize>
    ensures { SomeIff result (sum_by member_actions members.now ≤ room) (room - sum_by member_actions members.now) }
{
    let mut left = room;
    for member in members {
        left = behind_member(left, member)?;
    }
    Some(left)
}

fn behind_member(room: usize, member: &Member) -> Option<usize>
    ensures { SomeIff result (member_actions member.now ≤ room) (room - member_actions member.now) }
{
    behind_slots(room, member.slots.as_slice())
}

fn behind_slots(room: usize, slots: &[Effect]) -> Option<usize>
    ensures { SomeIff result (sum_by (λ slot. length slot) slots.now ≤ room) (room - sum_by (λ slot. length slot) slots.now) }
{
    let mut left = room;
    for slot in slots {
        left = left.checked_sub(slot.len())?;
    }
    Some(left)
}
