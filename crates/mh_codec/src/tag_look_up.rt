//! Look-ups by a tag. Where a table says of a tag what the profile says, nothing is searched.
ghost use Rattle.std.specs.Prelude.{◌≡◌, Some, IfSome, option_and_then, slice_get};
ghost use Rattle.mh_codec.specs.Tags.{class_with, attribute_with, action_with, value_kind_with};

use crate::tag_table::TagTable;
use mh_base::{KINDS, Kind};
use mh_group::action_name::ALL as ACTIONS;
use mh_group::attribute::ALL as ATTRIBUTES;
use mh_group::class::ALL as CLASSES;
use mh_group::{ActionName, Attribute, Class};

impl TagTable {
    /// The class whose elements have this tag, if there is one.
    #[tactic(auto, unfolding(crate::specs::Tags::class_with))]
    pub(crate) fn class_with(&self, tag: u16) -> Option<Class>
        ensures { result ≡ class_with self.now tag }
    {
        if let Some(class) = self.class_as_in_profile(tag) {
            return Some(class);
        }
        CLASSES
            .iter()
            .copied()
            .find(|class| self.class_tag(*class) == tag)
    }

    /// The class that has the tag in the profile, where it has it here too. It saves the search.
    fn class_as_in_profile(&self, tag: u16) -> Option<Class>
        ensures { IfSome result (λ c. Some c ≡ class_with self.now tag) }
    {
        self.reveal_table();
        let class = at_place(&CLASSES, Some(tag))?;
        if self.class_tag(class) == tag {
            Some(class)
        } else {
            None
        }
    }

    /// The attribute whose elements have this tag, if there is one.
    #[tactic(auto, unfolding(crate::specs::Tags::attribute_with))]
    pub(crate) fn attribute_with(&self, tag: u16) -> Option<Attribute>
        ensures { result ≡ attribute_with self.now tag }
    {
        if let Some(attribute) = self.attribute_as_in_profile(tag) {
            return Some(attribute);
        }
        ATTRIBUTES
            .iter()
            .copied()
            .find(|attribute| self.attribute_tag(*attribute) == tag)
    }

    /// The attribute that has the tag in the profile, where it has it here too.
    fn attribute_as_in_profile(&self, tag: u16) -> Option<Attribute>
        ensures { IfSome result (λ a. Some a ≡ attribute_with self.now tag) }
    {
        self.reveal_table();
        let attribute = at_place(&ATTRIBUTES, tag.checked_sub(1))?;
        if self.attribute_tag(attribute) == tag {
            Some(attribute)
        } else {
            None
        }
    }

    /// The action whose elements have this tag, if there is one.
    #[tactic(auto, unfolding(crate::specs::Tags::action_with))]
    pub(crate) fn action_with(&self, tag: u16) -> Option<ActionName>
        ensures { result ≡ action_with self.now tag }
    {
        if let Some(action) = self.action_as_in_profile(tag) {
            return Some(action);
        }
        ACTIONS
            .iter()
            .copied()
            .find(|action| self.action_tag(*action) == tag)
    }

    /// The action that has the tag in the profile, where it has it here too.
    fn action_as_in_profile(&self, tag: u16) -> Option<ActionName>
        ensures { IfSome result (λ a. Some a ≡ action_with self.now tag) }
    {
        self.reveal_table();
        let action = at_place(&ACTIONS, tag.checked_sub(100))?;
        if self.action_tag(action) == tag {
            Some(action)
        } else {
            None
        }
    }

    /// The kind of the values that stand behind this tag, if there is one.
    #[tactic(auto, unfolding(crate::specs::Tags::value_kind_with))]
    pub(crate) fn value_kind_with(&self, tag: u16) -> Option<Kind>
        ensures { result ≡ value_kind_with self.now tag }
    {
        KINDS
            .iter()
            .copied()
            .find(|kind| self.value_tag(*kind) == tag)
    }
}

/// What stands at this place of the table. It is lent the table, since proofs beside a constant array are dear.
fn at_place<T: Copy>(table: &[T], place: Option<u16>) -> Option<T>
    ensures { result ≡ option_and_then (slice_get table.now) place }
{
    table.get(usize::from(place?)).copied()
}
