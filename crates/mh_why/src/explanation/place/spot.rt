//! What a line names: an action of an object, or the object alone.
ghost use Rattle.std.specs.Prelude.{◌≡◌, ◌++◌, OnOk};
ghost use Rattle.mh_why.specs.Sources.{by_numbers, shown_refused};
ghost use Rattle.mh_why.specs.Spots.{spot, object_words, action_words};
ghost use Rattle.mh_why.specs.Why.{shown_spot};

use crate::explanation::place::marked::put_refused;
use crate::explanation::place::put_action;
use crate::explanation::words::{before_last, last_word, number_in};
use crate::files::shown::Source;
use mh_cause::Detail;
use mh_told::text::Text;
use std::alloc::{AllocError, Global};
use std::marker::Model;

/// What a line names: a group, and two numbers behind it.
#[derive(Drop)]
pub(crate) struct Spot<'a> {
    group: &'a [u8],
    /// Mostly the number of an object.
    object: &'a [u8],
    /// Mostly the number of an action.
    index: &'a [u8],
}

impl<'a> Model for Spot<'a> {
    ghost use Rattle.mh_why.specs.Spots.{Spot};

    ghost Value = { Spot };

    ghost view = { λ s. record { group = s.group.now; object = s.object.now; index = s.index.now } };
}

impl<'a> Spot<'a> {
    /// What the words name.
    pub(crate) fn of_words(words: &'a [u8]) -> Spot<'a>
        ensures { result ≡ spot words.now }
    {
        let front = before_last(words);
        Spot {
            group: before_last(front),
            object: last_word(front),
            index: last_word(words),
        }
    }

    pub(crate) fn group(&self) -> &'a [u8]
        ensures { result.now ≡ self.now.group }
    {
        self.group
    }

    pub(crate) fn object(&self) -> &'a [u8]
        ensures { result.now ≡ self.now.object }
    {
        self.object
    }

    pub(crate) fn index(&self) -> &'a [u8]
        ensures { result.now ≡ self.now.index }
    {
        self.index
    }

    /// Puts the object by its group and its number.
    pub(crate) fn put_object(&self, text: &mut Text) -> Result<(), AllocError>
        ensures { OnOk result (text.new ≡ text.old ++ object_words self.now.group self.now.object) }
    {
        put_object(text, self.group, self.object)
    }

    /// Puts the action by its object and its number.
    #[tactic(auto, unfolding(crate::specs::Spots::action_words))]
    pub(crate) fn put_action(&self, text: &mut Text) -> Result<(), AllocError>
        ensures { OnOk result (text.new ≡ text.old ++ action_words self.now) }
    {
        text.put(b"action ")?;
        text.put(self.index)?;
        text.put(b" of ")?;
        self.put_object(text)
    }

    /// Puts where the action or the members stand.
    pub(crate) fn put_shown(
        &self,
        alloc: Global,
        text: &mut Text,
        sources: &[Source<'_>],
    ) -> Result<(), AllocError>
        ensures { OnOk result (text.new ≡ text.old ++ shown_spot sources.now self.now) }
    {
        let Some(object) = number_in(self.object) else {
            return Ok(());
        };
        match number_in(self.index) {
            Some(index) => put_action(alloc, text, sources, self.group, object, index as usize),
            None => Ok(()),
        }
    }

    /// The same of the action of this name, and the part of it that is wrong.
    pub(crate) fn put_refused(
        &self,
        alloc: Global,
        text: &mut Text,
        sources: &[Source<'_>],
        word: &[u8],
        detail: Detail,
    ) -> Result<(), AllocError>
        ensures { OnOk result (text.new ≡ text.old ++ by_numbers (shown_refused sources.now word.now detail self.now.group) self.now.object self.now.index) }
    {
        let Some(object) = number_in(self.object) else {
            return Ok(());
        };
        match number_in(self.index) {
            Some(index) => {
                put_refused(
                    alloc,
                    text,
                    sources,
                    word,
                    detail,
                    self.group,
                    object,
                    index as usize,
                )
            }
            None => Ok(()),
        }
    }
}

/// Puts an object by its group and its number.
#[tactic(auto, unfolding(crate::specs::Spots::object_words))]
pub(crate) fn put_object(text: &mut Text, group: &[u8], number: &[u8]) -> Result<(), AllocError>
    ensures { OnOk result (text.new ≡ text.old ++ object_words group.now number.now) }
{
    text.put(b"object ")?;
    text.put(number)?;
    text.put(b" of ")?;
    text.put(group)
}
