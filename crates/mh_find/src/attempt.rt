//! A script that is tried on a service.
use crate::goal::Goal;
use crate::outcome::{Outcome, outcome_of};
use crate::stimulus::Stimulus;
use crate::trial::Trial;
use crate::within::Within;
use mh_base::GroupName;
use mh_codec::TagTable;
use mh_model::File;
use mh_told::reading::read_service;
use mh_told::text::Text;
use mh_told::unplayable::Unplayable;
use std::alloc::{AllocError, Global};

/// What is asked of a search: with what each play begins, and what a script is to lead to.
#[derive(Drop)]
pub struct Question<'a> {
    pub alloc: Global,
    /// The files of the service, with the tags of the binary notation.
    pub files: &'a [(GroupName, Vec<u8>)],
    pub tags: &'a TagTable,
    /// The group with which it begins, by its path as it was given, and the names of the scenes that come late, a name a line.
    pub start: &'a [u8],
    pub late: Option<&'a [u8]>,
    /// The content files, which are there from the start.
    pub contents: &'a [File],
    /// The modified Julian day on which the play begins.
    pub mjd: u32,
    /// What a script is to lead to.
    pub goal: &'a Goal,
    pub within: Within,
}

impl<'a> Question<'a> {
    /// What a script comes to; none where the files make no service.
    pub(crate) fn outcome(&self, script: &[Stimulus]) -> Result<Option<Outcome>, AllocError> {
        outcome_in(self.trial(), self, script)
    }

    /// The text of a script that is played; none where the files make no service.
    pub(crate) fn text(&self, script: &[Stimulus]) -> Result<Option<Text>, AllocError> {
        text_in(self.trial(), self, script)
    }

    /// A trial in which nothing was played.
    fn trial(&self) -> Result<Trial, Unplayable> {
        let service = read_service(self.alloc, self.tags, self.files, self.start, self.late)?;
        Ok(Trial::begin(self.alloc, service, self.mjd)?)
    }
}

/// What a script is played in. What is generic in it does not speak of how a machine is dropped.
trait Tries: Drop {
    /// Plays the script from the beginning, and answers what it comes to.
    fn outcome(
        &mut self,
        question: &Question<'_>,
        script: &[Stimulus],
    ) -> Result<Outcome, AllocError>;

    /// Plays the script from the beginning, and answers its text.
    fn text(&mut self, question: &Question<'_>, script: &[Stimulus]) -> Result<Text, AllocError>;
}

impl Tries for Trial {
    fn outcome(
        &mut self,
        question: &Question<'_>,
        script: &[Stimulus],
    ) -> Result<Outcome, AllocError> {
        go_through(self, question, script)?;
        outcome_of(question.alloc, self, question.goal)
    }

    fn text(&mut self, question: &Question<'_>, script: &[Stimulus]) -> Result<Text, AllocError> {
        go_through(self, question, script)?;
        self.text_of(script, question.within.steps)
    }
}

/// Plays the script in a trial in which nothing was played.
fn go_through(
    trial: &mut Trial,
    question: &Question<'_>,
    script: &[Stimulus],
) -> Result<(), AllocError> {
    trial.preset(question.contents)?;
    trial.play(script, question.within.steps)
}

fn outcome_in<T: Tries>(
    trial: Result<T, Unplayable>,
    question: &Question<'_>,
    script: &[Stimulus],
) -> Result<Option<Outcome>, AllocError> {
    match playable(trial)? {
        Some(mut trial) => Ok(Some(trial.outcome(question, script)?)),
        None => Ok(None),
    }
}

fn text_in<T: Tries>(
    trial: Result<T, Unplayable>,
    question: &Question<'_>,
    script: &[Stimulus],
) -> Result<Option<Text>, AllocError> {
    match playable(trial)? {
        Some(mut trial) => Ok(Some(trial.text(question, script)?)),
        None => Ok(None),
    }
}

/// What was made, if the files make a service.
fn playable<T: Drop>(made: Result<T, Unplayable>) -> Result<Option<T>, AllocError> {
    match made {
        Ok(made) => Ok(Some(made)),
        Err(Unplayable::NoMemory) => Err(AllocError),
        Err(_) => Ok(None),
    }
}
