//! The search itself.
use crate::attempt::Question;
use crate::search::Search;
use crate::stimulus::Stimulus;
use crate::watcher::Watcher;
use mh_told::text::Text;
use std::alloc::{AllocError, Global};

/// A script that leads the service to the goal; none if the search finds none, or if the files make no service. It is to
/// be played before it is believed. The watcher is told of each play.
pub fn proposal<W: Watcher>(
    question: &Question<'_>,
    watcher: &mut W,
) -> Result<Option<Text>, AllocError> {
    match found(question, watcher)? {
        Some(script) => shortened(question, script),
        None => Ok(None),
    }
}

/// A script that leads to the goal, if one is found.
fn found<W: Watcher>(
    question: &Question<'_>,
    watcher: &mut W,
) -> Result<Option<Vec<Stimulus>>, AllocError> {
    let mut search = Search::new(question.alloc, question.within);
    found_by(&mut search, question, question.within.plays, watcher)
}

/// The first script that leads to the goal, of so many that the search goes through.
fn found_by<W: Watcher>(
    search: &mut Search,
    question: &Question<'_>,
    plays: u32,
    watcher: &mut W,
) -> Result<Option<Vec<Stimulus>>, AllocError> {
    for play in 0..plays {
        let Some(script) = search.next_script()? else {
            return Ok(None);
        };
        watcher.tell(play, script.len());
        let Some(outcome) = question.outcome(script.as_slice())? else {
            return Ok(None);
        };
        if outcome.is_led {
            return Ok(Some(script));
        }
        search.note(script, outcome)?;
    }
    Ok(None)
}

/// The script without the inputs that the goal does not want.
fn shortened(question: &Question<'_>, script: Vec<Stimulus>) -> Result<Option<Text>, AllocError> {
    let mut script = script;
    for place in (0..script.len()).rev() {
        let shorter = without(question.alloc, script.as_slice(), place)?;
        if leads(question, shorter.as_slice())? {
            script = shorter;
        }
    }
    question.text(script.as_slice())
}

/// The script without the input at this place.
fn without(alloc: Global, script: &[Stimulus], place: usize) -> Result<Vec<Stimulus>, AllocError> {
    let mut shorter = Vec::new(alloc);
    for (at, stimulus) in script.iter().enumerate() {
        if at != place {
            shorter.push(*stimulus)?;
        }
    }
    Ok(shorter)
}

fn leads(question: &Question<'_>, script: &[Stimulus]) -> Result<bool, AllocError> {
    match question.outcome(script)? {
        Some(outcome) => Ok(outcome.is_led),
        None => Ok(false),
    }
}
