//! `Search`: which scripts are still to be tried, and which states were seen.
use crate::entry::Entry;
use crate::outcome::Outcome;
use crate::stimulus::Stimulus;
use crate::within::Within;
use std::alloc::{AllocError, Global};
use std::collections::{BTreeMap, BTreeSet, VecDeque};

/// A search: the scripts that are still to be tried, and the states that were seen. States in which something new
/// runs or is referred to, and all others, wait in two queues that are served in turn, so that counters and clocks
/// keep nobody from going through the scenes of a service.
#[derive(Drop)]
pub struct Search {
    alloc: Global,
    within: Within,
    /// Whether the script without inputs was tried.
    begun: bool,
    current: Entry,
    first: VecDeque<Entry>,
    second: VecDeque<Entry>,
    /// Whether the second queue is served next.
    turned: bool,
    outlines: BTreeSet<u64>,
    /// The states that were seen, each with the fewest inputs that led there.
    states: BTreeMap<u64, usize>,
}

impl Search {
    pub fn new(alloc: Global, within: Within) -> Search {
        Search {
            alloc,
            within,
            begun: false,
            current: Entry::new(Vec::new(alloc), Vec::new(alloc)),
            first: VecDeque::new(alloc),
            second: VecDeque::new(alloc),
            turned: false,
            outlines: BTreeSet::new(alloc),
            states: BTreeMap::new(alloc),
        }
    }

    /// The script that is tried next, if one is left.
    pub fn next_script(&mut self) -> Result<Option<Vec<Stimulus>>, AllocError> {
        if !self.begun {
            self.begun = true;
            return Ok(Some(Vec::new(self.alloc)));
        }
        if self.current.is_done()
            && let Some(entry) = self.pop()
        {
            self.current = entry;
        }
        self.current.next_longer(self.alloc)
    }

    /// The first of the queue whose turn it is, or of the other.
    fn pop(&mut self) -> Option<Entry> {
        self.turned = !self.turned;
        if self.turned {
            either(self.first.pop_front(), &mut self.second)
        } else {
            either(self.second.pop_front(), &mut self.first)
        }
    }

    /// Notes what a script has come to without a fault, so that it is gone on with where that is new.
    pub fn note(&mut self, script: Vec<Stimulus>, outcome: Outcome) -> Result<(), AllocError> {
        if script.len() >= self.within.inputs as usize || !outcome.goes_on {
            return Ok(());
        }
        let view = outcome.view;
        if self.is_known(view.whole, script.len()) {
            return Ok(());
        }
        self.states.insert(view.whole, script.len())?;
        let is_new = self.outlines.insert(view.outline)?;
        self.push(Entry::new(script, outcome.heard), is_new)
    }

    /// Whether the state was seen behind no more inputs.
    fn is_known(&self, state: u64, inputs: usize) -> bool {
        match self.states.get(&state) {
            Some(before) => *before <= inputs,
            None => false,
        }
    }

    fn push(&mut self, entry: Entry, is_new: bool) -> Result<(), AllocError> {
        if entry.is_done() {
            return Ok(());
        }
        if is_new {
            self.first.push_back(entry)?;
        } else {
            self.second.push_back(entry)?;
        }
        Ok(())
    }
}

/// The entry, or else the first of the queue.
fn either(entry: Option<Entry>, queue: &mut VecDeque<Entry>) -> Option<Entry> {
    match entry {
        Some(entry) => Some(entry),
        None => queue.pop_front(),
    }
}
