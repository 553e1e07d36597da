//! `Entry`: a script that was played, and the inputs with which it is to be gone on with.
use crate::stimulus::Stimulus;
use std::alloc::{AllocError, Global};

/// A script that was played, and the inputs with which it is still to be gone on with, the next one last.
#[derive(Drop)]
pub struct Entry {
    script: Vec<Stimulus>,
    inputs: Vec<Stimulus>,
}

impl Entry {
    pub fn new(script: Vec<Stimulus>, inputs: Vec<Stimulus>) -> Entry {
        Entry { script, inputs }
    }

    /// Whether no input is left.
    pub fn is_done(&self) -> bool {
        self.inputs.is_empty()
    }

    /// The script with the next input behind it, if one is left.
    pub fn next_longer(&mut self, alloc: Global) -> Result<Option<Vec<Stimulus>>, AllocError> {
        let Some(input) = self.inputs.pop() else {
            return Ok(None);
        };
        let mut script = Vec::from_slice(alloc, self.script.as_slice())?;
        script.push(input)?;
        Ok(Some(script))
    }
}
