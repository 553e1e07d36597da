//! The texts that are open in the editor.
use std::alloc::{AllocError, Global};

/// A text that is open: the path of its file, and what stands in it now.
#[derive(Drop)]
pub(crate) struct Document {
    pub(crate) path: Vec<u8>,
    pub(crate) text: Vec<u8>,
}

/// The texts that are open.
#[derive(Drop)]
pub(crate) struct Documents {
    list: Vec<Document>,
}

impl Documents {
    pub(crate) fn new(alloc: Global) -> Documents {
        Documents {
            list: Vec::new(alloc),
        }
    }

    pub(crate) fn as_slice(&self) -> &[Document] {
        self.list.as_slice()
    }

    pub(crate) fn text_of(&self, path: &[u8]) -> Option<&[u8]> {
        match self
            .list
            .iter()
            .find(|document| document.path.as_slice() == path)
        {
            Some(document) => Some(document.text.as_slice()),
            None => None,
        }
    }

    /// A text is opened, or stands in the place of the one that was open under this path.
    pub(crate) fn put(&mut self, path: Vec<u8>, text: Vec<u8>) -> Result<(), AllocError> {
        self.close(path.as_slice());
        self.list.push(Document { path, text })?;
        Ok(())
    }

    pub(crate) fn close(&mut self, path: &[u8]) {
        self.list.retain(|document| is_other(document, path));
    }
}

fn is_other(document: &Document, path: &[u8]) -> bool {
    document.path.as_slice() != path
}
