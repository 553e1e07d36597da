//! `Workspace`: what lies on the disk, and what is found of a service.
ghost use Rattle.std.specs.Prelude.{IfOk};

use mh_answers::File;
use mh_findings::Finding;
use std::alloc::{AllocError, Global};

/// What a folder holds.
#[derive(Drop)]
pub struct Listed {
    /// The files that could be read, in bytewise order of their paths.
    pub files: Vec<File>,
    /// What first could not be read, by its path; empty for the folder itself.
    pub unread: Option<Vec<u8>>,
}

/// What lies on the disk, and what is found of a service.
pub trait Workspace {
    ghost use Rattle.std.specs.Prelude.{ℕ, List};
    ghost use Rattle.mh_answers.specs.Objects.{Source};
    ghost use Rattle.mh_findings.specs.declared.finding.Finding.{Finding};

    /// Relates the files of a folder to what is found of them.
    ghost finds: { Self → List ℕ → List Source → List Finding → Type 0 };

    /// Whether a file lies there.
    fn has_file(&self, path: &[u8]) -> bool;

    /// What a folder holds.
    fn listed(&self, alloc: Global, folder: &[u8]) -> Result<Listed, AllocError>;

    /// What is found of the service that the files of a folder make.
    fn findings(
        &self,
        alloc: Global,
        folder: &[u8],
        files: &[File],
    ) -> Result<Vec<Finding>, AllocError>
        ensures { IfOk result (λ found. finds self.now folder.now files.now found.items) };

    /// What is found where something in a folder cannot be read.
    fn unread(&self, alloc: Global, folder: &[u8], name: &[u8]) -> Result<Finding, AllocError>;
}
