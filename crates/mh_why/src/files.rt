//! Files: those of a service, and those that the command line names.

pub(crate) mod named_file;
pub(crate) mod shown;
