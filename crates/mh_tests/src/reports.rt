//! Reports and conversions: sources and sinks that fail, memory that is refused, and the engine as another program takes it
//! in.

pub(crate) mod advancing;
pub(crate) mod calls;
pub(crate) mod cutting_sink;
pub(crate) mod cutting_source;
pub(crate) mod embedding;
pub(crate) mod hostile;
pub(crate) mod notations;
pub(crate) mod refusing;
pub(crate) mod sinks;
pub(crate) mod tables;
