//! Scripts as an author is told of them: lines that say nothing, and lines that were refused.

pub(crate) mod fault;
pub(crate) mod forms;
pub(crate) mod line;
pub(crate) mod posts;
pub(crate) mod refusals;
