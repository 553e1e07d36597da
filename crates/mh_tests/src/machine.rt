//! Services and the machine that plays them: objects, programs, files, and what is seen.

pub(crate) mod display;
pub(crate) mod engine;
pub(crate) mod files;
pub(crate) mod live;
pub(crate) mod objects;
pub(crate) mod presets;
pub(crate) mod receiver;
pub(crate) mod service;
