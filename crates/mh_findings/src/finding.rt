//! What is found of a service: how grave it is, where it stands, what is wrong, and how it is mended.
use crate::words::Words;
use mh_base::Seq;
use mh_places::Span;

/// How grave a finding is.
#[derive(Clone, Copy)]
pub enum Grade {
    /// It is not read: a file, or what the files make together.
    Unread,
    /// The verifier refuses it.
    Refused,
    /// A machine could not do it.
    Fault,
    /// It happens in no run.
    Never,
    /// It seems to be a mistake.
    Note,
}

/// A span in a file.
#[derive(Drop)]
pub struct Site {
    /// The path of the file, as the caller gave it.
    pub file: Words,
    /// What of the file is meant. Where nothing in it is, it is empty, at the beginning.
    pub span: Span,
}

/// A place that has to do with a finding, as the object that is named.
#[derive(Drop)]
pub struct Related {
    pub at: Site,
    /// What stands there.
    pub what: Words,
}

/// Something that is found.
#[derive(Drop)]
pub struct Finding {
    pub grade: Grade,
    /// The number of a refusal, or the name of a rule.
    pub rule: Words,
    pub at: Site,
    /// What is wrong, or what never happens.
    pub what: Words,
    /// How it is mended, if that is known.
    pub mend: Option<Words>,
    pub related: Seq<Related>,
}
