//! What is known beside an output, with what is shown of the files.
use crate::files::named_file::NamedFile;
use crate::files::shown::Source;
use mh_cause::Detail;
use mh_flow::Link;
use mh_layers::{Arrow, Way};
use std::marker::Model;

/// What is known beside an output.
#[derive(Drop)]
pub(crate) struct Ground<'a> {
    pub(crate) sources: &'a [Source<'a>],
    /// The dearest ways of the inputs; where they are not known, none.
    pub(crate) ways: &'a [Way],
    /// The links of the chain of a refusal; where they are not known, none.
    pub(crate) chain: &'a [Link],
    /// The effects of the circle of a refusal; where they are not known, none.
    pub(crate) cycle: &'a [Arrow],
    /// The cause of a refusal by its case, and the mend; where the case is not known, nothing.
    pub(crate) cause: &'a [u8],
    pub(crate) mend: &'a [u8],
    /// Which part of the action is wrong.
    pub(crate) detail: Detail,
    /// The file that names late scenes, if it is known.
    pub(crate) late: Option<&'a NamedFile<'a>>,
    /// The file that gives tags, if it is known.
    pub(crate) tags: Option<&'a NamedFile<'a>>,
    /// The script that was played, if it is known.
    pub(crate) script: Option<&'a NamedFile<'a>>,
}

impl<'a> Model for Ground<'a> {
    ghost use Rattle.std.specs.Option.{option_copied};
    ghost use Rattle.mh_why.specs.Why.{Ground};

    ghost Value = { Ground };

    ghost view = { λ g. record { sources = g.sources.now; ways = g.ways.now; chain = g.chain.now; cycle = g.cycle.now; cause = g.cause.now; mend = g.mend.now; detail = g.detail; late = option_copied g.late; tags = option_copied g.tags; script = option_copied g.script } };
}
