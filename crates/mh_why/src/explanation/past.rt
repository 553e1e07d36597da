//! What was told before a line, and what is still to come.
use mh_flow::Link;
use mh_layers::Arrow;
use std::marker::Model;

/// What was told before a line, and what is still to come.
#[derive(Drop)]
pub(crate) struct Past<'t, 'g> {
    /// The words behind the last `refused`.
    pub(crate) refusal: &'t [u8],
    /// The line before.
    pub(crate) before: &'t [u8],
    /// The links of the chain that are still to come, where it is known.
    pub(crate) chain: &'g [Link],
    /// The effects of the circle that are still to come, where it is known.
    pub(crate) cycle: &'g [Arrow],
    /// The lines of the script of which the output does not tell yet, where it is known.
    pub(crate) script: &'g [u8],
}

impl<'t, 'g> Model for Past<'t, 'g> {
    ghost use Rattle.mh_why.specs.Why.{Past};

    ghost Value = { Past };

    ghost view = { λ p. record { refusal = p.refusal.now; before = p.before.now; chain = p.chain.now; cycle = p.cycle.now; script = p.script.now } };
}
