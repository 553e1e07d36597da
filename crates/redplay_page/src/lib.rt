//! What a page asks for beside a picture, as functions of C: texts on a service, and a play that goes on and tells what it does.
//!
//! Promise: each call does what the call behind it does, by that one's clauses: the verdict, the report and the conversion are
//! those of `mh_report`, findings those of `mh_judged`, traces, coverages and scripts those of `mh_try`, and a play is the machine's
//! that a `Tracer` tells. It answers a text with a number, or a number that says why there is none. A handle that has no session is
//! never followed. What a caller owes (lengths, places that do not overlap, a handle that is not copied, one call at a time)
//! nothing here can see.
#![tactic(auto)]

mod cell;
mod choosing;
mod exports;
mod handle;
mod listing;
mod obeying;
mod opening;
mod reporting;
mod session;
mod showing;
mod standing;
mod told;
mod trying;
