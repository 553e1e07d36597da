//! The laws of sealed services, over the definitions alone. A receiver may begin while the files of late scenes are
//! not there: a stub, a group with its class alone, stands for each. The seal of the service tells of each scene's
//! file that comes whether it is the service's own; one that is takes the place of its stub, and one that is not is
//! refused. Then the play is that of the whole service, which was accepted where all files were there: no fault, the
//! same steps and the same picture. A seal that goes by digests is right unless two groups with one digest are met.
//!
//! Promise: each public function is a law, its one clause or clauses; none of them does anything. They speak of
//! runs without programs of the receiver's own. `SealedEngine` of `mh_engine` plays so.
#![tactic(auto)]

pub mod law;
