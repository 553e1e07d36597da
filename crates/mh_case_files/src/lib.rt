//! Files of cases: what programs are given, and what they write then, word for word.
//!
//! A file of cases is UTF-8 text. A line that begins with two blanks belongs to the head above it; every other line is
//! a head, a comment (`#`) or empty. The heads:
//!
//! - `case TITLE` begins a case; what follows belongs to it.
//! - `file NAME`: a file of the service, with the lines under it; `octets NAME`: one that is written in hexadecimal.
//! - `script`, `late`, `tags`, `output`: what the options of these names give to each call of the case, with the lines
//!   under it; `output` is what `redplay` printed, which `redlook why` explains.
//! - `call WORDS`: the command line of a call, without the folder, the file and the options above; `''` is the
//!   empty word.
//! - `lines WORD`, behind a call: only those lines of its answer count that hold the word.
//! - `want STATUS`, behind a call: its exit status, and what it writes, with the lines under it; `want STATUS octets`:
//!   the same in hexadecimal.
//! - `given NAME`: what follows, up to the next case, is shared by the cases that say `with NAME`.
//!
//! A line under a head writes itself, without the two blanks, and a line feed. `\` and two hexadecimal digits write an
//! octet. `\` at the end of a line takes away the line feed and the blanks at the front of the next line. `\*N` and a
//! blank in front of a line write it N times, `\*FIRST-LAST` once for each number from the first to the last, and `\#` in
//! it is the number of the turn.
//!
//! Only programs of tests call this crate: nothing is promised of it but that it is safe and ends.
#![tactic(auto)]

mod block;
mod case;
mod comparing;
mod fault;
mod reader;
mod suite;
mod telling;
mod written;

pub use case::{Answer, Call, Case, File, Material};
pub use fault::Fault;
pub use reader::cases_of;
pub use suite::{Player, play_all};
