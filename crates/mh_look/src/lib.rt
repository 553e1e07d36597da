//! What `redplay` prints, turned into something to look at: a report is read back, shown in a terminal,
//! made a page or an image, or held against another, and a verdict is explained by `mh_why`; all as the
//! command line of `redlook` asks for it.
//!
//! Promise: a report is read exactly where the bytes are the printed form of one, and what is made of
//! it is exactly what is defined for it. What went wrong with the words is left to the program to tell.
#![tactic(auto)]

mod command_line;
mod comparison;
mod doing;
mod image;
mod page;
mod report;
mod show;
mod source;

pub use command_line::{Check, Explain, Lint, Task, line_of};
pub use comparison::difference::{Difference, changed_cells, compare, first_difference};
pub use comparison::telling::told;
pub use comparison::{Comparison, compared};
pub use doing::answering::{Answer, Read, answer_of};
pub use doing::checking::{format_named, list_of};
pub use doing::{Outcome, run_task};
pub use image::checksum::{Adler, Crc};
pub use image::font::is_inked;
pub use image::image_of;
pub use page::escape::put_escaped;
pub use page::page_of;
pub use report::characters::read_characters;
pub use report::frames::frame_at;
pub use report::number::{read_colour, read_number};
pub use report::{Part, ReadError, Report, read_report};
pub use show::put_report;
pub use source::Failure;
