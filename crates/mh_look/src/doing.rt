//! What is done for each subcommand: a report is read whole, and then what is asked for is written.

pub mod answering;
pub mod checking;
pub(crate) mod explaining;
pub(crate) mod linting;

use crate::command_line::Task;
use crate::comparison::compared;
use crate::doing::checking::run_check;
use crate::doing::explaining::run_why;
use crate::doing::linting::run_lint;
use crate::image::image_of;
use crate::page::page_of;
use crate::report::frames::frame_at;
use crate::report::{Part, Report};
use crate::show::put_report;
use crate::source::{Failure, output_of, report_of, unwritable};
use mh_exit::Exit;
use mh_model::Picture;
use mh_terminal::put_frame;
use mh_told::text::Text;
use std::alloc::{AllocError, Global};
use std::io::Write;
use std::rt::Runtime;
use std::{fs, io};

/// What came of a task that was done.
#[derive(Clone, Copy)]
pub enum Outcome {
    /// What is asked for is written.
    Written,
    /// It is written, and says that two reports differ.
    Different,
    /// It is written why a service is refused.
    Refused,
    /// It is written what of a service cannot be read.
    Unread,
    /// It is written what is found of an accepted service.
    Found,
}

impl Outcome {
    /// How the program ends that tells so.
    pub fn exit(self) -> Exit {
        match self {
            Outcome::Written => Exit::Good,
            Outcome::Different | Outcome::Refused | Outcome::Found => Exit::Otherwise,
            Outcome::Unread => Exit::Unreadable,
        }
    }
}

/// Does a task, and answers what came of it. Whether a terminal reads what is written is told by the caller.
pub fn run_task<R: Runtime + AllocGlobal>(
    rt: &R,
    task: &Task,
    is_terminal: bool,
) -> Result<Outcome, Failure> {
    match task {
        Task::Show {
            report,
            frame,
            plain,
        } => run_show(rt, report, *frame, *plain),
        Task::Page { report, script } => run_page(rt, report, *script),
        Task::Image {
            report,
            frame,
            folder,
        } => run_draw(rt, report, *frame, *folder),
        Task::Diff {
            first,
            second,
            lines,
        } => run_diff(rt, first, second, *lines),
        Task::Why(asked) => run_why(rt, asked, is_terminal),
        Task::Lint(wanted) => run_lint(rt, wanted, is_terminal),
        Task::Check(wanted) => run_check(rt, wanted, is_terminal),
    }
}

fn run_show<R: Runtime + AllocGlobal>(
    rt: &R,
    name: &str,
    frame: Option<u64>,
    plain: bool,
) -> Result<Outcome, Failure> {
    let report = report_of(rt, name)?;
    show_report(rt, &report, frame, plain)
}

/// Writes the report, or one frame of it.
fn show_report<R: Runtime + AllocGlobal>(
    rt: &R,
    report: &Report,
    frame: Option<u64>,
    plain: bool,
) -> Result<Outcome, Failure> {
    let mut text = Text::new(rt.alloc());
    match frame {
        Some(number) => {
            let picture = picture_of(report, number)?;
            put_frame(&mut text, number, picture, plain)?;
        }
        None => put_report(&mut text, report, plain)?,
    }
    write_text(rt, &text, Outcome::Written)
}

fn run_page<R: Runtime + AllocGlobal>(
    rt: &R,
    name: &str,
    script: Option<&str>,
) -> Result<Outcome, Failure> {
    let report = report_of(rt, name)?;
    write_page(rt, &report, script)
}

/// Writes the page of a report, the script being read where one is named.
fn write_page<R: Runtime + AllocGlobal>(
    rt: &R,
    report: &Report,
    script: Option<&str>,
) -> Result<Outcome, Failure> {
    let script = match script {
        Some(name) => output_of(rt, name)?,
        None => Vec::new(rt.alloc()),
    };
    let page = page_of(rt.alloc(), report, script.as_slice())?;
    write_text(rt, &page, Outcome::Written)
}

/// Writes a frame as an image, or all frames into a folder.
fn run_draw<R: Runtime + AllocGlobal>(
    rt: &R,
    name: &str,
    frame: Option<u64>,
    folder: Option<&str>,
) -> Result<Outcome, Failure> {
    let report = report_of(rt, name)?;
    draw_report(rt, &report, frame, folder, name)
}

fn draw_report<R: Runtime + AllocGlobal>(
    rt: &R,
    report: &Report,
    frame: Option<u64>,
    folder: Option<&str>,
    name: &str,
) -> Result<Outcome, Failure> {
    match folder {
        Some(folder) => write_images(rt, report, frame, folder, name),
        None => write_image(rt, report, frame.ok_or(Failure::NoFolder)?),
    }
}

/// Writes the image of a frame to standard output.
fn write_image<R: Runtime + AllocGlobal>(
    rt: &R,
    report: &Report,
    number: u64,
) -> Result<Outcome, Failure> {
    let file = image_of(rt.alloc(), picture_of(report, number)?)?;
    write_text(rt, &file, Outcome::Written)
}

/// Writes the images of a frame, or of all frames, into a folder, which is made if it is not there.
fn write_images<R: Runtime + AllocGlobal>(
    rt: &R,
    report: &Report,
    frame: Option<u64>,
    folder: &str,
    name: &str,
) -> Result<Outcome, Failure> {
    if let Err(error) = fs::create_dir_all(rt, folder) {
        return Err(unwritable(rt.alloc(), &error, folder));
    }
    match frame {
        Some(number) => put_image(rt, picture_of(report, number)?, folder, name, number)?,
        None => put_images(rt, report, folder, name)?,
    }
    Ok(Outcome::Written)
}

fn put_images<R: Runtime + AllocGlobal>(
    rt: &R,
    report: &Report,
    folder: &str,
    name: &str,
) -> Result<(), Failure> {
    let mut number: u64 = 0;
    for part in &report.parts {
        if let Part::Frame(picture) = part {
            number = number.saturating_add(1);
            put_image(rt, picture, folder, name, number)?;
        }
    }
    Ok(())
}

fn put_image<R: Runtime + AllocGlobal>(
    rt: &R,
    picture: &Picture,
    folder: &str,
    name: &str,
    number: u64,
) -> Result<(), Failure> {
    let file = image_of(rt.alloc(), picture)?;
    let path = image_path(rt.alloc(), folder, name, number)?;
    match fs::write(rt, path.as_str(), file.as_slice()) {
        Ok(()) => Ok(()),
        Err(error) => Err(unwritable(rt.alloc(), &error, path.as_str())),
    }
}

/// The path of the image of a frame: in the folder, under the name of the report's file.
fn image_path(
    alloc: Global,
    folder: &str,
    report: &str,
    number: u64,
) -> Result<String, AllocError> {
    let name = match report.rsplit_once('/') {
        Some((_, name)) => name,
        None if report == "-" => "report",
        None => report,
    };
    format!(in alloc; "{folder}/{name}-{number}.png")
}

/// Writes what is said of two reports.
fn run_diff<R: Runtime + AllocGlobal>(
    rt: &R,
    first: &str,
    second: &str,
    lines: bool,
) -> Result<Outcome, Failure> {
    let first = report_of(rt, first)?;
    compare_with(rt, &first, second, lines)
}

fn compare_with<R: Runtime + AllocGlobal>(
    rt: &R,
    first: &Report,
    second: &str,
    lines: bool,
) -> Result<Outcome, Failure> {
    let second = report_of(rt, second)?;
    write_comparison(rt, first, &second, lines)
}

fn write_comparison<R: Runtime + AllocGlobal>(
    rt: &R,
    first: &Report,
    second: &Report,
    lines: bool,
) -> Result<Outcome, Failure> {
    let comparison = compared(rt.alloc(), first, second, lines)?;
    let outcome = if comparison.differs {
        Outcome::Different
    } else {
        Outcome::Written
    };
    write_text(rt, &comparison.text, outcome)
}

/// The picture of the frame with this number.
fn picture_of(report: &Report, number: u64) -> Result<&Picture, Failure> {
    frame_at(report.parts.as_slice(), number).ok_or(Failure::NoFrame(number))
}

/// Writes the text to standard output, and answers what came of it.
pub(crate) fn write_text<R: Runtime>(
    rt: &R,
    text: &Text,
    outcome: Outcome,
) -> Result<Outcome, Failure> {
    let mut output = io::writer(rt);
    output.write_all(text.as_slice())?;
    output.flush()?;
    Ok(outcome)
}
