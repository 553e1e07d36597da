//! Scripts: what is played, a command a line.
//!
//! `read_script` answers the commands of all lines, or the number of the first line that is none. Lines on
//! scenes are left to `scene_line`, and what the commands do to `player`.
ghost use Rattle.std.specs.Prelude.{◌≡◌, ◌<◌, ◌==◌, ◌∷◌, true, false, drop, IfOk, IfErr, IfSome, OnOk, MatchOption, None, length};
ghost use Rattle.std.specs.List.{position};
ghost use Rattle.std.specs.Option.{option_copied};
ghost use Rattle.mh_script.specs.Script.{begins, lines, line_of, is_comment, plain_line, command_line, input_line, commands, first_wrong, key_named, key_line, step_line, tick_line, stream_line, engine_line, file_line, named_line, content_line, octets_of, integer_of, lines_behind, number_of, IsWrongAt};

use crate::scene_line::scene_line;
use crate::words::{integer_of, key_named, number_of, octets_of};
use mh_base::{GroupName, NameError, Seq};
use mh_codec::TagTable;
use mh_model::{File, Input};
use mh_service::Service;
use std::alloc::{AllocError, Global};
use thiserror::Error;

/// The most steps that `run` makes.
pub const RUN_LIMIT: u32 = 1_000_000;

/// One thing to do.
#[derive(Drop)]
pub enum Command {
    /// An input is posted.
    Post(Input),
    /// At most so many steps are made.
    Step(u32),
    /// The picture is printed.
    Show,
}

/// What a line of a script says.
#[derive(Drop)]
pub enum Line {
    /// It is empty or a comment.
    Skipped,
    Says(Command),
    Wrong,
}

/// Why a script could not be read.
#[derive(Clone, Copy, Debug, PartialEq, Eq, Error)]
pub enum ScriptError {
    /// The line with this number, from 1, is wrong, and no line before it is.
    #[error("line {0} of the script says nothing that can be played")]
    Wrong(usize),
    #[error("memory was refused")]
    NoMemory,
}

impl From<AllocError> for ScriptError {
    ghost use Rattle.std.specs.Prelude.{◌≡◌};
    ghost use Rattle.mh_script.specs.declared.script.ScriptError.TheVariants.{NoMemory};

    ghost from_gives = { λ _ e. e ≡ NoMemory };

    fn from(_refused: AllocError) -> ScriptError {
        ScriptError::NoMemory
    }
}

/// The commands of a script that is played on this service, with these tags of the binary notation.
pub fn read_script(
    alloc: Global,
    tags: &TagTable,
    service: &Service,
    bytes: &[u8],
) -> Result<Seq<Command>, ScriptError>
    ensures good { OnOk result (first_wrong tags.now service.now.files 1 (lines bytes.now) ≡ None) }
    ensures found { IfOk result (λ script. script ≡ commands tags.now service.now.files (lines bytes.now)) }
    ensures wrong { IfErr result (IsWrongAt tags.now service.now.files bytes.now) }
{
    let mut commands = Seq::new(alloc);
    let mut rest = Some(bytes);
    let mut number = 0;
    while let Some(text) = rest {
        let (line, behind) = first_line(text);
        number += 1;
        match line_of(alloc, tags, service, line)? {
            Line::Skipped => {}
            Line::Says(command) => commands.push(command)?,
            Line::Wrong => return Err(ScriptError::Wrong(number)),
        }
        rest = behind;
    }
    Ok(commands)
}

/// The first line, and what stands behind its end, if it has one.
fn first_line(text: &[u8]) -> (&[u8], Option<&[u8]>)
    ensures whole { lines text.now ≡ result.0.now ∷ lines_behind (option_copied result.1) }
    ensures shorter { IfSome result.1 (λ behind. length behind.now < length text.now) }
{
    match line_end(text) {
        None => (text, None),
        Some(at) => (&text[..at], Some(&text[at + 1..])),
    }
}

/// Where the first line ends, if a line feed ends it.
fn line_end(text: &[u8]) -> Option<usize>
    ensures { result ≡ position (λ b. b == 10) text.now }
{
    text.iter().position(|b| *b == b'\n')
}

/// What a line says of a play on this service.
pub fn line_of(
    alloc: Global,
    tags: &TagTable,
    service: &Service,
    line: &[u8],
) -> Result<Line, AllocError>
    ensures { IfOk result (λ said. said ≡ line_of tags.now service.now.files line.now) }
{
    if let Some(words) = behind(line, b"file ") {
        file_line(alloc, words)
    } else if let Some(words) = behind(line, b"scene ") {
        scene_line(alloc, tags, service, words)
    } else {
        Ok(plain_line(line))
    }
}

/// What stands behind this word, where a line begins with it.
fn behind<'a>(line: &'a [u8], word: &[u8]) -> Option<&'a [u8]>
    ensures { MatchOption result
        (begins word.now line.now ≡ false)
        (λ rest. (begins word.now line.now ≡ true) × (rest.now ≡ drop (length word.now) line.now)) }
{
    line.strip_prefix(word)
}

/// What a line says that holds no octets.
#[tactic(auto, unfolding(crate::specs::Script::plain_line))]
fn plain_line(line: &[u8]) -> Line
    ensures { result ≡ plain_line line.now }
{
    if is_comment(line) {
        Line::Skipped
    } else {
        command_line(line)
    }
}

/// Whether a line is empty or a comment.
fn is_comment(line: &[u8]) -> bool
    ensures { result ≡ is_comment line.now }
{
    match line {
        [] => true,
        [first, ..] => *first == b'#',
    }
}

fn command_line(line: &[u8]) -> Line
    ensures { result ≡ command_line line.now }
{
    if line == b"run".as_slice() {
        Line::Says(Command::Step(RUN_LIMIT))
    } else if line == b"show".as_slice() {
        Line::Says(Command::Show)
    } else if let Some(name) = behind(line, b"key ") {
        key_line(name)
    } else if let Some(number) = behind(line, b"step ") {
        step_line(number)
    } else {
        input_line(line)
    }
}

/// An input that holds a number.
fn input_line(line: &[u8]) -> Line
    ensures { result ≡ input_line line.now }
{
    if let Some(number) = behind(line, b"tick ") {
        tick_line(number)
    } else if let Some(number) = behind(line, b"stream ") {
        stream_line(number)
    } else if let Some(number) = behind(line, b"engine ") {
        engine_line(number)
    } else {
        Line::Wrong
    }
}

fn key_line(name: &[u8]) -> Line
    ensures { result ≡ key_line (key_named name.now) }
{
    match key_named(name) {
        Some(key) => Line::Says(Command::Post(Input::Key(key))),
        None => Line::Wrong,
    }
}

fn step_line(digits: &[u8]) -> Line
    ensures { result ≡ step_line (number_of digits.now) }
{
    match number_of(digits) {
        Some(limit) => Line::Says(Command::Step(limit)),
        None => Line::Wrong,
    }
}

fn tick_line(digits: &[u8]) -> Line
    ensures { result ≡ tick_line (number_of digits.now) }
{
    match number_of(digits) {
        Some(length) => Line::Says(Command::Post(Input::Tick(length))),
        None => Line::Wrong,
    }
}

fn stream_line(digits: &[u8]) -> Line
    ensures { result ≡ stream_line (integer_of digits.now) }
{
    match integer_of(digits) {
        Some(tag) => Line::Says(Command::Post(Input::Stream(tag))),
        None => Line::Wrong,
    }
}

fn engine_line(digits: &[u8]) -> Line
    ensures { result ≡ engine_line (integer_of digits.now) }
{
    match integer_of(digits) {
        Some(number) => Line::Says(Command::Post(Input::Engine(number))),
        None => Line::Wrong,
    }
}

/// A content file by its name and its octets: the first space stands between them.
fn file_line(alloc: Global, words: &[u8]) -> Result<Line, AllocError>
    ensures { IfOk result (λ line. line ≡ file_line words.now) }
{
    match first_space(words) {
        Some(at) => named_line(alloc, &words[..at], &words[at + 1..]),
        None => Ok(Line::Wrong),
    }
}

/// Where the first word ends, if a space ends it.
pub(crate) fn first_space(words: &[u8]) -> Option<usize>
    ensures { result ≡ position (λ b. b == 32) words.now }
{
    words.iter().position(|b| *b == b' ')
}

/// The file of this name, if it is a path.
fn named_line(alloc: Global, name: &[u8], digits: &[u8]) -> Result<Line, AllocError>
    ensures { IfOk result (λ line. line ≡ named_line name.now digits.now) }
{
    match GroupName::of_path(alloc, name) {
        Ok(name) => content_line(alloc, name, digits),
        Err(NameError::BadName) => Ok(Line::Wrong),
        Err(NameError::NoMemory) => Err(AllocError),
    }
}

fn content_line(alloc: Global, name: GroupName, digits: &[u8]) -> Result<Line, AllocError>
    ensures { IfOk result (λ line. line ≡ content_line name (octets_of digits.now)) }
{
    match octets_of(alloc, digits)? {
        Some(content) => Ok(Line::Says(Command::Post(Input::Arrive(File { name, content })))),
        None => Ok(Line::Wrong),
    }
}
