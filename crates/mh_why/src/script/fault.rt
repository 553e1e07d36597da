//! What is wrong with a line of a script that says nothing, by the command at its head.
ghost use Rattle.std.specs.Prelude.{◌≡◌, IfOk};
ghost use Rattle.std.specs.Char.{is_ascii_digit, is_ascii_hexdigit};
ghost use Rattle.std.specs.List.{list_all};
ghost use Rattle.mh_base.specs.Path.{is_path};
ghost use Rattle.mh_why.specs.ScriptFaults.{alone_fault, behind_fault, command_fault, command_of, command_word, digits_fault, file_fault, has_space, hex_fault, is_alone, key_fault, line_fault, name_fault, number_fault, octets_fault, scene_fault, taken_fault, unless_within, written_fault};

use crate::explanation::words::{behind_first, first_word, number_in};
use crate::script::forms::is_key;
use mh_base::{GroupName, NameError};
use std::alloc::{AllocError, Global};

/// The largest number of 32 bits, and of 31.
const LARGEST: u32 = 4_294_967_295;

const LARGEST_INTEGER: u32 = 2_147_483_647;

/// What a line of a script begins with.
#[derive(Clone, Copy)]
pub(crate) enum Command {
    Key,
    Tick,
    Stream,
    Engine,
    File,
    Scene,
    Step,
    Run,
    Show,
}

static COMMANDS: [Command; 9] = [
    Command::Key,
    Command::Tick,
    Command::Stream,
    Command::Engine,
    Command::File,
    Command::Scene,
    Command::Step,
    Command::Run,
    Command::Show,
];

impl Command {
    fn word(self) -> &'static [u8]
        ensures { result.now ≡ command_word self }
    {
        match self {
            Command::Key => b"key",
            Command::Tick => b"tick",
            Command::Stream => b"stream",
            Command::Engine => b"engine",
            Command::File => b"file",
            Command::Scene => b"scene",
            Command::Step => b"step",
            Command::Run => b"run",
            Command::Show => b"show",
        }
    }

    /// The command that is this word, if it is one.
    pub(crate) fn of_word(word: &[u8]) -> Option<Command>
        ensures { result ≡ command_of word.now }
    {
        COMMANDS.iter().copied().find(|x| x.word() == word)
    }
}

/// What is wrong with a line.
#[derive(Clone, Copy)]
pub(crate) enum LineFault {
    /// It begins with a space.
    SpaceInFront,
    /// Its first word is no command.
    NoCommand,
    /// Something stands behind a command that takes nothing.
    NotAlone,
    /// Nothing stands behind a command that takes something.
    NothingBehind,
    /// There are two spaces, or one stands at the end.
    SpaceTooMuch,
    NoKey,
    NoNumber,
    TooLarge,
    /// The name is no path.
    NoPath,
    /// A name stands alone.
    NoOctets,
    /// The digits of the last octet are not two.
    OddDigits,
    NoHex,
    /// The service has no group of that name.
    NoGroup,
    /// The octets write no group.
    NoScene,
    /// Nothing of all this.
    Other,
}

/// What is wrong with a line, which is given without its end.
pub(crate) fn line_fault(alloc: Global, line: &[u8]) -> Result<LineFault, AllocError>
    ensures { IfOk result (λ fault. fault ≡ line_fault line.now) }
{
    match line {
        [] => Ok(LineFault::Other),
        [b' ', ..] => Ok(LineFault::SpaceInFront),
        _ => match Command::of_word(first_word(line)) {
            Some(command) => command_fault(alloc, line, command),
            None => Ok(LineFault::NoCommand),
        },
    }
}

fn command_fault(alloc: Global, line: &[u8], command: Command) -> Result<LineFault, AllocError>
    ensures { IfOk result (λ fault. fault ≡ command_fault line.now command) }
{
    if is_alone(command) {
        return Ok(alone_fault(line));
    }
    behind_fault(alloc, behind_first(line), command)
}

/// Whether a command takes nothing.
fn is_alone(command: Command) -> bool
    ensures { result ≡ is_alone command }
{
    matches!(command, Command::Run | Command::Show)
}

fn alone_fault(line: &[u8]) -> LineFault
    ensures { result ≡ alone_fault line.now }
{
    if has_space(line) {
        LineFault::NotAlone
    } else {
        LineFault::Other
    }
}

/// What is wrong with what stands behind a command.
fn behind_fault(alloc: Global, words: &[u8], command: Command) -> Result<LineFault, AllocError>
    ensures { IfOk result (λ fault. fault ≡ behind_fault words.now command) }
{
    match words {
        [] => Ok(LineFault::NothingBehind),
        [b' ', ..] => Ok(LineFault::SpaceTooMuch),
        _ => taken_fault(alloc, words, command),
    }
}

fn taken_fault(alloc: Global, words: &[u8], command: Command) -> Result<LineFault, AllocError>
    ensures { IfOk result (λ fault. fault ≡ taken_fault words.now command) }
{
    match command {
        Command::Key => Ok(key_fault(words)),
        Command::Tick | Command::Step => Ok(number_fault(LARGEST, words)),
        Command::Stream | Command::Engine => Ok(number_fault(LARGEST_INTEGER, words)),
        Command::File => file_fault(alloc, words),
        Command::Scene => scene_fault(alloc, words),
        Command::Run | Command::Show => Ok(LineFault::NotAlone),
    }
}

fn key_fault(words: &[u8]) -> LineFault
    ensures { result ≡ key_fault words.now }
{
    if has_space(words) {
        LineFault::SpaceTooMuch
    } else {
        name_fault(words)
    }
}

fn name_fault(name: &[u8]) -> LineFault
    ensures { result ≡ name_fault name.now }
{
    if is_key(name) {
        LineFault::Other
    } else {
        LineFault::NoKey
    }
}

fn number_fault(largest: u32, words: &[u8]) -> LineFault
    ensures { result ≡ number_fault largest words.now }
{
    if has_space(words) {
        LineFault::SpaceTooMuch
    } else {
        digits_fault(largest, words)
    }
}

fn digits_fault(largest: u32, digits: &[u8]) -> LineFault
    ensures { result ≡ digits_fault largest digits.now }
{
    if are_digits(digits) {
        unless_within(largest, number_in(digits))
    } else {
        LineFault::NoNumber
    }
}

fn unless_within(largest: u32, number: Option<u32>) -> LineFault
    ensures { result ≡ unless_within largest number }
{
    match number {
        Some(number) if number <= largest => LineFault::Other,
        _ => LineFault::TooLarge,
    }
}

fn file_fault(alloc: Global, words: &[u8]) -> Result<LineFault, AllocError>
    ensures { IfOk result (λ fault. fault ≡ file_fault words.now) }
{
    octets_fault(
        alloc,
        LineFault::Other,
        first_word(words),
        behind_first(words),
    )
}

fn scene_fault(alloc: Global, words: &[u8]) -> Result<LineFault, AllocError>
    ensures { IfOk result (λ fault. fault ≡ scene_fault words.now) }
{
    if !has_space(words) {
        return Ok(LineFault::NoGroup);
    }
    octets_fault(
        alloc,
        LineFault::NoScene,
        first_word(words),
        behind_first(words),
    )
}

/// What is wrong with a name and octets; `last` where it is nothing that can be seen of them.
fn octets_fault(
    alloc: Global,
    last: LineFault,
    name: &[u8],
    digits: &[u8],
) -> Result<LineFault, AllocError>
    ensures { IfOk result (λ fault. fault ≡ octets_fault last name.now digits.now) }
{
    if digits.is_empty() {
        return Ok(LineFault::NoOctets);
    }
    if has_space(digits) {
        return Ok(LineFault::SpaceTooMuch);
    }
    hex_fault(alloc, last, name, digits)
}

fn hex_fault(
    alloc: Global,
    last: LineFault,
    name: &[u8],
    digits: &[u8],
) -> Result<LineFault, AllocError>
    ensures { IfOk result (λ fault. fault ≡ hex_fault last name.now digits.now) }
{
    if !are_hexadecimal(digits) {
        return Ok(LineFault::NoHex);
    }
    if digits.len() % 2 != 0 {
        return Ok(LineFault::OddDigits);
    }
    written_fault(alloc, last, name)
}

fn written_fault(alloc: Global, last: LineFault, name: &[u8]) -> Result<LineFault, AllocError>
    ensures { IfOk result (λ fault. fault ≡ written_fault last name.now) }
{
    match GroupName::of_path(alloc, name) {
        Ok(_) => Ok(last),
        Err(NameError::BadName) => Ok(LineFault::NoPath),
        Err(NameError::NoMemory) => Err(AllocError),
    }
}

fn has_space(bytes: &[u8]) -> bool
    ensures { result ≡ has_space bytes.now }
{
    bytes.iter().any(|byte| *byte == b' ')
}

fn are_digits(bytes: &[u8]) -> bool
    ensures { result ≡ list_all is_ascii_digit bytes.now }
{
    bytes.iter().all(|byte| byte.is_ascii_digit())
}

fn are_hexadecimal(bytes: &[u8]) -> bool
    ensures { result ≡ list_all is_ascii_hexdigit bytes.now }
{
    bytes.iter().all(|byte| byte.is_ascii_hexdigit())
}
