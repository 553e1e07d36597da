//! By which numbers a line of a script can be refused when it is posted, and of which lines the output
//! tells.
ghost use Rattle.std.specs.Prelude.{◌≡◌};
ghost use Rattle.mh_why.specs.Posts.{can_be_refused, is_bad_tick, is_of_any, is_of_file, is_of_scene, is_of_tick, is_refused_length, is_stop, is_told, refuses};

use crate::explanation::words::{behind_first, first_word, number_in};
use crate::numbers::{
    CLOCK_FULL, DIFFERS, ENDED, NOT_LATE, QUEUE_FULL, TICK_RANGE, TOO_LARGE, TOO_MANY,
};
use crate::script::fault::Command;
use mh_model::LONGEST_TICK;

/// Whether the output has a line of what this one does.
pub(crate) fn is_stop(line: &[u8]) -> bool
    ensures { result ≡ is_stop line.now }
{
    match Command::of_word(first_word(line)) {
        Some(command) => is_told(command),
        None => false,
    }
}

fn is_told(command: Command) -> bool
    ensures { result ≡ is_told command }
{
    matches!(command, Command::Step | Command::Run | Command::Show)
}

/// Whether a line of a script can be refused by this number.
pub(crate) fn can_be_refused(number: &[u8], line: &[u8]) -> bool
    ensures { result ≡ can_be_refused number.now line.now }
{
    match Command::of_word(first_word(line)) {
        Some(command) => refuses(number, behind_first(line), command),
        None => false,
    }
}

fn refuses(number: &[u8], words: &[u8], command: Command) -> bool
    ensures { result ≡ refuses number.now words.now command }
{
    match command {
        Command::Key | Command::Stream | Command::Engine => is_of_any(number),
        Command::Tick => is_of_any(number) || is_of_tick(number, words),
        Command::File => is_of_any(number) || is_of_file(number),
        Command::Scene => is_of_any(number) || is_of_scene(number),
        Command::Step | Command::Run | Command::Show => false,
    }
}

fn is_of_any(number: &[u8]) -> bool
    ensures { result ≡ is_of_any number.now }
{
    number == QUEUE_FULL || number == ENDED
}

fn is_of_tick(number: &[u8], words: &[u8]) -> bool
    ensures { result ≡ is_of_tick number.now words.now }
{
    if number == CLOCK_FULL {
        return true;
    }
    number == TICK_RANGE && is_bad_tick(words)
}

fn is_of_file(number: &[u8]) -> bool
    ensures { result ≡ is_of_file number.now }
{
    number == TOO_LARGE || number == TOO_MANY
}

fn is_of_scene(number: &[u8]) -> bool
    ensures { result ≡ is_of_scene number.now }
{
    number == NOT_LATE || number == DIFFERS
}

/// Whether these digits write the length of a tick that is refused.
fn is_bad_tick(words: &[u8]) -> bool
    ensures { result ≡ is_bad_tick words.now }
{
    match number_in(words) {
        Some(length) => is_refused_length(length),
        None => false,
    }
}

fn is_refused_length(length: u32) -> bool
    ensures { result ≡ is_refused_length length }
{
    length == 0 || length > LONGEST_TICK
}
