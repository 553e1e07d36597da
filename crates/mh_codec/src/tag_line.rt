//! One of the lines that name tags: which name of which context gets which tag.
ghost use Rattle.std.specs.Prelude.{◌≡◌, ◌==◌, ◌+◌, true, false, drop, MatchOption, length};
ghost use Rattle.std.specs.List.{find, position};
ghost use Rattle.std.specs.Option.{option_map};
ghost use Rattle.std.specs.Str.{bytes_eq};
ghost use Rattle.mh_group.specs.Words.{class_word, classes, attribute_word, attributes, action_word, actions};
ghost use Rattle.mh_group.specs.Table.{class_number, attribute_number, action_number};
ghost use Rattle.mh_codec.specs.TagLines.{begins, line_of, is_comment, naming_line, in_context, naming, number_named, value_word, value_numbers, decimal, with_digit, context_number};

use mh_group::{ActionName, Attribute, Class};

/// Where tags are told apart.
#[derive(Clone, Copy)]
pub(crate) enum TagContext {
    Class,
    Attribute,
    Action,
    Value,
}

/// A tag for a number of a context.
#[derive(Clone, Copy)]
pub(crate) struct NamedTag {
    pub context: TagContext,
    pub number: u32,
    pub tag: u16,
}

/// What a line says.
#[derive(Clone, Copy)]
pub(crate) enum TagLine {
    Skipped,
    Names(NamedTag),
    Wrong,
}

/// The numbers of the tags around values in the profile.
const VALUES: [u32; 7] = [60, 61, 62, 63, 64, 65, 66];

impl TagContext {
    pub(crate) fn number(self) -> u32
        ensures { result ≡ context_number self }
    {
        match self {
            TagContext::Class => 1,
            TagContext::Attribute => 2,
            TagContext::Action => 3,
            TagContext::Value => 4,
        }
    }
}

/// What a line says.
#[tactic(auto, unfolding(crate::specs::TagLines::line_of))]
pub(crate) fn line_of(line: &[u8]) -> TagLine
    ensures { result ≡ line_of line.now }
{
    if is_comment(line) {
        TagLine::Skipped
    } else {
        naming_line(line)
    }
}

fn is_comment(line: &[u8]) -> bool
    ensures { result ≡ is_comment line.now }
{
    match line {
        [] => true,
        [first, ..] => *first == b'#',
    }
}

fn naming_line(line: &[u8]) -> TagLine
    ensures { result ≡ naming_line line.now }
{
    if let Some(words) = behind(line, b"class ") {
        in_context(TagContext::Class, words)
    } else if let Some(words) = behind(line, b"attr ") {
        in_context(TagContext::Attribute, words)
    } else if let Some(words) = behind(line, b"action ") {
        in_context(TagContext::Action, words)
    } else if let Some(words) = behind(line, b"value ") {
        in_context(TagContext::Value, words)
    } else {
        TagLine::Wrong
    }
}

/// What stands behind the word, where the line begins with it.
fn behind<'a>(line: &'a [u8], word: &[u8]) -> Option<&'a [u8]>
    ensures { MatchOption result
        (begins word.now line.now ≡ false)
        (λ rest. (begins word.now line.now ≡ true) × (rest.now ≡ drop (length word.now) line.now)) }
{
    line.strip_prefix(word)
}

/// A name and the digits of its tag.
fn in_context(context: TagContext, words: &[u8]) -> TagLine
    ensures { result ≡ in_context context words.now }
{
    match first_space(words) {
        Some(at) => naming(context, &words[..at], &words[at + 1..]),
        None => TagLine::Wrong,
    }
}

fn first_space(words: &[u8]) -> Option<usize>
    ensures { result ≡ position (λ b. b == 32) words.now }
{
    words.iter().position(|b| *b == b' ')
}

fn naming(context: TagContext, name: &[u8], digits: &[u8]) -> TagLine
    ensures { result ≡ naming context (number_named context name.now) (decimal digits.now) }
{
    match (number_named(context, name), decimal(digits)) {
        (Some(number), Some(tag)) => TagLine::Names(NamedTag {
            context,
            number,
            tag,
        }),
        _ => TagLine::Wrong,
    }
}

/// The number that has this name in the context.
fn number_named(context: TagContext, name: &[u8]) -> Option<u32>
    ensures { result ≡ number_named context name.now }
{
    match context {
        TagContext::Class => class_named(name),
        TagContext::Attribute => attribute_named(name),
        TagContext::Action => action_named(name),
        TagContext::Value => value_named(name),
    }
}

fn class_named(name: &[u8]) -> Option<u32>
    ensures { result ≡ option_map class_number (find (λ x. bytes_eq (class_word x) name.now) classes) }
{
    match Class::of_word(name) {
        Some(class) => Some(class.number()),
        None => None,
    }
}

fn attribute_named(name: &[u8]) -> Option<u32>
    ensures { result ≡ option_map attribute_number (find (λ x. bytes_eq (attribute_word x) name.now) attributes) }
{
    match Attribute::of_word(name) {
        Some(attribute) => Some(attribute.number()),
        None => None,
    }
}

fn action_named(name: &[u8]) -> Option<u32>
    ensures { result ≡ option_map (λ a. 100 + action_number a) (find (λ x. bytes_eq (action_word x) name.now) actions) }
{
    match ActionName::of_word(name) {
        Some(action) => Some(tag_number(action)),
        None => None,
    }
}

/// The number of an action's tag in the profile.
fn tag_number(action: ActionName) -> u32
    ensures { result ≡ 100 + action_number action }
{
    100 + action.number()
}

fn value_named(name: &[u8]) -> Option<u32>
    ensures { result ≡ find (λ n. bytes_eq (value_word n) name.now) value_numbers }
{
    VALUES
        .iter()
        .copied()
        .find(|number| value_word(*number) == name)
}

/// The word of the tag around values that has this number in the profile.
#[tactic(auto, unfolding(crate::specs::TagLines::value_word))]
fn value_word(number: u32) -> &'static [u8]
    ensures { result.now ≡ value_word number }
{
    match number {
        60 => b"ContentRef",
        61 => b"IndirectRef",
        62 => b"GBoolean",
        63 => b"GInteger",
        64 => b"GOctetString",
        65 => b"GObjectRef",
        _ => b"GContentRef",
    }
}

/// The tag that decimal digits write, if there are digits and a tag can have the number.
fn decimal(digits: &[u8]) -> Option<u16>
    ensures { result ≡ decimal digits.now }
{
    if digits.is_empty() {
        return None;
    }
    let mut number = 0;
    for digit in digits {
        match with_digit(number, *digit) {
            Some(longer) => number = longer,
            None => return None,
        }
    }
    Some(number)
}

fn with_digit(number: u16, digit: u8) -> Option<u16>
    ensures { result ≡ with_digit number digit }
{
    if !digit.is_ascii_digit() {
        return None;
    }
    let longer = u32::from(number) * 10 + u32::from(digit - b'0');
    if longer <= 65535 {
        Some(longer as u16)
    } else {
        None
    }
}
