//! What the words of `lint` and `check` ask for.
//!
//! Promise: each function answers what the definition of its name in `specs/CommandLine` says.
ghost use Rattle.std.specs.Prelude.{◌≡◌};
ghost use Rattle.std.specs.List.{find, list_any};
ghost use Rattle.std.specs.Str.{bytes_eq};
ghost use Rattle.clap.specs.Words.{found_of, rows_of};
ghost use Rattle.mh_command.specs.Values.{named_in};
ghost use Rattle.mh_look.specs.CommandLine.{explained_as, looked_as, said};
ghost use Rattle.mh_look.specs.CommandLine as spec;

use crate::command_line::arguments::MOST_REFUSALS;
use crate::command_line::{Check, Explain, Lint, Task};
use clap::ArgMatches;
use mh_command::source_of;
use mh_command::values::{is_set, number_of, text_of};
use mh_lint::{Allowed, Asked, RULES, Rule};
use mh_misread::is_like;

/// What is looked for in a service.
pub(crate) fn linting<'a>(given: &ArgMatches<'a>) -> Task<'a>
    ensures { said result ≡ spec.linting (rows_of (found_of given.now)) }
{
    Task::Lint(looking(given))
}

/// What is looked for, and in which form it is told.
pub(crate) fn checking<'a>(given: &ArgMatches<'a>) -> Task<'a>
    ensures { said result ≡ spec.checking (rows_of (found_of given.now)) }
{
    Task::Check(Check {
        lint: looking(given),
        format: text_of(given, "format"),
        most: number_of(given, "most", MOST_REFUSALS) as usize,
    })
}

fn looking<'a>(given: &ArgMatches<'a>) -> Lint<'a>
    ensures { looked_as result ≡ spec.looking (rows_of (found_of given.now)) }
{
    let asked = Asked {
        all: is_set(given, "all"),
        allowed: allowed(given),
    };
    Lint {
        service: service_of(given),
        asked,
        unknown: unknown(given),
    }
}

/// The service that is looked at: nothing was printed of it, and no script is known.
fn service_of<'a>(given: &ArgMatches<'a>) -> Explain<'a>
    ensures { explained_as result ≡ spec.service_of (rows_of (found_of given.now)) }
{
    let (output, script) = (None, None);
    Explain {
        output,
        source: source_of(given),
        script,
        costs: false,
        color: text_of(given, "color"),
    }
}

/// The rules that are turned off.
fn allowed(given: &ArgMatches<'_>) -> Allowed
    ensures { result ≡ spec.allowed (rows_of (found_of given.now)) }
{
    Allowed {
        editor_backup: allows(given, Rule::EditorBackup),
        identifier_differs: allows(given, Rule::IdentifierDiffers),
        unknown_rule: allows(given, Rule::UnknownRule),
        start_leads_away: allows(given, Rule::StartLeadsAway),
        not_shared: allows(given, Rule::NotShared),
        no_actions: allows(given, Rule::NoActions),
        behind_transition: allows(given, Rule::BehindTransition),
        division_by_zero: allows(given, Rule::DivisionByZero),
        negative_size: allows(given, Rule::NegativeSize),
        colour_octets: allows(given, Rule::ColourOctets),
        unheard_timer: allows(given, Rule::UnheardTimer),
        locked_for_ever: allows(given, Rule::LockedForEver),
        unread_variable: allows(given, Rule::UnreadVariable),
        no_interaction: allows(given, Rule::NoInteraction),
        off_screen: allows(given, Rule::OffScreen),
        covers_no_cell: allows(given, Rule::CoversNoCell),
        cut_text: allows(given, Rule::CutText),
        text_in_its_colour: allows(given, Rule::TextInItsColour),
        bare_line_feeds: allows(given, Rule::BareLineFeeds),
        named_alike: allows(given, Rule::NamedAlike),
        content_to_come: allows(given, Rule::ContentToCome),
    }
}

/// Whether this rule is among those that are named.
fn allows(given: &ArgMatches<'_>, rule: Rule) -> bool
    ensures { result ≡ spec.allows (rows_of (found_of given.now)) rule }
{
    match given.get_strs("allow") {
        Some(names) => is_among(names, rule.word()),
        None => false,
    }
}

fn is_among(names: &[&str], word: &[u8]) -> bool
    ensures { result ≡ list_any (λ name. bytes_eq name.now word.now) names.now }
{
    names.iter().any(|name| name.as_bytes() == word)
}

/// The first name that no rule has.
fn unknown<'a>(given: &ArgMatches<'a>) -> Option<&'a str>
    ensures { named_in result ≡ spec.unknown (rows_of (found_of given.now)) }
{
    match given.get_strs("allow") {
        Some(names) => first_unknown(names),
        None => None,
    }
}

fn first_unknown<'a>(names: &[&'a str]) -> Option<&'a str>
    ensures { result ≡ find (λ name. spec.is_no_rule name.now) names.now }
{
    names.iter().copied().find(|name| is_no_rule(*name))
}

fn is_no_rule(name: &str) -> bool
    ensures { result ≡ spec.is_no_rule name.now }
{
    Rule::of_word(name.as_bytes()).is_none()
}

/// The rule whose name so many changes make of this one.
fn like_rule(changes: usize, name: &[u8]) -> Option<Rule>
    ensures { result ≡ spec.like_rule changes name.now }
{
    RULES
        .iter()
        .copied()
        .find(|rule| is_like(changes, name, rule.word()))
}

/// The rule that is meant by a name, if one is like it.
pub(crate) fn near_rule(name: &[u8]) -> Option<Rule>
    ensures { result ≡ spec.near_rule name.now }
{
    if let Some(rule) = like_rule(1, name) {
        return Some(rule);
    }
    match like_rule(2, name) {
        Some(rule) => Some(rule),
        None => like_rule(3, name),
    }
}
