//! What is explained of one line.
ghost use Rattle.std.specs.Prelude.{◌≡◌, ◌++◌, OnOk};
ghost use Rattle.mh_why.specs.Why as spec;
ghost use Rattle.mh_why.specs.Why.{told, with_line, explained};

use crate::explanation::bound::put_bound_told;
use crate::explanation::fault::put_fault;
use crate::explanation::ground::Ground;
use crate::explanation::keyword::Keyword;
use crate::explanation::more::{put_by, put_cause, put_config, put_named};
use crate::explanation::past::Past;
use crate::explanation::place::spot::Spot;
use crate::explanation::refused::put_refused;
use crate::explanation::unread::{put_file, put_script, put_service, put_tags, put_unread};
use crate::explanation::words::{behind_first, first_word};
use crate::wrap::put_paragraph;
use mh_terminal::put_plain;
use mh_told::text::Text;
use std::alloc::{AllocError, Global};

// What stands before and between the words of a line that are told.
pub const MEMBERS_OF: &[u8] = b"the list of members of ";

pub const STANDS_IN: &[u8] = b"  It stands in ";

pub const SO_IT_IS: &[u8] = b"  So it is while application ";

pub const SHOWS_NONE: &[u8] = b" shows no scene";

pub const SHOWS_SCENE: &[u8] = b" shows scene ";

pub const THE_ACTION: &[u8] = b"  The action ";

pub const WAS_STUCK: &[u8] = b" was stuck at ";

pub const LEADS_TO: &[u8] = b"  The reference that is wrong leads to ";

pub const CIRCLE_THROUGH: &[u8] = b"  The circle goes through the effect that begins with ";

pub const COMES_BY: &[u8] = b"  It comes there by ";

pub const WRITES_IT: &[u8] = b", which writes it";

pub const HANDS_ON: &[u8] = b", which hands it on";

pub const EFFECT_WITH: &[u8] = b"  The effect that begins with ";

pub const PUTS_ITSELF: &[u8] = b", puts itself to work.";

pub const IS_BYTE: &[u8] = b"  It is byte ";

pub const OF_FILE: &[u8] = b" of the file ";

pub const TOLD_OF: &[u8] = b"  It is told of ";

pub const IS_LINE: &[u8] = b"  It is line ";

pub const IS_CONTEXT: &[u8] = b"  It is context ";

pub const CONTEXTS: &[u8] = b": 1 are classes, 2 attributes, 3 actions, 4 values.";

/// Puts what is explained of a line, behind what was told.
#[tactic(auto, unfolding(crate::specs::Why::explained))]
pub(crate) fn put_explained(
    alloc: Global,
    text: &mut Text,
    ground: &Ground<'_>,
    past: &Past<'_, '_>,
    line: &[u8],
) -> Result<(), AllocError>
    ensures { OnOk result (text.new ≡ text.old ++ explained ground.now past.now line.now) }
{
    match Keyword::of_word(first_word(line)) {
        Some(keyword) => put_with_line(alloc, text, ground, past, line, keyword),
        None => Ok(()),
    }
}

/// Puts a line that has this keyword, and below it what is told of it.
#[tactic(auto, unfolding(crate::specs::Why::with_line))]
fn put_with_line(
    alloc: Global,
    text: &mut Text,
    ground: &Ground<'_>,
    past: &Past<'_, '_>,
    line: &[u8],
    keyword: Keyword,
) -> Result<(), AllocError>
    ensures { OnOk result (text.new ≡ text.old ++ with_line ground.now past.now line.now keyword) }
{
    put_plain(text, line)?;
    text.put(b"\n")?;
    put_told(alloc, text, ground, past, keyword, behind_first(line))
}

/// Puts what is told of a line with this keyword and these words behind it.
fn put_told(
    alloc: Global,
    text: &mut Text,
    ground: &Ground<'_>,
    past: &Past<'_, '_>,
    keyword: Keyword,
    words: &[u8],
) -> Result<(), AllocError>
    ensures { OnOk result (text.new ≡ text.old ++ told ground.now past.now keyword words.now) }
{
    match keyword {
        Keyword::Accepted => put_accepted(alloc, text),
        Keyword::Start => put_bound_told(alloc, text, ground.sources, ground.ways, b"start", words),
        Keyword::Key => put_bound_told(alloc, text, ground.sources, ground.ways, b"key", words),
        Keyword::Tick => put_bound_told(alloc, text, ground.sources, ground.ways, b"tick", words),
        Keyword::Stream => put_bound_told(
            alloc,
            text,
            ground.sources,
            ground.ways,
            b"stream",
            words,
        ),
        Keyword::Engine => put_bound_told(
            alloc,
            text,
            ground.sources,
            ground.ways,
            b"engine",
            words,
        ),
        Keyword::Arrive => put_bound_told(
            alloc,
            text,
            ground.sources,
            ground.ways,
            b"arrive",
            words,
        ),
        Keyword::Refused => put_refused(alloc, text, ground, past, words),
        Keyword::Config => put_config(alloc, text, words),
        Keyword::Object => put_named(alloc, text, ground, past.refusal, words),
        Keyword::By => put_by(alloc, text, ground.sources, past, &Spot::of_words(words)),
        Keyword::Cause => put_cause(alloc, text, ground, past.cycle, &Spot::of_words(words)),
        Keyword::File => put_file(alloc, text, ground.sources, &Spot::of_words(words)),
        Keyword::Service => put_service(alloc, text, ground, words),
        Keyword::Tags => put_tags(alloc, text, ground.tags, words),
        Keyword::Script => put_script(alloc, text, ground.sources, ground.script, words),
        Keyword::Read => put_unread(alloc, text, words),
        Keyword::Fault => put_fault(alloc, text, ground.sources, words),
    }
}

#[tactic(auto, unfolding(crate::specs::Why::accepted))]
fn put_accepted(alloc: Global, text: &mut Text) -> Result<(), AllocError>
    ensures { OnOk result (text.new ≡ text.old ++ spec.accepted) }
{
    put_paragraph(
        alloc,
        text,
        b"  Nothing can go wrong, and no input leads to more steps than the line of its kind tells.",
    )
}
