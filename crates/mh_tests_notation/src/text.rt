//! The textual notation: where reading goes wrong, what begins a group, and the tokens.
use crate::cases::all_hold;
use crate::text_forms::{FILL, ITEMS, START_UP, reading_within};
use mh_cases::{Question, behind, placed, refusal, said, word};
use mh_text::{TextError, TokenKind, Tokens, begins_group, read_group};
use std::alloc::Global;

/// The number and the offset of the refusal, if there is one, behind so many bytes.
pub fn reading(alloc: Global, text: &[u8], before: usize) -> Option<Vec<u8>> {
    match refusal(alloc, text) {
        (0, _) => said(alloc, b"read"),
        (number, offset) => placed(alloc, number, offset.checked_sub(before)?),
    }
}

/// What is said of a text that was cut off, where it is not refused within itself wherever it was cut, or
/// of all.
fn reading_of_cut(alloc: Global, text: &[u8]) -> Option<Vec<u8>> {
    for end in 0..text.len() {
        let (number, offset) = refusal(alloc, &text[..end]);
        if number < 20 || 23 < number || end < offset {
            return placed(alloc, 0, end);
        }
    }
    reading(alloc, text, 0)
}

/// What is said of a text, of what it begins, of one that was cut off, of an ingredient, an action or a
/// colour.
pub struct Written;

impl Question for Written {
    fn answer(alloc: Global, asked: &str, bytes: &[u8]) -> Option<Vec<u8>> {
        let text = behind(asked, bytes)?;
        match word(asked, 0) {
            "text" => reading(alloc, text, 0),
            "begins" if begins_group(text) => said(alloc, b"group"),
            "begins" => said(alloc, b"other"),
            "cut" => reading_of_cut(alloc, text),
            "object" => reading_within(alloc, &ITEMS, text),
            "action" => reading_within(alloc, &START_UP, text),
            "colour" => reading_within(alloc, &FILL, text),
            _ => None,
        }
    }
}

/// Texts. Those that are refused stand with the number and the offset.
static TEXTS: &str = r#"
text {:Application ("~/a" 0) } => read;; text {:Application ("~/a" 0) :Items ( ) } => read;;
text {:Scene ("~/a" 0) :InputEventReg -2147483648 } => read;;
text // a comment| { // another\0d\:Scene|:Application ("~/a" 0) } => read;;
text {:Application("~/a"0)}// no line's end => read;;
text {:Application ("~/a" -0) :OnStartUp() :Items() } => read;;
text {:Scene ("~/a" 000) :InputEventReg -007 } => read;;
text {:Scene ("~/a" 0) :InputEventReg//|5 } => read;; text {:Application ("~/a" 0) => 21 23;;
text {:Applicatoin ("~/a" 0) } => 22 1;; text {:Application ("~/a => 20 15;;
text {:Application ("~/a" 0) :OnStartUp ( ( ( => 21 37;;
text {:Scene ("~/a" 0) :InputEventReg 2147483648 } => 23 33;;
text {:Scene ("~/a" 0) :InputEventReg 3 :InputEventReg 3 } => 21 35;;
text {:Scene ("~/a" 0) :InputEventReg 5-5 } => 21 34;;
text {:Scene ("~/a" 0) :InputEventReg 3:SceneCS 720 576 } => 21 34;;
text {:Scene ("~/a" 0) :SceneCS 576 720 } => 23 27;;
text {:Scene ("~/a" 0) :InputEventReg -2147483649 } => 23 33;; text {:Scene ("~/a" 1) } => 23 15;;
text {:Scene ("~/a" 0) :OrigValue 1 } => 21 18;;
text {:Application ("~/a" 0) :Items ( {:Rectangle 1 } ) } => 21 47;;
text {:Application ("~/a" 0) :Items ( {:Rectangle 0 } ) } => 23 45;;
text {:Application ("~/a" 0) } { => 21 26;; text  => 21 0;;
text {:Application ('~/a' 0) } => 21 15;;
text {:Application ("~/a" 0) :Items ( ) :Items ( ) } => 21 35;;
text {:Application ("~/a" 0) } / => 20 26;; text {:Scene ("~/a" 0) :InputEventReg -5-5 } => 21 35;;
text {:Scene ("~/a" 0) :InputEventReg-5 } => 21 32;;
text {:Scene ("~/a" 0) :InputEventReg true5 } => 21 33;;
text {:Scene ("~/a" 0) :InputEventReg True } => 22 33;;
text {:Scene ("~/a" 0) :InputEventReg 3 \ff\ } => 20 35"#;

#[test]
fn reads_and_refuses(rt: HostRuntime) {
    all_hold::<Written>(&rt, rt.alloc(), TEXTS);
}

static CUT: &str = r#"
cut {:Application ("~/a" 0) :OnStartUp ( :TransitionTo (("~/s" 0)) ) }
=> read;;
cut {:Scene ("~/s" 0) :InputEventReg 3 :SceneCS 720 576 :Items ( {:Rectangle 10 :OrigBoxSize 24 32
:OrigPosition 12 16 :OrigLineWidth 0 :OrigRefFillColour '=FF=00=00=00' } {:Link 11 :EventSource 0
:EventType UserInput :EventData 100 :LinkEffect ( :SetPosition (10 24 16) ) } ) }
=> read"#;

#[test]
fn refuses_what_is_cut_off(rt: HostRuntime) {
    all_hold::<Written>(&rt, rt.alloc(), CUT);
}

static BEGINNINGS: &str = r#"
begins {: => group;; begins  // {| { // x| : => group;; begins { Scene => other;;
begins // {: => other;; begins text => other;; begins  => other"#;

#[test]
fn tells_groups_from_content(rt: HostRuntime) {
    all_hold::<Written>(&rt, rt.alloc(), BEGINNINGS);
}

/// The tokens of ` {:Ab1 x// c`, and `-7` behind a line feed.
static TOKENS: [(TokenKind, usize, &[u8]); 4] = [
    (TokenKind::OpenBrace, 1, b"{"),
    (TokenKind::Keyword, 2, b":Ab1"),
    (TokenKind::Word, 7, b"x"),
    (TokenKind::Integer, 13, b"-7"),
];

fn is_next(tokens: &mut Tokens<'_>, kind: TokenKind, start: usize, text: &[u8]) -> bool {
    match tokens.next() {
        Ok(Some(token)) => token.kind == kind && token.start == start && token.text == text,
        _ => false,
    }
}

#[test]
fn gives_tokens_as_slices(rt: HostRuntime) {
    let mut tokens = Tokens::new(b" {:Ab1 x// c\n-7");
    for (kind, start, text) in &TOKENS {
        assert!(rt; is_next(&mut tokens, *kind, *start, *text), "at {start}");
    }
    assert!(rt; matches!(tokens.next(), Ok(None)));
}
