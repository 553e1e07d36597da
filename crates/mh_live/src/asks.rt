//! What the bytes of a terminal ask for: keys, events, or the end.
//!
//! A terminal tells most keys by one byte, and the arrows by a sequence of bytes that begins with ESC (ECMA-48: a control
//! sequence begins with `ESC [` and ends with a byte from `@` to `~`; `ESC O` shifts one byte).
ghost use Rattle.std.specs.Prelude.{◌≡◌, ◌++◌, OnOk, IfOk};
ghost use Rattle.mh_live.specs.Asks as spec;

use mh_model::Key;
use mh_script::key_named;
use std::alloc::{AllocError, Global};

/// What the terminal's bytes ask for.
#[derive(Clone, Copy, PartialEq, Eq)]
pub enum Ask {
    /// A key of the remote control.
    Key(Key),
    /// An event of a stream.
    Stream,
    /// An event of the engine.
    Engine,
    /// The file of the late scene for which a transition waits.
    Scene,
    /// The next content file of those that are not there at the start.
    File,
    /// A step back: the play up to the last input.
    Back,
    /// A step forth again.
    Forth,
    /// The whole screen, drawn anew.
    Redraw,
    /// The end of the play.
    Quit,
}

/// What has begun before the next byte.
#[derive(Clone, Copy)]
pub(crate) enum Sequence {
    /// No sequence.
    Nothing,
    /// A sequence, or the key Escape.
    Escape,
    /// A control sequence.
    Control,
    /// A shift of one byte.
    Shift,
}

/// The asks in the bytes of one read, in order. What means nothing is passed over.
pub fn asks_of(alloc: Global, bytes: &[u8]) -> Result<Vec<Ask>, AllocError>
    ensures { IfOk result (λ asks. asks.items ≡ spec.asks_of bytes.now) }
{
    let mut asks = Vec::new(alloc);
    let mut begun = Sequence::Nothing;
    for byte in bytes {
        add_asked(&mut asks, begun, *byte)?;
        begun = behind(begun, *byte);
    }
    add(&mut asks, asked_at_end(begun))?;
    Ok(asks)
}

/// Adds what a byte asks for.
fn add_asked(asks: &mut Vec<Ask>, begun: Sequence, byte: u8) -> Result<(), AllocError>
    ensures { OnOk result (asks.new.items ≡ asks.old.items ++ spec.asked begun byte) }
{
    match begun {
        Sequence::Nothing => add(asks, plain_ask(byte)),
        Sequence::Escape => add_behind_escape(asks, byte),
        Sequence::Control | Sequence::Shift => add(asks, arrow_ask(byte)),
    }
}

/// Adds what a byte behind ESC asks for: where it begins no sequence, ESC was the key Escape.
fn add_behind_escape(asks: &mut Vec<Ask>, byte: u8) -> Result<(), AllocError>
    ensures { OnOk result (asks.new.items ≡ asks.old.items ++ spec.asked_behind_escape byte) }
{
    if begins(byte) {
        return Ok(());
    }
    add(asks, Some(Ask::Key(Key::Cancel)))?;
    add(asks, plain_ask(byte))
}

fn add(asks: &mut Vec<Ask>, ask: Option<Ask>) -> Result<(), AllocError>
    ensures { OnOk result (asks.new.items ≡ asks.old.items ++ spec.as_list ask) }
{
    if let Some(ask) = ask {
        asks.push(ask)?;
    }
    Ok(())
}

/// An ESC with nothing behind it is the key Escape.
fn asked_at_end(begun: Sequence) -> Option<Ask>
    ensures { result ≡ spec.asked_at_end begun }
{
    match begun {
        Sequence::Escape => Some(Ask::Key(Key::Cancel)),
        Sequence::Nothing | Sequence::Control | Sequence::Shift => None,
    }
}

/// What has begun behind a byte.
fn behind(begun: Sequence, byte: u8) -> Sequence
    ensures { result ≡ spec.behind begun byte }
{
    match begun {
        Sequence::Escape => behind_escape(byte),
        Sequence::Control if is_within(byte) => Sequence::Control,
        Sequence::Nothing | Sequence::Control | Sequence::Shift => begun_by(byte),
    }
}

fn behind_escape(byte: u8) -> Sequence
    ensures { result ≡ spec.behind_escape byte }
{
    match byte {
        b'[' => Sequence::Control,
        b'O' => Sequence::Shift,
        _ => begun_by(byte),
    }
}

fn begun_by(byte: u8) -> Sequence
    ensures { result ≡ spec.begun_by byte }
{
    if byte == 0x1b {
        Sequence::Escape
    } else {
        Sequence::Nothing
    }
}

/// Whether the byte begins a sequence behind ESC.
fn begins(byte: u8) -> bool
    ensures { result ≡ spec.begins byte }
{
    matches!(byte, b'[' | b'O')
}

/// Whether a control sequence goes on behind the byte, which is one of its parameters.
fn is_within(byte: u8) -> bool
    ensures { result ≡ spec.is_within byte }
{
    matches!(byte, b' '..=b'?')
}

/// What the last byte of a sequence asks for.
#[tactic(auto, unfolding(crate::specs::Asks::arrow_ask))]
fn arrow_ask(byte: u8) -> Option<Ask>
    ensures { result ≡ spec.arrow_ask byte }
{
    match byte {
        b'A' => Some(Ask::Key(Key::Up)),
        b'B' => Some(Ask::Key(Key::Down)),
        b'C' => Some(Ask::Key(Key::Right)),
        b'D' => Some(Ask::Key(Key::Left)),
        _ => None,
    }
}

/// What a byte asks for that stands alone.
#[tactic(auto, unfolding(crate::specs::Asks::plain_ask))]
fn plain_ask(byte: u8) -> Option<Ask>
    ensures { result ≡ spec.plain_ask byte }
{
    match byte {
        b's' => Some(Ask::Stream),
        b'e' => Some(Ask::Engine),
        // Ctrl-C is a byte where the terminal hands it on
        b'q' | 3 => Some(Ask::Quit),
        _ => other_ask(byte),
    }
}

/// What a byte asks for that is no event.
#[tactic(auto, unfolding(crate::specs::Asks::other_ask))]
fn other_ask(byte: u8) -> Option<Ask>
    ensures { result ≡ spec.other_ask byte }
{
    match byte {
        b'l' => Some(Ask::Scene),
        b'f' => Some(Ask::File),
        b'<' => Some(Ask::Back),
        b'>' => Some(Ask::Forth),
        // Ctrl-L
        12 => Some(Ask::Redraw),
        _ => key_ask(plain_key(byte)),
    }
}

fn key_ask(key: Option<Key>) -> Option<Ask>
    ensures { result ≡ spec.key_ask key }
{
    match key {
        Some(key) => Some(Ask::Key(key)),
        None => None,
    }
}

#[tactic(auto, unfolding(crate::specs::Asks::plain_key))]
fn plain_key(byte: u8) -> Option<Key>
    ensures { result ≡ spec.plain_key byte }
{
    match byte {
        b'\r' | b'\n' => Some(Key::Select),
        b'r' => Some(Key::Red),
        b'g' => Some(Key::Green),
        b'y' => Some(Key::Yellow),
        b'b' => Some(Key::Blue),
        b't' => Some(Key::Text),
        _ => digit_key(byte),
    }
}

/// A digit is the only key that a script calls by one character.
#[tactic(auto, unfolding(crate::specs::Asks::digit_key))]
fn digit_key(byte: u8) -> Option<Key>
    ensures { result ≡ spec.digit_key byte }
{
    key_named(&[byte])
}
