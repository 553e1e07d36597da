//! What a text is made of: the objects that it defines, its colours, and what its brackets hold.
ghost use Rattle.std.specs.Prelude.{◌≡◌, [], IfOk, OnOk};
ghost use Rattle.mh_edit.specs.Outline as spec;

use crate::walk::{Role, Spot};
use crate::word::Word;
use mh_group::Class;
use mh_text::TokenKind;
use std::alloc::{AllocError, Global};
use std::marker::Model;

/// An object that is defined.
#[derive(Clone, Copy)]
pub struct Outlined {
    pub class: Class,
    pub number: u32,
    pub spot: Spot,
}

/// The objects that a text defines, in the order in which they stand there.
pub fn outline_of(alloc: Global, spots: &[Spot]) -> Result<Vec<Outlined>, AllocError>
    ensures { IfOk result (λ found. found.items ≡ spec.outline spots.now) }
{
    let mut found = Vec::new(alloc);
    for spot in spots {
        if let Some(object) = object_at(spot) {
            found.push(object)?;
        }
    }
    Ok(found)
}

#[tactic(auto, unfolding(crate::specs::Outline::outlined))]
fn object_at(spot: &Spot) -> Option<Outlined>
    ensures { result ≡ spec.outlined spot.now }
{
    match (spot.class, spot.role) {
        (Some(class), Role::Defines(number)) => Some(Outlined {
            class,
            number,
            spot: *spot,
        }),
        _ => None,
    }
}

/// Two brackets that belong together: the offset of each.
#[derive(Clone, Copy)]
pub struct Pair {
    pub start: usize,
    pub end: usize,
}

/// The brackets of a text that belong together, in the order in which they close.
pub fn pairs_of(alloc: Global, words: &[Word]) -> Result<Vec<Pair>, AllocError>
    ensures { IfOk result (λ found. found.items ≡ spec.pairs words.now) }
{
    let mut found = Vec::new(alloc);
    let mut opens = Opens::new(alloc);
    for word in words {
        let bracket = bracket_of(word.kind);
        if let Some(pair) = pair_at(bracket, word.at.start, &opens) {
            found.push(pair)?;
        }
        opens.note(bracket, word.at.start)?;
    }
    Ok(found)
}

/// The pair that a bracket closes behind those that are open.
fn pair_at(bracket: Bracket, start: usize, opens: &Opens) -> Option<Pair>
    ensures { result ≡ spec.pair_at bracket start opens.now }
{
    match (bracket, opens.last()) {
        (Bracket::Closes, Some(open)) => Some(Pair {
            start: open,
            end: start,
        }),
        _ => None,
    }
}

/// The brackets that are open: the offset of each. A contract sees the last one first.
#[derive(Drop)]
struct Opens {
    offsets: Vec<usize>,
}

impl Model for Opens {
    ghost use Rattle.std.specs.Prelude.{ℕ, List, reverse};

    ghost Value = { List ℕ };

    ghost view = { λ o. reverse o.offsets.items };
}

impl Opens {
    fn new(alloc: Global) -> Opens
        ensures { result ≡ [] }
    {
        Opens {
            offsets: Vec::new(alloc),
        }
    }

    fn last(&self) -> Option<usize>
        ensures { result ≡ spec.first_of self.now }
    {
        self.offsets.last().copied()
    }

    /// What is open behind a bracket.
    fn note(&mut self, bracket: Bracket, start: usize) -> Result<(), AllocError>
        ensures { OnOk result (self.new ≡ spec.opens_behind bracket start self.old) }
    {
        match bracket {
            Bracket::Opens => self.offsets.push(start)?,
            Bracket::Closes => {
                self.offsets.pop();
            }
            Bracket::Neither => {}
        }
        Ok(())
    }
}

/// What a token is as a bracket.
#[derive(Clone, Copy)]
enum Bracket {
    Opens,
    Closes,
    Neither,
}

fn bracket_of(kind: TokenKind) -> Bracket
    ensures { result ≡ spec.bracket_of kind }
{
    match kind {
        TokenKind::OpenBrace | TokenKind::OpenParenthesis => Bracket::Opens,
        TokenKind::CloseBrace | TokenKind::CloseParenthesis => Bracket::Closes,
        _ => Bracket::Neither,
    }
}
