//! `Told`: a text, and the number that is answered with it.
ghost use Rattle.std.specs.Prelude.{◌≡◌, ℕ, List, Result as Answer, Err, IfOk, IsOkAnd};
ghost use Rattle.mh_verdict.specs.Lines.{complaint};
ghost use Rattle.mh_report.specs.Report.{exit_code};
ghost use Rattle.redplay_page.specs.Told.{IsGiven};
ghost use Rattle.mh_told.specs.declared.unplayable.Unplayable.{Unplayable as Unread};
ghost use Rattle.mh_told.specs.Reading.{Gives};

use mh_report::{ListSink, PlayError, Status};
use mh_told::text::Text;
use mh_told::unplayable::Unplayable;
use mh_verdict::complaint_text;
use std::alloc::{AllocError, Global};

/// What is answered with a text that could be told.
pub const DONE: u32 = 0;
/// What is answered where a search found nothing.
pub const NOTHING: u32 = 1;
/// What is answered with the line on what cannot be read.
pub const UNREAD: u32 = 2;

/// A text, and the number that is answered with it: the exit status of the program that prints it.
#[derive(Drop)]
pub struct Told {
    pub bytes: Vec<u8>,
    pub number: u32,
}

/// These bytes with this number.
pub fn numbered(alloc: Global, bytes: &[u8], number: u32) -> Result<Told, AllocError>
    ensures text { IfOk result (λ told. told.bytes.items ≡ bytes.now) }
    ensures number { IfOk result (λ told. told.number ≡ number) }
{
    let bytes = Vec::from_slice(alloc, bytes)?;
    Ok(Told { bytes, number })
}

/// What a report has written, and how it ended.
pub fn ended(written: Result<Status, PlayError>, sink: ListSink) -> Result<Told, AllocError>
    ensures same { IfOk result (λ told. told.bytes.items ≡ sink.bytes.items) }
    ensures number { IfOk result (λ told. IsOkAnd written (λ how. told.number ≡ exit_code how)) }
{
    match written {
        Ok(status) => Ok(Told {
            bytes: sink.bytes,
            number: u32::from(status.code()),
        }),
        Err(_) => Err(AllocError),
    }
}

/// A text that was given, or the line on what cannot be read.
#[tactic(auto, using(crate::proofs::ToldLemmas::given_so))]
pub fn given(alloc: Global, made: Result<Text, Unplayable>) -> Result<Told, AllocError>
    ensures { (r : Answer (List ℕ) Unread) → Gives (λ text. text) made r →
        IfOk result (λ told. IsGiven r told.bytes.items told.number) }
{
    match made {
        Ok(text) => numbered(alloc, text.as_slice(), DONE),
        Err(why) => complained(alloc, &why),
    }
}

/// The line on what cannot be read; nothing where memory was refused.
#[tactic(auto, using(crate::proofs::ToldLemmas::ungiven_so))]
pub fn complained(alloc: Global, why: &Unplayable) -> Result<Told, AllocError>
    ensures line { (r : Answer (List ℕ) Unread) → Gives (λ (text : List ℕ). text) (Err why.now) r →
        IfOk result (λ told. IsGiven r told.bytes.items told.number) }
    ensures number { IfOk result (λ told. told.number ≡ 2) }
{
    match why {
        Unplayable::NoMemory => Err(AllocError),
        _ => complaint(alloc, why),
    }
}

fn complaint(alloc: Global, why: &Unplayable) -> Result<Told, AllocError>
    ensures text { IfOk result (λ told. told.bytes.items ≡ complaint why.now) }
    ensures number { IfOk result (λ told. told.number ≡ 2) }
{
    let text = complaint_text(alloc, why)?;
    numbered(alloc, text.as_slice(), UNREAD)
}
