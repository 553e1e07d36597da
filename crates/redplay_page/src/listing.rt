//! What is found of a service, as objects that other programs read.
ghost use Rattle.std.specs.Prelude.{◌≡◌, IfOk, IsErrOf, false};
ghost use Rattle.mh_crossing.specs.Files.{have_paths};
ghost use Rattle.mh_crossing.specs.Rooms.{AreMeant};
ghost use Rattle.redplay_page.specs.Findings.{AreFindings, asked_for, lines_of, none_allowed};

use crate::told::{DONE, Told, numbered};
use mh_base::{GroupName, NameError};
use mh_crossing::{Source, owned_files};
use mh_findings::{Finding, Format, put_findings};
use mh_judged::findings_on;
use mh_lint::{Allowed, Asked};
use mh_told::text::Text;
use std::alloc::{AllocError, Global};

/// How many refusals are told at most, as `redlook check` tells them where it is not asked for more.
const MOST: usize = 20;

/// What is found of the files that are handed in, which lie in a folder of this name.
#[tactic(auto, using(mh_crossing::proofs::RoomLemmas::meant_so))]
pub fn listed(
    alloc: Global,
    sources: &[Source],
    folder: &[u8],
    start: &[u8],
    late: &[u8],
    all: bool,
) -> Result<Told, NameError>
    ensures told { IfOk result (λ told. AreMeant (AreFindings folder.now start.now late.now all) sources.now told.bytes.items told.number) }
    ensures bad { IsErrOf result NameError.BadName → have_paths sources.now ≡ false }
{
    match owned_files(alloc, sources) {
        Ok(files) => match listed_of(alloc, files.as_slice(), folder, start, late, all) {
            Ok(told) => Ok(told),
            Err(_) => Err(NameError::NoMemory),
        },
        Err(why) => Err(why),
    }
}

#[tactic(auto, using(crate::proofs::FindingLemmas::found_so))]
fn listed_of(
    alloc: Global,
    files: &[(GroupName, Vec<u8>)],
    folder: &[u8],
    start: &[u8],
    late: &[u8],
    all: bool,
) -> Result<Told, AllocError>
    ensures { IfOk result (λ told. AreFindings folder.now start.now late.now all files.now told.bytes.items told.number) }
{
    let found = findings_on(
        alloc,
        &[],
        None,
        folder,
        files,
        start,
        Some(late),
        asked_for(all),
        MOST,
    )?;
    lines_of(alloc, found.as_slice())
}

/// An object for each of these, a line each.
fn lines_of(alloc: Global, found: &[Finding]) -> Result<Told, AllocError>
    ensures text { IfOk result (λ told. told.bytes.items ≡ lines_of found.now) }
    ensures number { IfOk result (λ told. told.number ≡ 0) }
{
    let mut text = Text::new(alloc);
    put_findings(alloc, &mut text, Format::Json, found)?;
    numbered(alloc, text.as_slice(), DONE)
}

/// All rules, and with `all` what follows from other findings.
fn asked_for(all: bool) -> Asked
    ensures { result ≡ asked_for all }
{
    Asked {
        all,
        allowed: none_allowed(),
    }
}

/// No rule is turned off: what a service turns off is said in its files.
fn none_allowed() -> Allowed
    ensures { result ≡ none_allowed }
{
    Allowed {
        editor_backup: false,
        identifier_differs: false,
        unknown_rule: false,
        start_leads_away: false,
        not_shared: false,
        no_actions: false,
        behind_transition: false,
        division_by_zero: false,
        negative_size: false,
        colour_octets: false,
        unheard_timer: false,
        locked_for_ever: false,
        unread_variable: false,
        no_interaction: false,
        off_screen: false,
        covers_no_cell: false,
        cut_text: false,
        text_in_its_colour: false,
        bare_line_feeds: false,
        named_alike: false,
        content_to_come: false,
    }
}
