//! What scripts cover of a service.
ghost use Rattle.std.specs.Prelude.{◌≡◌, IfOk, map};
ghost use Rattle.mh_told.specs.Reading.{Gives};
ghost use Rattle.mh_trace.specs.Cover.{cover_text, covered_by};
ghost use Rattle.mh_try.specs.Directory.{directory_of as written_in};
ghost use Rattle.mh_try.specs.Tried as spec;

use crate::directory::directory_of;
use crate::tried::{Chosen, Play, bytes_of, played, service_of};
use mh_base::GroupName;
use mh_codec::TagTable;
use mh_service::Service;
use mh_told::tags::table_of;
use mh_told::text::Text;
use mh_told::unplayable::Unplayable;
use mh_trace::{Covered, Tracer};
use std::alloc::{AllocError, Global};

/// What scripts cover of the service of these files; `tap` as test harnesses read it.
#[tactic(auto, unfolding(crate::specs::Tried::cover_read))]
pub fn cover_of(
    alloc: Global,
    files: &[(GroupName, Vec<u8>)],
    scripts: &[Vec<u8>],
    chosen: &Chosen,
    tap: bool,
) -> Result<Text, Unplayable>
    ensures { Gives (λ text. text) result
        (spec.cover_read tap chosen.now files.now (map (λ script. script.items) scripts.now)) }
{
    let tags = table_of(alloc, bytes_of(&chosen.tags))?;
    let covered = cover_all(alloc, &tags, files, scripts, chosen, Covered::new(alloc))?;
    let service = service_of(alloc, &tags, files, chosen)?;
    let text = cover_text(alloc, files, &service, &covered, tap)?;
    Ok(text)
}

/// The lines on what was covered of the service of these files.
fn cover_text(
    alloc: Global,
    files: &[(GroupName, Vec<u8>)],
    service: &Service,
    covered: &Covered,
    tap: bool,
) -> Result<Text, AllocError>
    ensures { IfOk result (λ text. text ≡ cover_text tap (written_in files.now) covered.now service.now) }
{
    let directory = directory_of(alloc, files)?;
    covered.text(alloc, service, &directory, tap)
}

/// What was covered before, with what each script does and enters.
fn cover_all(
    alloc: Global,
    tags: &TagTable,
    files: &[(GroupName, Vec<u8>)],
    scripts: &[Vec<u8>],
    chosen: &Chosen,
    before: Covered,
) -> Result<Covered, Unplayable>
    ensures { let texts = map (λ script. script.items) scripts.now in
        Gives (λ covered. covered) result (spec.cover_all chosen.now files.now tags.now texts before) }
{
    let mut covered = before;
    for script in scripts {
        covered = cover_one(alloc, tags, files, script.as_slice(), chosen, covered)?;
    }
    Ok(covered)
}

#[tactic(auto, unfolding(crate::specs::Tried::cover_one))]
fn cover_one(
    alloc: Global,
    tags: &TagTable,
    files: &[(GroupName, Vec<u8>)],
    script: &[u8],
    chosen: &Chosen,
    before: Covered,
) -> Result<Covered, Unplayable>
    ensures { Gives (λ covered. covered) result (spec.cover_one chosen.now files.now tags.now script.now before) }
{
    let played = played(alloc, tags, files, script, chosen)?;
    let covered = covered_in(played, before)?;
    Ok(covered)
}

/// What was covered before, with what this play has done and entered.
fn covered_in(played: Play, before: Covered) -> Result<Covered, AllocError>
    ensures { IfOk result (λ covered. covered ≡ covered_by played.tracer before) }
{
    let covered = with_trace(before, &played.tracer);
    drop(played);
    covered
}

/// What was covered before, with what this trace has done and entered.
fn with_trace(before: Covered, tracer: &Tracer) -> Result<Covered, AllocError>
    ensures { IfOk result (λ covered. covered ≡ covered_by tracer.now before) }
{
    let mut covered = before;
    covered.add(tracer)?;
    Ok(covered)
}
