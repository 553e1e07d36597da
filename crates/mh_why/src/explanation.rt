//! Why `redplay` refuses a service, and what makes an accepted one dear: what it prints, line by line,
//! with the places in the files, the causes and the mends.
//!
//! Promise: what is explained is exactly what `specs/Why` says.
//!
//! A line is told by its first word (`line`): a refusal in `refused`, the lines behind it in `more`, bounds in
//! `bound` and what makes them dear in `way`, what cannot be read in `unread`, a fault in `fault`. Where it
//! stands is shown by `place`.

pub mod advice;
pub(crate) mod bound;
pub mod case;
pub mod circle;
pub(crate) mod fault;
pub(crate) mod ground;
pub(crate) mod keyword;
pub(crate) mod line;
pub(crate) mod meant;
pub(crate) mod more;
pub(crate) mod object;
pub(crate) mod past;
pub mod place;
pub(crate) mod refused;
pub mod service;
pub(crate) mod through;
pub mod token;
pub(crate) mod unread;
pub(crate) mod variable;
pub(crate) mod way;
pub(crate) mod words;

ghost use Rattle.std.specs.Prelude.{◌≡◌, ◌++◌, drop, map, OnOk, IfOk};
ghost use Rattle.bstr.specs.Text.{lines_of, without_terminator};
ghost use Rattle.mh_why.specs.Sources.{source_of};
ghost use Rattle.mh_why.specs.Why.{chain_behind, cycle_behind, explained_all, first_past, refusal_behind, why, ExplanationsAreHarmless};

use crate::explanation::ground::Ground;
use crate::explanation::line::put_explained;
use crate::explanation::past::Past;
use crate::explanation::words::{behind_first, first_word};
use crate::files::named_file::NamedFile;
use crate::files::shown::{Source, table_by};
use crate::script::posts::{script_behind, script_bytes};
use bstr::ByteSlice;
use mh_base::GroupName;
use mh_cause::Detail;
use mh_codec::TagTable;
use mh_flow::Link;
use mh_layers::{Arrow, Way};
use mh_told::text::Text;
use std::alloc::{AllocError, Global};
use std::marker::Model;

/// What is known beside an output.
#[derive(Drop)]
pub struct Known<'a> {
    /// The files of the service, each under its path in the folder.
    pub files: &'a [(GroupName, Vec<u8>)],
    /// The dearest ways of its inputs; where they are not known, none.
    pub ways: &'a [Way],
    /// The links of the chain of its refusal; where they are not known, none.
    pub chain: &'a [Link],
    /// The effects of the circle of its refusal; where they are not known, none.
    pub cycle: &'a [Arrow],
    /// The cause of its refusal by its case, and the mend; where the case is not known, nothing.
    pub cause: &'a [u8],
    pub mend: &'a [u8],
    /// Which part of the action is wrong.
    pub detail: Detail,
    /// The file that names late scenes, if it is known.
    pub late: Option<NamedFile<'a>>,
    /// The file that gives the tags of the binary notation, if it is known; without it, or where it makes no table,
    /// they are the profile's.
    pub tags: Option<NamedFile<'a>>,
    /// The script that was played, if it is known.
    pub script: Option<NamedFile<'a>>,
}

impl<'a> Model for Known<'a> {
    ghost use Rattle.mh_why.specs.Why.{Known};

    ghost Value = { Known };

    ghost view = { λ k. record { files = k.files.now; ways = k.ways.now; chain = k.chain.now; cycle = k.cycle.now; cause = k.cause.now; mend = k.mend.now; detail = k.detail; late = k.late; tags = k.tags; script = k.script } };
}

/// What is explained of the output of `check` or `play`.
#[tactic(auto, unfolding(crate::specs::Why::why))]
pub fn why(alloc: Global, known: &Known<'_>, output: &[u8]) -> Result<Text, AllocError>
    ensures { IfOk result (λ text. text ≡ why known.now output.now) }
{
    let tags = table_by(alloc, known.tags.as_ref())?;
    let sources = sources_of(alloc, &tags, known.files)?;
    let ground = Ground {
        sources: sources.as_slice(),
        ways: known.ways,
        chain: known.chain,
        cycle: known.cycle,
        cause: known.cause,
        mend: known.mend,
        detail: known.detail,
        late: known.late.as_ref(),
        tags: known.tags.as_ref(),
        script: known.script.as_ref(),
    };
    let mut text = Text::new(alloc);
    put_all(alloc, &mut text, &ground, output)?;
    Ok(text)
}

/// No explanation, whatever the output and the files are, gives a terminal an order.
pub fn explanations_are_harmless()
    ensures { ExplanationsAreHarmless }
{}

fn sources_of<'a>(
    alloc: Global,
    tags: &TagTable,
    files: &'a [(GroupName, Vec<u8>)],
) -> Result<Vec<Source<'a>>, AllocError>
    ensures { IfOk result (λ sources. sources.items ≡ map (source_of tags.now) files.now) }
{
    let mut sources = Vec::new(alloc);
    for file in files {
        sources.push(Source::of_file(alloc, tags, file)?)?;
    }
    Ok(sources)
}

/// Puts what is explained of each line. What a line tells leans on those before it.
fn put_all(
    alloc: Global,
    text: &mut Text,
    ground: &Ground<'_>,
    output: &[u8],
) -> Result<(), AllocError>
    ensures { OnOk result (text.new ≡ text.old ++ explained_all ground.now (first_past ground.now) (map without_terminator (lines_of output.now))) }
{
    let mut refusal: &[u8] = &[];
    let mut before: &[u8] = &[];
    let mut chain = ground.chain;
    let mut cycle = ground.cycle;
    let mut script = script_bytes(ground.script);
    for line in output.lines() {
        let past = Past {
            refusal,
            before,
            chain,
            cycle,
            script,
        };
        put_explained(alloc, text, ground, &past, line)?;
        refusal = refusal_behind(refusal, line);
        before = line;
        chain = chain_behind(chain, line);
        cycle = cycle_behind(cycle, line);
        script = script_behind(script, line);
    }
    Ok(())
}

/// The words behind the last `refused`, behind one more line.
fn refusal_behind<'a>(refusal: &'a [u8], line: &'a [u8]) -> &'a [u8]
    ensures { result.now ≡ refusal_behind refusal.now line.now }
{
    if first_word(line) == b"refused".as_slice() {
        return behind_first(line);
    }
    refusal
}

/// The links that are still to come.
fn chain_behind<'a>(chain: &'a [Link], line: &[u8]) -> &'a [Link]
    ensures { result.now ≡ chain_behind chain.now line.now }
{
    if first_word(line) == b"by".as_slice() {
        return behind_one(chain);
    }
    chain
}

/// The arrows that are still to come.
fn cycle_behind<'a>(cycle: &'a [Arrow], line: &[u8]) -> &'a [Arrow]
    ensures { result.now ≡ cycle_behind cycle.now line.now }
{
    if first_word(line) == b"cause".as_slice() {
        return behind_one(cycle);
    }
    cycle
}

/// All but the first.
fn behind_one<T>(list: &[T]) -> &[T]
    ensures { result.now ≡ drop 1 list.now }
{
    match list {
        [] => list,
        [_, behind @ ..] => behind,
    }
}
