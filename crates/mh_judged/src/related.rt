//! Places that have to do with a refusal: the object that is named, the links of its chain and the arrows of its circle.
//!
//! Promise: each function answers or pushes what the definition of the same matter in `specs/Refusals` says.
ghost use Rattle.std.specs.Prelude.{◌≡◌, ◌++◌, ◌∷◌, [], map, IfOk, OnOk};
ghost use Rattle.std.specs.Option.{option_copied};
ghost use Rattle.mh_judged.specs.Refusals as spec;

use crate::sites::{numbered_site, site_at};
use mh_base::{ObjRef, Seq};
use mh_findings::{Related, Site, Words};
use mh_flow::Link;
use mh_layers::Arrow;
use mh_places::{Directory, Span};
use mh_told::text::Text;
use mh_verify::Refusal;
use mh_why::explanation::circle::put_at;
use std::alloc::{AllocError, Global};

/// The places that have to do with a refusal.
#[tactic(auto, unfolding(crate::specs::Refusals::related_to))]
pub(crate) fn related_to(
    alloc: Global,
    folder: &[u8],
    directory: &Directory<'_>,
    refusal: &Refusal,
) -> Result<Seq<Related>, AllocError>
    ensures { IfOk result (λ related. related ≡ spec.related_to folder.now directory.now refusal.now) }
{
    let chain = refusal.chain.as_slice();
    let cycle = refusal.cycle.as_slice();
    let mut related = Seq::new(alloc);
    push_named(
        alloc,
        &mut related,
        folder,
        directory,
        refusal.object.as_ref(),
    )?;
    push_links(alloc, &mut related, folder, directory, chain)?;
    push_arrows(alloc, &mut related, folder, directory, cycle)?;
    Ok(related)
}

/// Pushes where the object stands that is named, if it stands somewhere.
pub(crate) fn push_named(
    alloc: Global,
    related: &mut Seq<Related>,
    folder: &[u8],
    directory: &Directory<'_>,
    named: Option<&ObjRef>,
) -> Result<(), AllocError>
    ensures { OnOk result (related.new
        ≡ related.old ++ spec.named_related folder.now directory.now (option_copied named.entry)) }
{
    match named {
        None => Ok(()),
        Some(named) => push_named_at(alloc, related, folder, named, directory.object_span(named)),
    }
}

fn push_named_at(
    alloc: Global,
    related: &mut Seq<Related>,
    folder: &[u8],
    named: &ObjRef,
    span: Option<Span>,
) -> Result<(), AllocError>
    ensures { OnOk result (related.new ≡ related.old ++ spec.named_at folder.now named.now span) }
{
    match span {
        None => Ok(()),
        Some(span) => {
            let at = site_at(alloc, folder, named.group.as_bytes(), Some(span))?;
            related.push(named_here(alloc, at, named)?)
        }
    }
}

fn named_here(alloc: Global, at: Site, named: &ObjRef) -> Result<Related, AllocError>
    ensures { IfOk result (λ related. related ≡ spec.named_here at named.now) }
{
    let mut words = Text::new(alloc);
    put_at(&mut words, named)?;
    words.put(b" is named here")?;
    let what = Words::of_bytes(alloc, words.as_slice())?;
    Ok(Related { at, what })
}

pub(crate) fn push_links(
    alloc: Global,
    related: &mut Seq<Related>,
    folder: &[u8],
    directory: &Directory<'_>,
    chain: &[Link],
) -> Result<(), AllocError>
    ensures { OnOk result (related.new ≡ related.old ++ map (spec.link_related folder.now directory.now) chain.now) }
{
    for link in chain {
        related.push(link_related(alloc, folder, directory, link)?)?;
    }
    Ok(())
}

#[tactic(auto, unfolding(crate::specs::Refusals::link_related))]
fn link_related(
    alloc: Global,
    folder: &[u8],
    directory: &Directory<'_>,
    link: &Link,
) -> Result<Related, AllocError>
    ensures { IfOk result (λ related. related ≡ spec.link_related folder.now directory.now link.now) }
{
    let words = link_words(alloc, link)?;
    let what = Words::of_bytes(alloc, words.as_slice())?;
    let at = numbered_site(alloc, folder, directory, &link.key, link.index)?;
    Ok(Related { at, what })
}

fn link_words(alloc: Global, link: &Link) -> Result<Text, AllocError>
    ensures { IfOk result (λ words. words ≡ spec.link_words link.now) }
{
    let mut words = Text::new(alloc);
    if link.index == 0 {
        put_at(&mut words, &link.key)?;
        words.put(b" has it from the start")?;
        return Ok(words);
    }
    words.put(b"action ")?;
    words.put_number(link.index as u64)?;
    words.put(b" of ")?;
    put_at(&mut words, &link.key)?;
    words.put(b" brings it to ")?;
    put_at(&mut words, &link.written)?;
    Ok(words)
}

fn push_arrows(
    alloc: Global,
    related: &mut Seq<Related>,
    folder: &[u8],
    directory: &Directory<'_>,
    cycle: &[Arrow],
) -> Result<(), AllocError>
    ensures { OnOk result (related.new ≡ related.old ++ map (spec.arrow_related folder.now directory.now) cycle.now) }
{
    for arrow in cycle {
        related.push(arrow_related(alloc, folder, directory, arrow)?)?;
    }
    Ok(())
}

#[tactic(auto, unfolding(crate::specs::Refusals::arrow_related))]
fn arrow_related(
    alloc: Global,
    folder: &[u8],
    directory: &Directory<'_>,
    arrow: &Arrow,
) -> Result<Related, AllocError>
    ensures { IfOk result (λ related. related ≡ spec.arrow_related folder.now directory.now arrow.now) }
{
    let words = arrow_words(alloc, arrow)?;
    let what = Words::of_bytes(alloc, words.as_slice())?;
    let at = numbered_site(alloc, folder, directory, &arrow.cause.at, arrow.index)?;
    Ok(Related { at, what })
}

#[tactic(auto, unfolding(crate::specs::Refusals::arrow_words))]
fn arrow_words(alloc: Global, arrow: &Arrow) -> Result<Text, AllocError>
    ensures { IfOk result (λ words. words ≡ spec.arrow_words arrow.now) }
{
    let mut words = Text::new(alloc);
    words.put(arrow.action.word())?;
    words.put(b", action ")?;
    words.put_number(arrow.index as u64)?;
    words.put(b" of ")?;
    put_at(&mut words, &arrow.cause.at)?;
    words.put(b", puts the next effect to work")?;
    Ok(words)
}
