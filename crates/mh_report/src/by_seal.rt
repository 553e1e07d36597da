//! What is read beside a seal before an engine begins: the tags, and what `mh_sealing` finds among the files.
//!
//! Promise: each function answers what the definition of its name in `specs/BySeal` says.
ghost use Rattle.mh_told.specs.Reading.{Gives};
ghost use Rattle.mh_report.specs.BySeal.{readied_by, tags_by};

use crate::options::Options;
use mh_base::{GroupName, Seq};
use mh_codec::TagTable;
use mh_group::Group;
use mh_model::File;
use mh_seal::{Digest, Seal};
use mh_sealing::{contents_by, groups_here};
use mh_told::tags::table_of;
use mh_told::unplayable::Unplayable;
use std::alloc::Global;

/// What is there beside a seal.
#[derive(Drop)]
pub struct Ready {
    pub tags: TagTable,
    /// The groups that are here from the start, as far as their files are there.
    pub groups: Seq<(GroupName, Group)>,
    /// The content files that are there, in order.
    pub contents: Seq<File>,
}

/// What is there beside the seal, or what cannot be read.
#[tactic(auto, unfolding(crate::specs::BySeal::readied_by))]
pub fn ready_by(
    alloc: Global,
    seal: &Seal,
    files: &[(GroupName, Vec<u8>)],
    options: &Options,
) -> Result<Ready, Unplayable>
    ensures { Gives (λ ready. ready) result (readied_by seal.now files.now options.now) }
{
    let tags = tags_by(alloc, seal, options)?;
    let groups = Seq::from_vec(groups_here(alloc, seal, &tags, files)?);
    let contents = contents_by(alloc, seal, &tags, files)?;
    Ok(Ready {
        tags,
        groups,
        contents,
    })
}

/// The tags that are chosen, where they are those of which the seal tells.
fn tags_by(alloc: Global, seal: &Seal, options: &Options) -> Result<TagTable, Unplayable>
    ensures { Gives (λ tags. tags) result (tags_by seal.now options.now) }
{
    let tags = table_of(alloc, options.tags())?;
    let digest = Digest::of(options.tag_octets());
    if seal.tags.bytes() == digest.bytes() {
        Ok(tags)
    } else {
        Err(Unplayable::Tags {
            number: 73,
            place: 0,
        })
    }
}
