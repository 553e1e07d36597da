//! How a session begins by a seal: the groups that are here, the engine for them, and the content files that are there.
ghost use Rattle.std.specs.Prelude.{◌≡◌, None, Ok, IfOk, IfErr, OnOk, true};
ghost use Rattle.std.specs.Str.{bytes_eq};
ghost use Rattle.sha2.specs.Sha256.{sha256};
ghost use Rattle.mh_codec.specs.Tags.{profile};
ghost use Rattle.mh_engine.specs.Sealed.{sealed_refusal};
ghost use Rattle.mh_model.specs.Planes.{blank};
ghost use Rattle.mh_sealing.specs.Here.{groups_here};
ghost use Rattle.redplay_c.specs.Playing.{of_sealed};
ghost use Rattle.redplay_c.specs.SealedStarts.{IsBegunBy, IsSealed, IsUnbegunBy, IsUnsealed, SealedBars, SealedBegins, SealedPlays, SealedStops, Unfits, has_own_tags, sealed_begun};

use crate::crossing::Source;
use crate::opening::LAST_DAY;
use crate::player::{Kind, Player};
use crate::reading::owned_files;
use crate::session::Session;
use crate::start_refusal::StartRefusal;
use mh_base::GroupName;
use mh_codec::TagTable;
use mh_engine::SealedEngine;
use mh_group::Group;
use mh_model::{File, Picture};
use mh_seal::{Digest, Seal, read_seal};
use mh_sealing::{contents_by, groups_here};
use std::alloc::Global;

/// The seal tells of a file of tags, which no call of the library reads.
const OTHER_TAGS: u32 = 73;

impl Session {
    /// A session that begins by the seal with these bytes, with those of the files that it tells to be here. Late scenes are
    /// brought when they are there; no verifier is asked.
    #[tactic(auto, using(crate::proofs::SealedStartLemmas::sealed_so, crate::proofs::SealedStartLemmas::unsealed_so, crate::proofs::SealedStartLemmas::no_seal_so))]
    pub fn start_sealed(
        alloc: Global,
        bytes: &[u8],
        sources: &[Source],
        day: u32,
    ) -> Result<Session, StartRefusal>
        ensures started { IfOk result (λ session. IsSealed bytes.now sources.now day session) }
        ensures refused { IfErr result (λ why. IsUnsealed bytes.now sources.now day why) }
    {
        if day > LAST_DAY {
            return Err(StartRefusal::NoDay);
        }
        match read_seal(alloc, bytes) {
            Ok(seal) => Session::by_seal(alloc, seal, sources, day),
            Err(why) => Err(StartRefusal::of_seal(why)),
        }
    }

    #[tactic(auto, using(crate::proofs::SealedStartLemmas::begun_by, crate::proofs::SealedStartLemmas::unbegun_by, crate::proofs::SealedStartLemmas::unnamed_by))]
    fn by_seal(
        alloc: Global,
        seal: Seal,
        sources: &[Source],
        day: u32,
    ) -> Result<Session, StartRefusal>
        ensures started { IfOk result (λ session. IsBegunBy sources.now seal day session) }
        ensures refused { IfErr result (λ why. IsUnbegunBy sources.now seal day why) }
    {
        match owned_files(alloc, sources) {
            Ok(files) => Session::by_seal_of(alloc, seal, files.as_slice(), day),
            Err(why) => Err(StartRefusal::of_name(why)),
        }
    }

    #[tactic(auto, using(crate::proofs::SealedStartLemmas::tags_bar))]
    fn by_seal_of(
        alloc: Global,
        seal: Seal,
        files: &[(GroupName, Vec<u8>)],
        day: u32,
    ) -> Result<Session, StartRefusal>
        ensures started { IfOk result (λ session. SealedBegins seal files.now day session) }
        ensures refused { IfErr result (λ why. SealedBars seal files.now day why) }
    {
        if !has_own_tags(&seal) {
            return Err(StartRefusal::Unreadable(OTHER_TAGS));
        }
        match TagTable::profile(alloc) {
            Ok(tags) => Session::by_seal_tagged(alloc, seal, &tags, files, day),
            Err(_) => Err(StartRefusal::NoMemory),
        }
    }

    #[tactic(auto, using(crate::proofs::SealedStartLemmas::unread_bars))]
    fn by_seal_tagged(
        alloc: Global,
        seal: Seal,
        tags: &TagTable,
        files: &[(GroupName, Vec<u8>)],
        day: u32,
    ) -> Result<Session, StartRefusal>
        requires tags { tags.now ≡ profile }
        requires own { has_own_tags seal ≡ true }
        ensures started { IfOk result (λ session. SealedBegins seal files.now day session) }
        ensures refused { IfErr result (λ why. SealedBars seal files.now day why) }
    {
        match groups_here(alloc, &seal, tags, files) {
            Ok(groups) => Session::by_seal_read(alloc, seal, groups, tags, files, day),
            Err(why) => Err(StartRefusal::of_unread(&why)),
        }
    }

    #[tactic(auto, using(crate::proofs::SealedStartLemmas::sealed_begins, crate::proofs::SealedStartLemmas::sealed_bars))]
    fn by_seal_read(
        alloc: Global,
        seal: Seal,
        groups: Vec<(GroupName, Group)>,
        tags: &TagTable,
        files: &[(GroupName, Vec<u8>)],
        day: u32,
    ) -> Result<Session, StartRefusal>
        requires tags { tags.now ≡ profile }
        requires own { has_own_tags seal ≡ true }
        requires read { groups_here seal tags.now files.now ≡ Ok groups.items }
        ensures started { IfOk result (λ session. SealedBegins seal files.now day session) }
        ensures refused { IfErr result (λ why. SealedBars seal files.now day why) }
    {
        match contents_by(alloc, &seal, tags, files) {
            Ok(contents) => Session::by_seal_with(alloc, seal, groups, contents.as_slice(), day),
            Err(_) => Err(StartRefusal::NoMemory),
        }
    }

    fn by_seal_with(
        alloc: Global,
        seal: Seal,
        groups: Vec<(GroupName, Group)>,
        contents: &[File],
        day: u32,
    ) -> Result<Session, StartRefusal>
        ensures started { IfOk result (λ session. SealedPlays seal groups.items contents.now day session) }
        ensures refused { IfErr result (λ why. SealedStops seal groups.items contents.now day why) }
    {
        match Picture::black(alloc) {
            Ok(seen) => Session::by_seal_black(alloc, seal, groups, seen, contents, day),
            Err(_) => Err(StartRefusal::NoMemory),
        }
    }

    #[tactic(auto, using(crate::proofs::SealedStartLemmas::sealed_plays, crate::proofs::SealedStartLemmas::sealed_stops, crate::proofs::SealedStartLemmas::unfit_stops))]
    fn by_seal_black(
        alloc: Global,
        seal: Seal,
        groups: Vec<(GroupName, Group)>,
        seen: Picture,
        contents: &[File],
        day: u32,
    ) -> Result<Session, StartRefusal>
        requires { seen ≡ blank }
        ensures started { IfOk result (λ session. SealedPlays seal groups.items contents.now day session) }
        ensures refused { IfErr result (λ why. SealedStops seal groups.items contents.now day why) }
    {
        match sealed_player(alloc, seal, groups, day) {
            Ok(player) => Session::of_player(alloc, player, seen, contents),
            Err(why) => Err(why),
        }
    }
}

/// What plays by a seal, where no group stands in the way.
#[tactic(auto, using(crate::proofs::SealedStartLemmas::unfit_so))]
fn sealed_player(
    alloc: Global,
    seal: Seal,
    groups: Vec<(GroupName, Group)>,
    day: u32,
) -> Result<Player, StartRefusal>
    ensures begun { IfOk result (λ player. player ≡ of_sealed (sealed_begun seal groups.items day)) }
    ensures accepted { OnOk result (sealed_refusal seal groups.items ≡ None) }
    ensures refused { IfErr result (λ why. Unfits seal groups.items why) }
{
    match SealedEngine::start(alloc, seal, groups, day) {
        Ok(engine) => Ok(Player::of(Kind::Sealed(engine))),
        Err(why) => Err(StartRefusal::of_unsealed(&why)),
    }
}

/// Whether the seal tells of no file of tags.
fn has_own_tags(seal: &Seal) -> bool
    ensures { result ≡ has_own_tags seal.now }
{
    has_digest_of(seal, b"")
}

fn has_digest_of(seal: &Seal, octets: &[u8]) -> bool
    ensures { result ≡ bytes_eq seal.now.tags (sha256 octets.now) }
{
    let digest = Digest::of(octets);
    seal.tags.bytes() == digest.bytes()
}
