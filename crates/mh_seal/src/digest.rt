//! `Digest`: of octets, and of a group by its one spelling.
ghost use Rattle.std.specs.Prelude.{◌≡◌, ◌≢◌, true, IfOk, IfErr, OnOk};
ghost use Rattle.sha2.specs.Sha256.{sha256};
ghost use Rattle.mh_codec.specs.Tags.{profile};
ghost use Rattle.mh_codec.specs.Unwritable.{HasNoSpelling};
ghost use Rattle.mh_seal.specs.Digests.{HasSpelling, digest_of};
ghost use Rattle.mh_seal.specs.Octets.{is_digest};

use mh_codec::{CodecError, TagTable, Why, encode_group};
use mh_group::Group;
use sha2::{Digest as Hasher, Sha256};
use std::alloc::Global;
use std::marker::Model;

/// SHA-256 (FIPS 180-4) of some octets. A contract sees its 32 bytes.
#[derive(Drop)]
pub struct Digest {
    bytes: [u8; 32],
}

impl Model for Digest {
    ghost use Rattle.std.specs.Prelude.{◌≡◌, ℕ, List, true};
    ghost use Rattle.mh_seal.specs.Octets.{is_digest};

    ghost Value = { List ℕ };

    ghost view = { λ d. d.bytes };

    ghost invariant = { λ d. is_digest d.bytes ≡ true };
}

impl Digest {
    /// The digest with these bytes.
    pub fn from_bytes(bytes: [u8; 32]) -> Digest
        ensures { result ≡ bytes }
    {
        Digest { bytes }
    }

    /// The digest of these octets.
    pub fn of(octets: &[u8]) -> Digest
        ensures { result ≡ sha256 octets.now }
    {
        Digest::from_bytes(Sha256::digest(octets))
    }

    /// The digest of the octets that spell the group by the tags of the profile, in whatever notation it was read; 13
    /// at 0 exactly where the notation cannot hold it.
    #[tactic(auto, using(crate::proofs::DigestLemmas::has_spelling))]
    pub fn of_group(alloc: Global, group: &Group) -> Result<Digest, CodecError>
        ensures found { IfOk result (λ digest. digest ≡ digest_of group.now) }
        ensures spelled { OnOk result (HasSpelling group.now) }
        ensures limit { IfErr result (λ e. e ≢ CodecError.NoMemory → (e ≡ CodecError.At Why.Limit 0) × HasNoSpelling profile group.now) }
    {
        let tags = TagTable::profile(alloc)?;
        let octets = encode_group(alloc, &tags, group)?;
        Ok(Digest::of(octets.as_slice()))
    }

    pub fn bytes(&self) -> &[u8]
        ensures bytes { result.now ≡ self.now }
        ensures digest { is_digest self.now ≡ true }
    {
        self.bytes.as_slice()
    }
}
