//! A service of which a part is known: its late scenes, and a scene that takes the place of a stub.
//!
//! Promise: it stays what every service is. What is put there is judged by `sealed`.
ghost use Rattle.std.specs.Prelude.{◌≡◌, None, [], OnOk, OnErr};
ghost use Rattle.std.specs.Str.{bytes_eq};
ghost use Rattle.mh_model.specs.First.{put_first};
ghost use Rattle.mh_service.specs.Resolved.{parts_of};
ghost use Rattle.mh_service.specs.Sealed.{unfilled_by, with_group};

use crate::Service;
use indexmap::IndexMap;
use mh_base::{GroupName, Seq};
use mh_group::Group;
use mh_model::FixedPart;
use std::alloc::{AllocError, Global};

impl Service {
    /// The service without its files, and with these scenes as its late ones.
    #[tactic(auto, unfolding(mh_model::specs::Configuration::is_service, mh_model::specs::Configuration::has_keys))]
    pub(crate) fn partly(self, alloc: Global, late: Vec<GroupName>) -> Service
        ensures { result ≡ record self { files = []; late = late.items } }
    {
        let Service {
            groups,
            start,
            programs,
            files: _,
            late: _,
        } = self;
        Service {
            groups,
            start,
            programs,
            files: Vec::new(alloc),
            late,
        }
    }

    /// Puts these parts of a scene in the place of those that stand under its name.
    pub(crate) fn put_scene(
        &mut self,
        name: GroupName,
        group: &Group,
        parts: Seq<FixedPart>,
    ) -> Result<(), AllocError>
        requires fits { unfilled_by self.old name group.now ≡ None }
        requires found { parts ≡ parts_of name group.now }
        ensures put { OnOk result (self.new ≡ with_group name parts self.old) }
        ensures kept { OnErr result (self.new ≡ self.old) }
    {
        let _ = group.written();
        put_parts(&mut self.groups, name, parts)
    }
}

/// Puts the parts of a group in the place of others under its name.
#[tactic(auto, using(crate::proofs::FillLemmas::insert_put))]
fn put_parts(
    groups: &mut IndexMap<GroupName, Seq<FixedPart>>,
    name: GroupName,
    parts: Seq<FixedPart>,
) -> Result<(), AllocError>
    ensures put { OnOk result (groups.new.entries ≡ put_first (λ e. bytes_eq e.0 name) (name, parts) groups.old.entries) }
    ensures kept { OnErr result (groups.new.entries ≡ groups.old.entries) }
{
    groups.insert(name, parts)?;
    Ok(())
}
