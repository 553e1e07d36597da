//! Places of actions: in which effect of which object they stand, and which of its actions they are.
ghost use Rattle.std.specs.Prelude.{◌≡◌, IfOk};
ghost use Rattle.std.specs.Cmp.{partial_equiv_from_equiv};
ghost use Rattle.mh_trace.specs.Kinds.{kind_fed, kind_laws, kinds_alike, same_kind};
ghost use Rattle.mh_trace.specs.Sites as spec;

use mh_base::ObjRef;
use mh_model::parts::same_ref;
use std::alloc::AllocError;
use std::hash::{Hash, Hasher};

/// Which of an object's effects is meant (ISO/IEC 13522-5: OnStartUp, OnCloseDown, LinkEffect, ActionSlots).
#[derive(Clone, Copy)]
pub enum EffectKind {
    StartUp,
    CloseDown,
    Link,
    /// What a slot of a member does: the position of the member, and the number of the slot, both from 1 on.
    Slot(usize, usize),
}

impl EffectKind {
    /// Whether both are the same effect of an object.
    pub fn is_same(self, other: EffectKind) -> bool
        ensures { result ≡ same_kind self other }
    {
        match (self, other) {
            (EffectKind::StartUp, EffectKind::StartUp) => true,
            (EffectKind::CloseDown, EffectKind::CloseDown) => true,
            (EffectKind::Link, EffectKind::Link) => true,
            (EffectKind::Slot(member, slot), EffectKind::Slot(others_member, others_slot)) => {
                member == others_member && slot == others_slot
            }
            _ => false,
        }
    }
}

impl PartialEq for EffectKind {
    ghost eq = { same_kind };

    ghost laws = { partial_equiv_from_equiv kind_laws };

    fn eq(&self, other: &EffectKind) -> bool {
        self.is_same(*other)
    }
}

impl Eq for EffectKind {
    ghost laws = { kind_laws };
}

impl Hash for EffectKind {
    ghost hash_input = { kind_fed };

    ghost respects_eq = { kinds_alike };

    fn hash<H: Hasher>(&self, state: &mut H) {
        match self {
            EffectKind::StartUp => state.write_u8(0),
            EffectKind::CloseDown => state.write_u8(1),
            EffectKind::Link => state.write_u8(2),
            EffectKind::Slot(member, slot) => {
                state.write_u8(3);
                member.hash(state);
                slot.hash(state);
            }
        }
    }
}

/// Where an action stands. Tables have it as their key.
#[derive(Clone, Drop, PartialEq, Eq, Hash)]
pub struct Site {
    pub object: ObjRef,
    pub kind: EffectKind,
    /// Which of the actions of the effect it is, from 1 on.
    pub number: usize,
}

impl Site {
    /// Whether it is in this effect of this object.
    pub fn is_in(&self, object: &ObjRef, kind: EffectKind) -> bool
        ensures { result ≡ spec.is_in object.now kind self.now }
    {
        self.kind.is_same(kind) && same_ref(&self.object, object)
    }

    pub fn copied(&self) -> Result<Site, AllocError>
        ensures { IfOk result (λ copy. copy ≡ self.now) }
    {
        self.clone()
    }
}
