//! What is asked of a configuration while prices are added up, and what they are added up to.
//!
//! `Lists` stands on `View`, and `Around` and `Groups` each on `Lists`, so that what one of them answers can itself be a walk over
//! those below: a change of a list is one where it has no key of its own.
use crate::told::Told;
use mh_base::{EventType, GroupName, ObjRef};
use mh_model::Fixed;

/// What is there, what an event and the slots of an object come to, and how prices are summed.
pub trait View {
    ghost use Rattle.std.specs.Prelude.{◌≡◌, ◌∷◌, [], ℕ, List, IfSome, IfNone};
    ghost use Rattle.std.specs.Option.{option_copied};
    ghost use Rattle.mh_base.specs.declared.obj_ref.ObjRef.{ObjRef as ObjRefLem};
    ghost use Rattle.mh_laws.specs.Price.{Price};
    ghost use Rattle.mh_laws.specs.View.{Around as AroundLem};
    ghost use Rattle.mh_prices.specs.Meter.{Adds, Meter};

    /// What prices have come to so far.
    type Sum: Drop;

    /// What is put aside while the largest of several prices is asked for.
    type Mark: Copy + Drop;

    /// A place in a set.
    type Cursor: Copy + Drop;

    /// Why there is no sum.
    type Stop: Drop;

    /// What is counted, and what a sum and a mark say.
    ghost Key: { Type 0 };

    ghost Seen: { Type 0 };

    ghost Marked: { Type 0 };

    ghost seen: { Self.Sum → Seen };

    ghost marked: { Self.Mark → Marked };

    ghost meter: { Self → Meter Key Seen Marked };

    ghost around: { Self → AroundLem Key };

    /// What a set has from a place on.
    ghost left: { Self → ObjRefLem → Self.Cursor → List ObjRefLem };

    /// What the start-up of a group comes to, and its close-down. `Groups` asks for them.
    ghost starts: { Self → List ℕ → Price Key };

    ghost closes: { Self → List ℕ → Price Key };

    /// One step more.
    fn one(&self, sum: Self::Sum) -> Self::Sum
        ensures { seen result ≡ (meter self.now).one (seen sum) };

    /// The sum is put aside, and the first of several prices begins.
    fn aside(&self, sum: Self::Sum) -> (Self::Mark, Self::Sum)
        ensures { (marked result.0, seen result.1) ≡ (meter self.now).aside (seen sum) };

    /// One of the prices has come to this, and the next begins.
    fn next(&self, mark: Self::Mark, sum: Self::Sum) -> (Self::Mark, Self::Sum)
        ensures { (marked result.0, seen result.1) ≡ (meter self.now).next (marked mark, seen sum) };

    /// The largest of the prices is added to what was put aside.
    fn close(&self, mark: Self::Mark, sum: Self::Sum) -> Self::Sum
        ensures { seen result ≡ (meter self.now).close (marked mark, seen sum) };

    /// What is said of an object that is present.
    fn part(&self, at: &ObjRef) -> Option<&Fixed>
        ensures { option_copied result ≡ (around self.now).lists.view.part at.now };

    /// The place at which the set begins of what a variable may refer to, or of the items that a list may have.
    fn begin(&self, at: &ObjRef) -> Self::Cursor
        ensures { left self.now at.now result ≡ (around self.now).lists.view.set at.now };

    /// What the set has at the place or behind it, and the place that comes next.
    fn item(&self, at: &ObjRef, place: Self::Cursor) -> Option<(&ObjRef, Self::Cursor)>
        ensures some { IfSome result (λ x. left self.now at.now place ≡ x.0.now ∷ left self.now at.now x.1) }
        ensures none { IfNone result (left self.now at.now place ≡ []) };

    /// An event is dealt with, or waits.
    fn dealt_with(
        &self,
        at: &ObjRef,
        kind: EventType,
        told: &Told<'_>,
        sum: Self::Sum,
    ) -> Result<Self::Sum, Self::Stop>
        ensures { Adds seen (meter self.now) ((around self.now).lists.view.dealt_with at.now kind told.now) sum result };

    /// The largest of the slots of an object.
    fn slots(&self, part: &Fixed, sum: Self::Sum) -> Result<Self::Sum, Self::Stop>
        ensures { Adds seen (meter self.now) ((around self.now).lists.view.slots part.now) sum result };
}

/// What a change of a list comes to.
pub trait Lists: View {
    ghost use Rattle.mh_prices.specs.Meter.{Adds};

    fn change(&self, at: &ObjRef, sum: Self::Sum) -> Result<Self::Sum, Self::Stop>
        ensures { Adds Self.seen (Self.meter self.now) ((Self.around self.now).lists.change at.now) sum result };
}

/// What it comes to that a configuration is left for that of another group.
pub trait Around: Lists {
    ghost use Rattle.mh_prices.specs.Meter.{Adds};

    /// The scene is left, or all.
    fn leave(&self, all: bool, sum: Self::Sum) -> Result<Self::Sum, Self::Stop>
        ensures { Adds Self.seen (Self.meter self.now) ((Self.around self.now).leave all) sum result };

    /// The group is gone on to.
    fn exchange(&self, group: &GroupName, sum: Self::Sum) -> Result<Self::Sum, Self::Stop>
        ensures { Adds Self.seen (Self.meter self.now) ((Self.around self.now).exchange group.now) sum result };
}

/// What groups themselves come to, for who has to walk over what leaving and entering come to.
pub trait Groups: Lists {
    ghost use Rattle.std.specs.Prelude.{None};
    ghost use Rattle.mh_model.specs.Reference.{group_ref};
    ghost use Rattle.mh_laws.specs.Ways.{Sure};
    ghost use Rattle.mh_prices.specs.Meter.{Adds};

    /// The start-up of a group.
    fn start_up(&self, group: &GroupName, sum: Self::Sum) -> Result<Self::Sum, Self::Stop>
        ensures { Adds Self.seen (Self.meter self.now) (Self.starts self.now group.now) sum result };

    /// The close-down of a group.
    fn close_down(&self, group: &GroupName, sum: Self::Sum) -> Result<Self::Sum, Self::Stop>
        ensures { Adds Self.seen (Self.meter self.now) (Self.closes self.now group.now) sum result };

    /// An event without data of a group itself. No reference is made, since that takes memory.
    fn group_dealt_with(
        &self,
        group: &GroupName,
        kind: EventType,
        sum: Self::Sum,
    ) -> Result<Self::Sum, Self::Stop>
        ensures { Adds Self.seen (Self.meter self.now) ((Self.around self.now).lists.view.dealt_with (group_ref group.now) kind (Sure None)) sum result };
}
