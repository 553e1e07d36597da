//! Entries of which nothing comes where nothing that is looked at changes: whatever else they did would be seen.
ghost use Rattle.std.specs.Prelude.{◌≡◌};
ghost use Rattle.std.specs.Option.{option_copied};
ghost use Rattle.mh_model.specs.Sort as sort_spec;
ghost use Rattle.mh_trace.specs.Quiet as spec;

use crate::site::Site;
use mh_group::ActionName;
use mh_model::sort::{Sort, sort_of};
use mh_model::{Act, Input, Interaction, Item, Waiting};

/// Whether nothing comes of the item, or of what is taken where there is none, if nothing that is looked at changes.
/// `put` is where the actions stand that it puts.
pub fn is_quiet(
    front: &Option<Item>,
    waiting: Option<&Waiting>,
    begun: Option<&Interaction>,
    put: &[Site],
) -> bool
    ensures { result
        ≡ spec.is_quiet front.now (option_copied waiting.entry) (option_copied begun.entry) put.now }
{
    match (front, waiting) {
        (Some(item), _) => is_quiet_item(item, put),
        (None, Some(waiting)) => is_quiet_waiting(waiting, begun, put),
        (None, None) => true,
    }
}

fn is_quiet_item(item: &Item, put: &[Site]) -> bool
    ensures { result ≡ spec.is_quiet_item item.now put.now }
{
    match item {
        Item::Act(act) => is_quiet_act(act, put),
        Item::Emit(_) => put.is_empty(),
        Item::Enter(_) | Item::Exchange(_) | Item::End => false,
        _ => true,
    }
}

fn is_quiet_act(act: &Act, put: &[Site]) -> bool
    ensures { result ≡ spec.is_quiet_sort (sort_spec.sort_of act.now.name) act.now.name put.now }
{
    match (sort_of(act.name), act.name) {
        (Sort::Put, ActionName::CallActionSlot) => put.is_empty(),
        (Sort::Put | Sort::Load | Sort::Widget, _) => false,
        (_, name) => !matches!(name, ActionName::Fork | ActionName::SetTimer),
    }
}

fn is_quiet_waiting(waiting: &Waiting, begun: Option<&Interaction>, put: &[Site]) -> bool
    ensures { result ≡ spec.is_quiet_waiting waiting.now (option_copied begun.entry) put.now }
{
    match waiting {
        Waiting::Event(_) => put.is_empty(),
        Waiting::Input(input) => is_quiet_input(input, begun, put),
    }
}

fn is_quiet_input(input: &Input, begun: Option<&Interaction>, put: &[Site]) -> bool
    ensures { result ≡ spec.is_quiet_input input.now (option_copied begun.entry) put.now }
{
    match (input, begun) {
        (Input::Key(_), None) => put.is_empty(),
        (Input::Engine(_), _) => put.is_empty(),
        (Input::Stream(_), _) => true,
        _ => false,
    }
}
