//! Other groups than the one that is named: those to which an action can lead, and how an object of an application is written.
ghost use Rattle.std.specs.Prelude.{◌≡◌, ◌++◌, OnOk, IfOk};
ghost use Rattle.std.specs.Option.{option_copied};
ghost use Rattle.mh_cause.specs.Elsewhere.{elsewhere, has_words, is_meant, meant_names, reference_told, written_told};

use crate::phrases::{BEHIND_NAME, HAS_SUCH, ITSELF_IS, THE_APPLICATION};
use mh_base::GroupName;
use mh_group::ActionName;
use mh_service::Service;
use mh_told::text::Text;
use std::alloc::{AllocError, Global};

/// Whether the action can lead to the group of this name.
#[tactic(auto, unfolding(crate::specs::Elsewhere::is_meant))]
fn is_meant(service: &Service, action: Option<ActionName>, name: &GroupName) -> bool
    ensures { result ≡ is_meant service.now action name.now }
{
    match action {
        Some(ActionName::TransitionTo) => service.has_scene(name),
        Some(ActionName::Launch) => service.has_application(name),
        _ => true,
    }
}

/// The names of the groups to which the action can lead.
pub(crate) fn meant_names(
    alloc: Global,
    service: &Service,
    action: Option<ActionName>,
) -> Result<Vec<GroupName>, AllocError>
    ensures { IfOk result (λ names. names.items ≡ meant_names service.now action) }
{
    let mut names = Vec::new(alloc);
    for name in service.groups().keys() {
        if is_meant(service, action, name) {
            names.push(name.clone()?)?;
        }
    }
    Ok(names)
}

#[tactic(auto, unfolding(crate::specs::Elsewhere::elsewhere))]
pub(crate) fn put_elsewhere(
    text: &mut Text,
    number: u32,
    name: Option<&GroupName>,
) -> Result<(), AllocError>
    ensures { OnOk result (text.new ≡ text.old ++ elsewhere number (option_copied name.entry)) }
{
    match name {
        None => Ok(()),
        Some(name) => put_written_told(text, number, name.as_bytes()),
    }
}

/// Between the name of an application and how its object is written; the application itself has the number 0.
fn has_words(number: u32) -> &'static [u8]
    ensures { result.now ≡ has_words number }
{
    if number == 0 { ITSELF_IS } else { HAS_SUCH }
}

#[tactic(auto, unfolding(crate::specs::Elsewhere::written_told))]
fn put_written_told(text: &mut Text, number: u32, name: &[u8]) -> Result<(), AllocError>
    ensures { OnOk result (text.new ≡ text.old ++ written_told number name.now) }
{
    text.put(THE_APPLICATION)?;
    text.put(name)?;
    text.put(has_words(number))?;
    put_reference_told(text, number, name)
}

#[tactic(auto, unfolding(crate::specs::Elsewhere::reference_told))]
fn put_reference_told(text: &mut Text, number: u32, name: &[u8]) -> Result<(), AllocError>
    ensures { OnOk result (text.new ≡ text.old ++ reference_told number name.now) }
{
    text.put(name)?;
    text.put(BEHIND_NAME)?;
    text.put_number(u64::from(number))?;
    text.put(b")`")
}
