//! What is there where one configuration leads to another.
//!
//! Promise: each function puts behind what is there what the definition that its clause names says.
ghost use Rattle.std.specs.Prelude.{◌≡◌, ◌++◌, ◌-◌, OnOk};
ghost use Rattle.std.specs.Option.{option_map};
ghost use Rattle.mh_flow.specs.Opening as spec;

use crate::chart::Bases;
use crate::fixpoint::constraints::Item;
use crate::opening::numbered_config::{NumberedConfig, push_member};
use mh_model::Config;
use std::alloc::AllocError;

impl<'a, 's> NumberedConfig<'a, 's> {
    /// Where this configuration leads to that one, it is reached, and to a scene the application's objects take along
    /// what they hold.
    pub(crate) fn push_next(
        &self,
        items: &mut Vec<Item>,
        number: usize,
        next: Option<(&Config, &Bases)>,
    ) -> Result<(), AllocError>
        ensures { let p = self.now in OnOk result (items.new.items ≡ items.old.items
            ++ spec.by_led p.bases number (option_map (λ e. (e.0.now, e.1.now)) next.entry)) }
    {
        if let Some((next, bases)) = next {
            push_member(items, Some(0), Some(number))?;
            push_passed(items, self.bases, next, bases)?;
        }
        Ok(())
    }
}

/// What the application's objects take along to that configuration, if it has a scene.
fn push_passed(
    items: &mut Vec<Item>,
    from: &Bases,
    next: &Config,
    to: &Bases,
) -> Result<(), AllocError>
    ensures { OnOk result (items.new.items ≡ items.old.items ++ spec.passed from.now next.now to.now) }
{
    if next.scene.is_some() {
        push_all_along(items, from, to)?;
    }
    Ok(())
}

/// An edge from each set of the application to the one that it has there.
fn push_all_along(items: &mut Vec<Item>, from: &Bases, to: &Bases) -> Result<(), AllocError>
    ensures { OnOk result (items.new.items ≡ items.old.items ++ spec.taken_along from.now to.now) }
{
    let count = smaller(from.objects(), to.objects());
    for place in 0..count {
        items.push(Item::Edge(from.application + place, to.application + place))?;
    }
    Ok(())
}

fn smaller(first: usize, second: usize) -> usize
    ensures { result ≡ spec.smaller first second }
{
    if first < second { first } else { second }
}

impl Bases {
    /// How many objects of the application have a set.
    fn objects(&self) -> usize
        ensures { result ≡ self.now.scene - self.now.application }
    {
        self.scene.saturating_sub(self.application)
    }
}
