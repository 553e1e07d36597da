//! `EffectTable`: the effects of all objects of a service that have a number.
//!
//! Promise: the row with the number of an object has its effects. It is made once, by one pass over the objects.
ghost use Rattle.std.specs.Prelude.{◌≡◌, map, slice_get, IfOk};
ghost use Rattle.std.specs.Option.{option_copied};
ghost use Rattle.mh_layers.specs.NumberedEffects.{effects_at};

use crate::numbered::effect_row::EffectRow;
use mh_base::ObjRef;
use mh_flow::Equipped;
use std::alloc::{AllocError, Global};
use std::marker::Model;

/// A row of effects for each object. A contract sees the list of them.
#[derive(Drop)]
pub(crate) struct EffectTable<'a> {
    rows: Vec<EffectRow<'a>>,
}

impl<'a> Model for EffectTable<'a> {
    ghost use Rattle.std.specs.Prelude.{List};
    ghost use Rattle.mh_model.specs.declared.act.Act.{Act};

    ghost Value = { List (List (List Act)) };

    ghost view = { λ t. t.rows.items };
}

impl<'a> EffectTable<'a> {
    /// The effects of these objects of the service.
    pub fn of(
        alloc: Global,
        service: &Equipped<'a>,
        objects: &[ObjRef],
    ) -> Result<EffectTable<'a>, AllocError>
        ensures { IfOk result (λ table. table ≡ map (effects_at service.now) objects.now) }
    {
        let mut rows = Vec::new(alloc);
        for at in objects {
            rows.push(EffectRow::at(alloc, service, at)?)?;
        }
        Ok(EffectTable { rows })
    }

    /// The effects of the object with this number.
    pub fn at(&self, number: usize) -> Option<&EffectRow<'a>>
        ensures { option_copied result ≡ slice_get self.now number }
    {
        self.rows.get(number)
    }
}
