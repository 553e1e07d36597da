//! Events, and what of their data a link hears.
ghost use Rattle.std.specs.Prelude.{◌≡◌};
ghost use Rattle.std.specs.Option.{option_copied};
ghost use Rattle.mh_model.specs.Items.{hears_data as hears_data_lem};

use crate::kinds::same_value;
use mh_base::{EventType, ObjRef, Value};

/// An event (ISO/IEC 13522-5, the event mechanism): who emits it, of which type, and with which data.
#[derive(Clone, Drop)]
pub struct Event {
    pub source: ObjRef,
    pub kind: EventType,
    pub data: Option<Value>,
}

/// Whether a link that names these data, or none, hears an event with those that are given. One that names none hears any.
pub fn hears_data(named: Option<&Value>, given: &Option<Value>) -> bool
    ensures { result ≡ hears_data_lem (option_copied named.entry) given.now }
{
    match (named, given) {
        (None, _) => true,
        (Some(named), Some(given)) => same_value(named, given),
        (Some(_), None) => false,
    }
}
