//! `Values`: values that are named, each once.
//!
//! Promise: what is put in stands there once, in the order of coming, and is found under its hash.
ghost use Rattle.std.specs.Prelude.{◌≡◌, IfOk, OnOk, length, slice_get, position, []};
ghost use Rattle.std.specs.Option.{option_copied};
ghost use Rattle.mh_model.specs.Variables.{same_value as same_value_lem};
ghost use Rattle.mh_layers.specs.Listening.{with_data};

use indexmap::IndexSet;
use mh_base::Value;
use mh_model::kinds::same_value;
use std::alloc::{AllocError, Global};
use std::hash::{Hash, Hasher};
use std::marker::Model;

/// A value as a member of a set. A contract sees the value.
#[derive(Drop)]
pub(crate) struct Datum {
    value: Value,
}

impl Model for Datum {
    ghost use Rattle.mh_base.specs.declared.value.Value.{Value as ValueLem};

    ghost Value = { ValueLem };

    ghost view = { λ d. d.value };
}

impl PartialEq for Datum {
    ghost use Rattle.mh_model.specs.Variables.{same_value as same_value_lem};
    ghost use Rattle.mh_layers.specs.Hashing.{value_equiv};
    ghost use Rattle.std.specs.Cmp.{partial_equiv_from_equiv};

    ghost eq = { same_value_lem };

    ghost laws = { partial_equiv_from_equiv value_equiv };

    fn eq(&self, other: &Datum) -> bool {
        same_value(&self.value, &other.value)
    }
}

impl Eq for Datum {
    ghost use Rattle.mh_layers.specs.Hashing.{value_equiv};

    ghost laws = { value_equiv };
}

impl Hash for Datum {
    ghost use Rattle.mh_layers.specs.Hashing.{hash_words, same_words};

    ghost hash_input = { hash_words };

    ghost respects_eq = { same_words };

    fn hash<H: Hasher>(&self, state: &mut H) {
        match &self.value {
            Value::Bool(truth) => truth.hash(state),
            Value::Int(number) => number.hash(state),
            Value::Octets(octets) => octets.as_slice().hash(state),
            Value::Object(at) => at.hash(state),
            Value::Content(name) => name.hash(state),
        }
    }
}

impl Datum {
    fn of(value: &Value) -> Result<Datum, AllocError>
        ensures { IfOk result (λ datum. datum ≡ value.now) }
    {
        Ok(Datum {
            value: copied(value)?,
        })
    }

    pub fn get(&self) -> &Value
        ensures { result.now ≡ self.now }
    {
        &self.value
    }
}

/// A copy of the value, which shares what it holds.
pub(crate) fn copied(value: &Value) -> Result<Value, AllocError>
    ensures { IfOk result (λ copy. copy ≡ value.now) }
{
    value.clone()
}

/// Values, each once. A contract sees the list of them.
#[derive(Drop)]
pub(crate) struct Values {
    known: IndexSet<Datum>,
}

impl Model for Values {
    ghost use Rattle.std.specs.Prelude.{List};
    ghost use Rattle.mh_base.specs.declared.value.Value.{Value as ValueLem};

    ghost Value = { List ValueLem };

    ghost view = { λ v. v.known.keys };
}

impl Values {
    pub fn new(alloc: Global) -> Values
        ensures { result ≡ [] }
    {
        Values {
            known: IndexSet::new(alloc),
        }
    }

    /// Puts the value in, if there is one, and it is not there.
    pub fn add(&mut self, value: Option<&Value>) -> Result<(), AllocError>
        ensures { OnOk result (self.new ≡ with_data self.old (option_copied value.entry)) }
    {
        if let Some(value) = value {
            self.known.insert(Datum::of(value)?)?;
        }
        Ok(())
    }

    /// How many there are.
    pub fn len(&self) -> usize
        ensures { result ≡ length self.now }
    {
        self.known.len()
    }

    /// The values.
    pub fn as_slice(&self) -> &[Datum]
        ensures { result.now ≡ self.now }
    {
        self.known.as_slice()
    }

    /// The value with this number.
    pub fn at(&self, number: usize) -> Option<&Value>
        ensures { option_copied result ≡ slice_get self.now number }
    {
        match self.known.get_index(number) {
            None => None,
            Some(datum) => Some(datum.get()),
        }
    }

    /// The number of the value.
    pub fn number_of(&self, value: &Value) -> Option<usize>
        ensures { result ≡ position (same_value_lem value.now) self.now }
    {
        match Datum::of(value) {
            Ok(datum) => self.known.get_index_of(&datum),
            // without memory for a copy, one by one
            Err(_) => self.place_of(value),
        }
    }

    fn place_of(&self, value: &Value) -> Option<usize>
        ensures { result ≡ position (same_value_lem value.now) self.now }
    {
        let known = self.known.as_slice();
        known
            .iter()
            .position(|datum| same_value(value, datum.get()))
    }
}
