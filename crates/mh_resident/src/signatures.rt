//! The parameters of a program: of a built-in one, or of one that the receiver adds.
ghost use Rattle.std.specs.Prelude.{◌≡◌};
ghost use Rattle.std.specs.List.{find};
ghost use Rattle.std.specs.Option.{option_copied};
ghost use Rattle.std.specs.Str.{bytes_eq};
ghost use Rattle.mh_group.specs.declared.attribute.Attribute.TheVariants as attribute;
ghost use Rattle.mh_model.specs.Programs as programs;
ghost use Rattle.mh_model.specs.Property as property;
ghost use Rattle.mh_model.specs.Known as known;

use crate::builtins::{builtin_named, params_of};
use mh_base::Value;
use mh_group::{Attribute, Class};
use mh_model::{Fixed, Param, Signature};

/// The parameters of the program with this name. Built-in programs go before those that are added,
/// and of two that are added under one name the first counts.
pub fn params_for<'a>(signatures: &'a [Signature], name: &[u8]) -> Option<&'a [Param]>
    ensures { option_copied result ≡ programs.params_for signatures.now name.now }
{
    match builtin_named(name) {
        Some(which) => Some(params_of(which)),
        None => match signature_named(signatures, name) {
            Some(signature) => Some(signature.params.as_slice()),
            None => None,
        },
    }
}

/// The first signature with this name, if there is one.
fn signature_named<'a>(signatures: &'a [Signature], name: &[u8]) -> Option<&'a Signature>
    ensures { option_copied result ≡ find (λ s. bytes_eq name.now s.name) signatures.now }
{
    signatures
        .iter()
        .find(|signature| name == signature.name.as_slice())
}

/// The name under which an object calls a program; none, if it is no resident program
/// (ISO/IEC 13522-5, Program).
pub fn program_name(part: &Fixed) -> Option<&[u8]>
    ensures { option_copied result ≡ known.program_name part.now }
{
    match part.class {
        Class::ResidentPrg => Some(name_held(part)),
        _ => None,
    }
}

/// The octets that are written as the name of an object, or none.
fn name_held(part: &Fixed) -> &[u8]
    ensures { let held = property.held attribute.Name part.now.properties in
        result.now ≡ property.as_octets (property.as_value held) }
{
    match mh_model::held::as_value(part.properties.get(Attribute::Name)) {
        Some(Value::Octets(name)) => name.as_slice(),
        _ => &[],
    }
}

/// The parameters that a call of this object takes; none, if there is no such object, or none that
/// calls a program with a known name.
pub fn takes<'a>(signatures: &'a [Signature], part: Option<&'a Fixed>) -> Option<&'a [Param]>
    ensures { option_copied result ≡ known.params_in signatures.now (option_copied part.entry) }
{
    params_for(signatures, program_name(part?)?)
}
