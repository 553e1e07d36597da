//! Content that an action gives. What it comes to is left to who keeps the files.
ghost use Rattle.std.specs.Prelude.{◌≡◌};
ghost use Rattle.std.specs.Option.{option_copied};
ghost use Rattle.mh_actions.specs.Content as spec;
ghost use Rattle.mh_model.specs.Files.{is_loadable};

use crate::variables::fits;
use mh_base::Value;

/// What an action that loads makes the content of its target (ISO/IEC 13522-5, SetData), of its
/// values; nothing where there is not one value, or it is too long.
pub fn new_content(values: &[Value]) -> Option<&Value>
    ensures { option_copied result ≡ spec.new_content values.now }
{
    match values {
        [value] if is_loadable(value) => Some(value),
        _ => None,
    }
}

/// Whether the value can become content: octets that are not too many, or the name of a file.
fn is_loadable(value: &Value) -> bool
    ensures { result ≡ is_loadable value.now }
{
    match value {
        Value::Octets(octets) => fits(octets.as_slice()),
        Value::Content(_) => true,
        _ => false,
    }
}
