//! Writers of elementary actions and their parameters.
ghost use Rattle.std.specs.Prelude.{◌≡◌, ◌++◌, true, OnOk, IfErr};
ghost use Rattle.mh_der.specs.Element.{element};
ghost use Rattle.mh_codec.specs.Spelling.{own};
ghost use Rattle.mh_codec.specs.Tags.{value_tag};
ghost use Rattle.mh_codec.specs.Unwritable.{Refuses};

use crate::CodecError;
use crate::tag_table::TagTable;
use crate::writable::{Writable, own, write_several};
use crate::writing_value::write_natural;
use mh_base::Kind;
use mh_der::{begin_element, end_element};
use mh_group::{Action, Parameter, Typed};

/// A value behind the tag of its kind.
impl Writable for Typed {
    ghost use Rattle.mh_codec.specs.Spelling.{typed_value as spelling_lem};
    ghost use Rattle.mh_group.specs.Holdable.{is_typed as is_good_lem};

    ghost spelling = { spelling_lem };

    ghost is_good = { is_good_lem };

    #[tactic(auto, unfolding(crate::specs::Spelling::typed_value))]
    fn write(&self, tags: &TagTable, out: &mut Vec<u8>) -> Result<(), CodecError> {
        match self {
            Typed::Bool(value) => write_behind(tags, out, Kind::Bool, value),
            Typed::Int(value) => write_behind(tags, out, Kind::Int, value),
            Typed::Octets(value) => write_behind(tags, out, Kind::Octets, value),
            Typed::Ref(value) => write_behind(tags, out, Kind::Object, value),
            Typed::ContentRef(value) => write_behind(tags, out, Kind::Content, value),
        }
    }
}

/// Writes a value behind the tag of this kind.
fn write_behind<T: Writable>(
    tags: &TagTable,
    out: &mut Vec<u8>,
    kind: Kind,
    value: &T,
) -> Result<(), CodecError>
    ensures written { OnOk result (out.new.items ≡ out.old.items ++ element (own (value_tag tags.now kind)) (T.spelling tags.now value.now)) }
    ensures fits { OnOk result (T.is_good value.now ≡ true) }
    ensures limit { IfErr result (Refuses (T.is_good value.now)) }
{
    let start = begin_element(out, own(tags.value_tag(kind)))?;
    value.write(tags, out)?;
    end_element(out, start)?;
    Ok(())
}

impl Writable for Parameter {
    ghost use Rattle.mh_codec.specs.Spelling.{parameter_value as spelling_lem};
    ghost use Rattle.mh_group.specs.Holdable.{is_parameter as is_good_lem};

    ghost spelling = { spelling_lem };

    ghost is_good = { is_good_lem };

    fn write(&self, tags: &TagTable, out: &mut Vec<u8>) -> Result<(), CodecError> {
        match self {
            Parameter::Bool(value) => value.write(tags, out),
            Parameter::Int(value) => value.write(tags, out),
            Parameter::Octets(value) => value.write(tags, out),
            Parameter::Ref(value) => value.write(tags, out),
            Parameter::Content(value) => value.write(tags, out),
            Parameter::Data(value) => value.write(tags, out),
            Parameter::Event(event) => Ok(write_natural(out, event.number())?),
            Parameter::Receiver(variable) => variable.write(tags, out),
            Parameter::Typed(value) => value.write(tags, out),
            Parameter::Arguments(values) => values.write(tags, out),
        }
    }
}

impl Writable for Action {
    ghost use Rattle.mh_codec.specs.Spelling.{action as spelling_lem};
    ghost use Rattle.mh_group.specs.Holdable.{is_action as is_good_lem};

    ghost spelling = { spelling_lem };

    ghost is_good = { is_good_lem };

    #[tactic(auto, unfolding(crate::specs::Spelling::action))]
    fn write(&self, tags: &TagTable, out: &mut Vec<u8>) -> Result<(), CodecError> {
        let start = begin_element(out, own(tags.action_tag(self.name)))?;
        self.target.write(tags, out)?;
        write_several(tags, out, self.parameters.as_slice())?;
        end_element(out, start)?;
        Ok(())
    }
}
