//! Printers of what lists hold: values behind their kind, parameters, actions, members of token groups
//! and list groups, positions, next scenes.

use crate::TextError;
use crate::printing::printable::{
    PAST_LIMIT, Printable, print_several, put_closing, put_keyword, put_opening, put_word,
};
use crate::printing::value::{put_integer, put_name};
use mh_base::LONGEST_LIST;
use mh_group::{Action, Member, NextScene, Parameter, Position, Typed, event_word, kind_word};

/// A value behind the keyword of its kind.
impl Printable for Typed {
    ghost use Rattle.mh_text.specs.Printed.{typed_value as printed_lem};
    ghost use Rattle.mh_group.specs.Holdable.{is_typed as is_good_lem};

    ghost printed = { printed_lem };

    ghost is_good = { is_good_lem };

    #[tactic(auto, unfolding(crate::specs::Printed::typed_value))]
    fn print(&self, out: &mut Vec<u8>) -> Result<(), TextError> {
        put_keyword(out, kind_word(self.kind()))?;
        match self {
            Typed::Bool(value) => value.print(out),
            Typed::Int(value) => value.print(out),
            Typed::Octets(value) => value.print(out),
            Typed::Ref(value) => value.print(out),
            Typed::ContentRef(value) => value.print(out),
        }
    }
}

impl Printable for Parameter {
    ghost use Rattle.mh_text.specs.Printed.{parameter_value as printed_lem};
    ghost use Rattle.mh_group.specs.Holdable.{is_parameter as is_good_lem};

    ghost printed = { printed_lem };

    ghost is_good = { is_good_lem };

    fn print(&self, out: &mut Vec<u8>) -> Result<(), TextError> {
        match self {
            Parameter::Bool(value) => value.print(out),
            Parameter::Int(value) => value.print(out),
            Parameter::Octets(value) => value.print(out),
            Parameter::Ref(value) => value.print(out),
            Parameter::Content(value) => value.print(out),
            Parameter::Data(value) => value.print(out),
            Parameter::Event(event) => Ok(put_word(out, event_word(*event))?),
            Parameter::Receiver(variable) => variable.print(out),
            Parameter::Typed(value) => value.print(out),
            Parameter::Arguments(values) => values.print(out),
        }
    }
}

impl Printable for Action {
    ghost use Rattle.mh_text.specs.Printed.{action as printed_lem};
    ghost use Rattle.mh_group.specs.Holdable.{is_action as is_good_lem};

    ghost printed = { printed_lem };

    ghost is_good = { is_good_lem };

    #[tactic(auto, unfolding(crate::specs::Printed::action))]
    fn print(&self, out: &mut Vec<u8>) -> Result<(), TextError> {
        put_keyword(out, self.name.word())?;
        put_opening(out)?;
        self.target.print(out)?;
        print_several(out, self.parameters.as_slice())?;
        put_closing(out)?;
        Ok(())
    }
}

impl Printable for Member {
    ghost use Rattle.mh_text.specs.Printed.{member as printed_lem};
    ghost use Rattle.mh_group.specs.Holdable.{is_member as is_good_lem};

    ghost printed = { printed_lem };

    ghost is_good = { is_good_lem };

    #[tactic(auto, unfolding(crate::specs::Printed::member))]
    fn print(&self, out: &mut Vec<u8>) -> Result<(), TextError> {
        if self.slots.len() > LONGEST_LIST {
            return Err(PAST_LIMIT);
        }
        put_opening(out)?;
        self.object.print(out)?;
        print_several(out, self.slots.as_slice())?;
        put_closing(out)?;
        Ok(())
    }
}

impl Printable for Position {
    ghost use Rattle.mh_text.specs.Printed.{position as printed_lem};
    ghost use Rattle.mh_group.specs.Holdable.{is_position as is_good_lem};

    ghost printed = { printed_lem };

    ghost is_good = { is_good_lem };

    #[tactic(auto, unfolding(crate::specs::Printed::position))]
    fn print(&self, out: &mut Vec<u8>) -> Result<(), TextError> {
        put_opening(out)?;
        put_integer(out, self.x)?;
        put_integer(out, self.y)?;
        put_closing(out)?;
        Ok(())
    }
}

impl Printable for NextScene {
    ghost use Rattle.mh_text.specs.Printed.{next_scene as printed_lem};
    ghost use Rattle.mh_group.specs.Holdable.{is_next_scene as is_good_lem};

    ghost printed = { printed_lem };

    ghost is_good = { is_good_lem };

    #[tactic(auto, unfolding(crate::specs::Printed::next_scene))]
    fn print(&self, out: &mut Vec<u8>) -> Result<(), TextError> {
        put_opening(out)?;
        put_name(out, &self.name)?;
        put_integer(out, self.weight)?;
        put_closing(out)?;
        Ok(())
    }
}
