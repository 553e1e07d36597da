//! Writers of the members of the lists that attributes hold: members of token groups and list groups,
//! positions, next scenes.
use crate::CodecError;
use crate::tag_table::TagTable;
use crate::writable::{PAST_LIMIT, Writable, write_several};
use crate::writing_value::{write_integer, write_name};
use mh_base::LONGEST_LIST;
use mh_der::{SEQUENCE, begin_element, end_element};
use mh_group::{Member, NextScene, Position};

impl Writable for Member {
    ghost use Rattle.mh_codec.specs.Spelling.{member as spelling_lem};
    ghost use Rattle.mh_group.specs.Holdable.{is_member as is_good_lem};

    ghost spelling = { spelling_lem };

    ghost is_good = { is_good_lem };

    #[tactic(auto, unfolding(crate::specs::Spelling::member))]
    fn write(&self, tags: &TagTable, out: &mut Vec<u8>) -> Result<(), CodecError> {
        if self.slots.len() > LONGEST_LIST {
            return Err(PAST_LIMIT);
        }
        let start = begin_element(out, SEQUENCE)?;
        self.object.write(tags, out)?;
        write_several(tags, out, self.slots.as_slice())?;
        end_element(out, start)?;
        Ok(())
    }
}

impl Writable for Position {
    ghost use Rattle.mh_codec.specs.Spelling.{position as spelling_lem};
    ghost use Rattle.mh_group.specs.Holdable.{is_position as is_good_lem};

    ghost spelling = { λ tags. spelling_lem };

    ghost is_good = { is_good_lem };

    #[tactic(auto, unfolding(crate::specs::Spelling::position))]
    fn write(&self, _tags: &TagTable, out: &mut Vec<u8>) -> Result<(), CodecError> {
        let start = begin_element(out, SEQUENCE)?;
        write_integer(out, self.x)?;
        write_integer(out, self.y)?;
        end_element(out, start)?;
        Ok(())
    }
}

impl Writable for NextScene {
    ghost use Rattle.mh_codec.specs.Spelling.{next_scene as spelling_lem};
    ghost use Rattle.mh_group.specs.Holdable.{is_next_scene as is_good_lem};

    ghost spelling = { λ tags. spelling_lem };

    ghost is_good = { is_good_lem };

    #[tactic(auto, unfolding(crate::specs::Spelling::next_scene))]
    fn write(&self, _tags: &TagTable, out: &mut Vec<u8>) -> Result<(), CodecError> {
        let start = begin_element(out, SEQUENCE)?;
        write_name(out, &self.name)?;
        write_integer(out, self.weight)?;
        end_element(out, start)?;
        Ok(())
    }
}
