//! Printers by type: each puts the words of one value, each behind a space, behind what a buffer holds,
//! or refuses a list that is too long; the buffer is then of no use. Lists, and values that variables
//! hold, of any such type; and the words and signs that the others are made of.
ghost use Rattle.std.specs.Prelude.{◌≡◌, ◌++◌, true, OnOk, IfErr};
ghost use Rattle.std.specs.List.{list_all, flat_map};
ghost use Rattle.mh_group.specs.Holdable.{is_reference, is_generic, is_list};
ghost use Rattle.mh_text.specs.Printed.{opening, closing, keyword, word, list, generic, reference, indirect_word, Puts};

use crate::{TextError, Why};
use mh_base::{LONGEST_LIST, Seq};
use mh_group::{Generic, Ref};
use std::alloc::AllocError;

/// The refusal of what is too long.
pub(crate) const PAST_LIMIT: TextError = TextError::At {
    why: Why::Limit,
    offset: 0,
};

/// What can be printed.
pub(crate) trait Printable {
    ghost use Rattle.std.specs.Prelude.{ℕ, Bool, List};

    ghost printed: { Self → List ℕ };

    ghost is_good: { Self → Bool };

    fn print(&self, out: &mut Vec<u8>) -> Result<(), TextError>
        ensures { Puts result out.old.items out.new.items (printed self.now) (is_good self.now) };
}

/// A list of what can be printed, between parentheses.
impl<T: Printable> Printable for Seq<T> {
    ghost use Rattle.mh_text.specs.Printed.{list};
    ghost use Rattle.mh_group.specs.Holdable.{is_list};

    ghost printed = { list T.printed };

    ghost is_good = { is_list T.is_good };

    fn print(&self, out: &mut Vec<u8>) -> Result<(), TextError> {
        print_list(out, self.as_slice())
    }
}

/// A value, written directly or held by a variable.
impl<T: Printable> Printable for Generic<T> {
    ghost use Rattle.mh_text.specs.Printed.{generic};
    ghost use Rattle.mh_group.specs.Holdable.{is_generic};

    ghost printed = { generic T.printed };

    ghost is_good = { is_generic T.is_good };

    fn print(&self, out: &mut Vec<u8>) -> Result<(), TextError> {
        print_generic(out, self)
    }
}

#[tactic(auto, unfolding(crate::specs::Printed::generic))]
fn print_generic<T: Printable>(out: &mut Vec<u8>, value: &Generic<T>) -> Result<(), TextError>
    ensures { Puts result out.old.items out.new.items
        (generic T.printed value.now) (is_generic T.is_good value.now) }
{
    match value {
        Generic::Direct(value) => value.print(out),
        Generic::Indirect(variable) => print_variable(out, variable),
    }
}

/// Prints the reference of a variable that holds a value.
fn print_variable(out: &mut Vec<u8>, variable: &Ref) -> Result<(), TextError>
    ensures { Puts result out.old.items out.new.items
        (keyword indirect_word ++ reference variable.now) (is_reference variable.now) }
{
    put_keyword(out, indirect_word())?;
    variable.print(out)
}

#[tactic(auto, unfolding(crate::specs::Printed::indirect_word))]
fn indirect_word() -> &'static [u8]
    ensures { result.now ≡ indirect_word }
{
    b"IndirectRef"
}

/// Prints the members between parentheses.
#[tactic(auto, unfolding(crate::specs::Printed::list))]
pub(crate) fn print_list<T: Printable>(out: &mut Vec<u8>, members: &[T]) -> Result<(), TextError>
    ensures { Puts result out.old.items out.new.items
        (list T.printed members.now) (is_list T.is_good members.now) }
{
    if members.len() > LONGEST_LIST {
        return Err(PAST_LIMIT);
    }
    put_opening(out)?;
    print_several(out, members)?;
    put_closing(out)?;
    Ok(())
}

/// Prints the members one after the other.
pub(crate) fn print_several<T: Printable>(out: &mut Vec<u8>, members: &[T]) -> Result<(), TextError>
    ensures { Puts result out.old.items out.new.items
        (flat_map T.printed members.now) (list_all T.is_good members.now) }
{
    for member in members {
        member.print(out)?;
    }
    Ok(())
}

#[tactic(auto, unfolding(crate::specs::Printed::word))]
pub(crate) fn put_word(out: &mut Vec<u8>, letters: &[u8]) -> Result<(), AllocError>
    ensures { OnOk result (out.new.items ≡ out.old.items ++ word letters.now) }
{
    out.push(b' ')?;
    out.extend_from_slice(letters)
}

#[tactic(auto, unfolding(crate::specs::Printed::keyword))]
pub(crate) fn put_keyword(out: &mut Vec<u8>, name: &[u8]) -> Result<(), AllocError>
    ensures { OnOk result (out.new.items ≡ out.old.items ++ keyword name.now) }
{
    out.extend_from_slice(b" :")?;
    out.extend_from_slice(name)
}

pub(crate) fn put_opening(out: &mut Vec<u8>) -> Result<(), AllocError>
    ensures { OnOk result (out.new.items ≡ out.old.items ++ opening) }
{
    out.extend_from_slice(b" (")
}

pub(crate) fn put_closing(out: &mut Vec<u8>) -> Result<(), AllocError>
    ensures { OnOk result (out.new.items ≡ out.old.items ++ closing) }
{
    out.extend_from_slice(b" )")
}
