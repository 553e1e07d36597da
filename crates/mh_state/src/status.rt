//! What is told of the status of an object, and of its numbers.
ghost use Rattle.std.specs.Prelude.{◌≡◌, ◌++◌, OnOk, []};
ghost use Rattle.mh_group.specs.Table.{is_dynamic_line_art, is_entry_field, is_list_group};
ghost use Rattle.mh_state.specs.Object as spec;

use mh_group::Class;
use mh_model::Body;
use mh_told::text::Text;
use std::alloc::AllocError;

/// Puts whether the object is available, runs and the like.
#[tactic(auto, unfolding(crate::specs::Object::status_text))]
pub fn put_status(text: &mut Text, body: &Body) -> Result<(), AllocError>
    ensures { OnOk result (text.new ≡ text.old ++ spec.status_text body.now) }
{
    put_available(text, body.available)?;
    put_running(text, body.running)?;
    put_highlighted(text, body.highlighted)?;
    put_selected(text, body.selected)?;
    put_overwriting(text, body.overwrites)
}

#[tactic(auto, unfolding(crate::specs::Object::available_line))]
fn put_available(text: &mut Text, flag: bool) -> Result<(), AllocError>
    ensures { OnOk result (text.new ≡ text.old ++ spec.available_line flag) }
{
    put_flag(text, b"available", flag)
}

#[tactic(auto, unfolding(crate::specs::Object::running_line))]
fn put_running(text: &mut Text, flag: bool) -> Result<(), AllocError>
    ensures { OnOk result (text.new ≡ text.old ++ spec.running_line flag) }
{
    put_flag(text, b"running", flag)
}

#[tactic(auto, unfolding(crate::specs::Object::highlighted_line))]
fn put_highlighted(text: &mut Text, flag: bool) -> Result<(), AllocError>
    ensures { OnOk result (text.new ≡ text.old ++ spec.highlighted_line flag) }
{
    put_flag(text, b"highlighted", flag)
}

#[tactic(auto, unfolding(crate::specs::Object::selected_line))]
fn put_selected(text: &mut Text, flag: bool) -> Result<(), AllocError>
    ensures { OnOk result (text.new ≡ text.old ++ spec.selected_line flag) }
{
    put_flag(text, b"selected", flag)
}

#[tactic(auto, unfolding(crate::specs::Object::overwriting_line))]
fn put_overwriting(text: &mut Text, flag: bool) -> Result<(), AllocError>
    ensures { OnOk result (text.new ≡ text.old ++ spec.overwriting_line flag) }
{
    put_flag(text, b"overwriting", flag)
}

fn put_flag(text: &mut Text, word: &[u8], flag: bool) -> Result<(), AllocError>
    ensures { OnOk result (text.new ≡ text.old ++ spec.flag_if flag word.now) }
{
    if flag {
        put_flag_line(text, word)
    } else {
        Ok(())
    }
}

#[tactic(auto, unfolding(crate::specs::Object::flag_line))]
fn put_flag_line(text: &mut Text, word: &[u8]) -> Result<(), AllocError>
    ensures { OnOk result (text.new ≡ text.old ++ spec.flag_line word.now) }
{
    text.put(word)?;
    text.put(b"\n")
}

/// Puts who has the token of a group of objects, where a list begins, where an entry field writes, and how much was drawn.
#[tactic(auto, unfolding(crate::specs::Object::counts_text))]
pub fn put_counts(text: &mut Text, class: Class, body: &Body) -> Result<(), AllocError>
    ensures { OnOk result (text.new ≡ text.old ++ spec.counts_text class body.now) }
{
    put_token(text, class, body.token)?;
    put_first(text, class, body.list.first())?;
    put_point(text, class, body.point)?;
    put_drawings(text, class, body.drawings.len())
}

#[tactic(auto, unfolding(crate::specs::Object::token_line))]
fn put_token(text: &mut Text, class: Class, count: usize) -> Result<(), AllocError>
    ensures { OnOk result (text.new ≡ text.old ++ spec.token_line class count) }
{
    put_count(text, class.is_token_manager(), b"token ", count)
}

#[tactic(auto, unfolding(crate::specs::Object::first_line))]
fn put_first(text: &mut Text, class: Class, count: usize) -> Result<(), AllocError>
    ensures { OnOk result (text.new ≡ text.old ++ spec.first_line class count) }
{
    put_count(text, is_list_group(class), b"first item ", count)
}

#[tactic(auto, unfolding(crate::specs::Object::point_line))]
fn put_point(text: &mut Text, class: Class, count: usize) -> Result<(), AllocError>
    ensures { OnOk result (text.new ≡ text.old ++ spec.point_line class count) }
{
    put_count(text, is_entry_field(class), b"entry point ", count)
}

#[tactic(auto, unfolding(crate::specs::Object::drawings_line))]
fn put_drawings(text: &mut Text, class: Class, count: usize) -> Result<(), AllocError>
    ensures { OnOk result (text.new ≡ text.old ++ spec.drawings_line class count) }
{
    put_count(text, is_drawing(class), b"drawings ", count)
}

fn put_count(text: &mut Text, has: bool, word: &[u8], count: usize) -> Result<(), AllocError>
    ensures { OnOk result (text.new ≡ text.old ++ spec.count_if has word.now count) }
{
    if has {
        put_count_line(text, word, count)
    } else {
        Ok(())
    }
}

fn is_list_group(class: Class) -> bool
    ensures { result ≡ is_list_group class }
{
    matches!(class, Class::ListGroup)
}

fn is_entry_field(class: Class) -> bool
    ensures { result ≡ is_entry_field class }
{
    matches!(class, Class::EntryField)
}

fn is_drawing(class: Class) -> bool
    ensures { result ≡ is_dynamic_line_art class }
{
    matches!(class, Class::DynamicLineArt)
}

#[tactic(auto, unfolding(crate::specs::Object::count_line))]
fn put_count_line(text: &mut Text, word: &[u8], count: usize) -> Result<(), AllocError>
    ensures { OnOk result (text.new ≡ text.old ++ spec.count_line word.now count) }
{
    text.put(word)?;
    text.put_number(count as u64)?;
    text.put(b"\n")
}
