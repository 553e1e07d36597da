//! What is told of the commands of a script: posts, how many steps were made, and pictures.
ghost use Rattle.std.specs.Prelude.{◌≡◌, ◌++◌, IfOk, OnOk};
ghost use Rattle.mh_trace.specs.Commands as spec;
ghost use Rattle.mh_trace.specs.Words.{input_text};

use crate::form::Form;
use crate::json::{put_member, put_more, put_name};
use crate::words::put_input;
use mh_model::{File, Input, Obstacle, Rest};
use mh_told::text::Text;
use mh_told::told;
use std::alloc::{AllocError, Global};

/// Puts a post, with why it is refused, if it is.
pub fn put_post(
    alloc: Global,
    form: Form,
    text: &mut Text,
    input: &Input,
    obstacle: Option<Obstacle>,
) -> Result<(), AllocError>
    ensures { OnOk result (text.new ≡ text.old ++ spec.post_by form input.now obstacle) }
{
    match form {
        Form::Text => put_post_line(alloc, text, input, obstacle),
        Form::Json => put_post_json(alloc, text, input, obstacle),
    }
}

#[tactic(auto, unfolding(crate::specs::Commands::post_line))]
fn put_post_line(
    alloc: Global,
    text: &mut Text,
    input: &Input,
    obstacle: Option<Obstacle>,
) -> Result<(), AllocError>
    ensures { OnOk result (text.new ≡ text.old ++ spec.post_line input.now obstacle) }
{
    text.put(b"post ")?;
    put_input(alloc, text, input)?;
    put_refused(text, obstacle)?;
    text.put(b"\n")
}

#[tactic(auto, unfolding(crate::specs::Commands::post_json))]
fn put_post_json(
    alloc: Global,
    text: &mut Text,
    input: &Input,
    obstacle: Option<Obstacle>,
) -> Result<(), AllocError>
    ensures { OnOk result (text.new ≡ text.old ++ spec.post_json input.now obstacle) }
{
    let shown = shown_input(alloc, input)?;
    text.put(b"{")?;
    put_member(text, b"post", shown.as_slice())?;
    put_refused_json(text, obstacle)?;
    text.put(b"}")?;
    text.put(b"\n")
}

fn shown_input(alloc: Global, input: &Input) -> Result<Text, AllocError>
    ensures { IfOk result (λ shown. shown ≡ input_text input.now) }
{
    let mut shown = Text::new(alloc);
    put_input(alloc, &mut shown, input)?;
    Ok(shown)
}

fn put_refused_json(text: &mut Text, obstacle: Option<Obstacle>) -> Result<(), AllocError>
    ensures { OnOk result (text.new ≡ text.old ++ spec.refused_json obstacle) }
{
    match obstacle {
        Some(obstacle) => put_more(text, b"refused", obstacle_text(obstacle)),
        None => Ok(()),
    }
}

/// Puts that a file cannot be there before the first command.
pub fn put_preset(
    form: Form,
    text: &mut Text,
    file: &File,
    obstacle: Obstacle,
) -> Result<(), AllocError>
    ensures { OnOk result (text.new ≡ text.old ++ spec.preset_by form file.now obstacle) }
{
    match form {
        Form::Text => put_preset_line(text, file, obstacle),
        Form::Json => put_preset_json(text, file, obstacle),
    }
}

#[tactic(auto, unfolding(crate::specs::Commands::preset_json))]
fn put_preset_json(text: &mut Text, file: &File, obstacle: Obstacle) -> Result<(), AllocError>
    ensures { OnOk result (text.new ≡ text.old ++ spec.preset_json file.now obstacle) }
{
    text.put(b"{")?;
    put_member(text, b"file", file.name.as_bytes())?;
    put_more(text, b"refused", obstacle_text(obstacle))?;
    text.put(b"}")?;
    text.put(b"\n")
}

#[tactic(auto, unfolding(crate::specs::Commands::preset_line))]
fn put_preset_line(text: &mut Text, file: &File, obstacle: Obstacle) -> Result<(), AllocError>
    ensures { OnOk result (text.new ≡ text.old ++ spec.preset_line file.now obstacle) }
{
    text.put(b"file ")?;
    text.put(file.name.as_bytes())?;
    text.put(b"; refused: ")?;
    text.put(obstacle_text(obstacle))?;
    text.put(b"\n")
}

fn put_refused(text: &mut Text, obstacle: Option<Obstacle>) -> Result<(), AllocError>
    ensures { OnOk result (text.new ≡ text.old ++ spec.refused_note obstacle) }
{
    match obstacle {
        Some(obstacle) => {
            text.put(b"; refused: ")?;
            text.put(obstacle_text(obstacle))
        }
        None => Ok(()),
    }
}

/// Why an input is refused.
#[tactic(auto, unfolding(crate::specs::Commands::obstacle_text))]
fn obstacle_text(obstacle: Obstacle) -> &'static [u8]
    ensures { result.now ≡ spec.obstacle_text obstacle }
{
    match obstacle {
        Obstacle::Ended => b"the application has quit",
        Obstacle::TickRange => b"a tick has 1 to 60000 milliseconds",
        Obstacle::Begun => b"the play has begun",
        Obstacle::NotLate => b"the scene is not late, or its file waits already",
        Obstacle::Differs => b"the group is not that of the service",
        Obstacle::TooLarge => b"the file is too large",
        Obstacle::TooMany => b"there are too many files",
        Obstacle::ClockFull => b"the clock is full",
        Obstacle::QueueFull => b"as many inputs wait as may",
    }
}

/// Puts that a picture is shown.
pub fn put_show(form: Form, text: &mut Text) -> Result<(), AllocError>
    ensures { OnOk result (text.new ≡ text.old ++ spec.show_by form) }
{
    match form {
        Form::Text => text.put(b"show\n"),
        Form::Json => put_show_json(text),
    }
}

#[tactic(auto, unfolding(crate::specs::Commands::show_json))]
fn put_show_json(text: &mut Text) -> Result<(), AllocError>
    ensures { OnOk result (text.new ≡ text.old ++ spec.show_json) }
{
    text.put(b"{")?;
    put_name(text, b"show")?;
    text.put(b"true}")?;
    text.put(b"\n")
}

/// Puts how many steps a command has made, and what is left to do.
pub fn put_did(form: Form, text: &mut Text, steps: u64, rest: Rest) -> Result<(), AllocError>
    ensures { OnOk result (text.new ≡ text.old ++ spec.did_by form steps rest) }
{
    match form {
        Form::Text => told::put_did(text, steps, rest),
        Form::Json => put_did_json(text, steps, rest),
    }
}

#[tactic(auto, unfolding(crate::specs::Commands::did_json))]
fn put_did_json(text: &mut Text, steps: u64, rest: Rest) -> Result<(), AllocError>
    ensures { OnOk result (text.new ≡ text.old ++ spec.did_json steps rest) }
{
    text.put(b"{")?;
    put_name(text, b"did")?;
    text.put_number(steps)?;
    put_more(text, b"left", rest_name(rest))?;
    text.put(b"}")?;
    text.put(b"\n")
}

fn rest_name(rest: Rest) -> &'static [u8]
    ensures { result.now ≡ spec.rest_name rest }
{
    match rest {
        Rest::Idle => b"idle",
        Rest::More => b"more",
        Rest::Ended => b"ended",
    }
}

/// Puts how many steps were made in all.
pub fn put_total(form: Form, text: &mut Text, steps: u64) -> Result<(), AllocError>
    ensures { OnOk result (text.new ≡ text.old ++ spec.total_by form steps) }
{
    match form {
        Form::Text => told::put_total(text, steps),
        Form::Json => put_total_json(text, steps),
    }
}

#[tactic(auto, unfolding(crate::specs::Commands::total_json))]
fn put_total_json(text: &mut Text, steps: u64) -> Result<(), AllocError>
    ensures { OnOk result (text.new ≡ text.old ++ spec.total_json steps) }
{
    text.put(b"{")?;
    put_name(text, b"total")?;
    text.put_number(steps)?;
    text.put(b"}")?;
    text.put(b"\n")
}
