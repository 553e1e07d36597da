//! The lines of the script that is recorded: what is posted from a terminal, so that it can be played again.
ghost use Rattle.std.specs.Prelude.{◌≡◌, ◌++◌, codes, OnOk, IfOk};
ghost use Rattle.std.specs.Fmt.{signed_decimal};
ghost use Rattle.hex.specs.Hex.{encode_lower};
ghost use Rattle.mh_live.specs.Posts as spec;
ghost use Rattle.mh_live.specs.Replayed.{RecordsAreScripts};

use crate::post::Post;
use mh_base::GroupName;
use mh_model::{File, Key};
use mh_script::key_name;
use mh_told::text::Text;
use std::alloc::{AllocError, Global};

/// The lines of the start: its steps, and the first picture.
#[tactic(auto, unfolding(crate::specs::Posts::opening))]
pub fn opening() -> &'static [u8]
    ensures { result.now ≡ spec.opening }
{
    b"run\nshow\n"
}

/// The lines that post this, run, and print the picture unless only time has passed.
#[tactic(auto, unfolding(crate::specs::Posts::recorded))]
pub fn recorded(alloc: Global, post: &Post) -> Result<Text, AllocError>
    ensures { IfOk result (λ text. text ≡ spec.recorded post.now) }
{
    let mut text = Text::new(alloc);
    put_post(alloc, &mut text, post)?;
    text.put(b"\nrun\n")?;
    text.put(show_line(post))?;
    Ok(text)
}

/// What is recorded is read as what was posted, whatever the service is and its table of tags.
pub fn records_are_scripts()
    ensures { RecordsAreScripts }
{}

fn show_line(post: &Post) -> &'static [u8]
    ensures { result.now ≡ spec.show_line post.now }
{
    match post {
        Post::Tick(_) => b"",
        Post::Key(_) | Post::Stream(_) | Post::Engine(_) | Post::Scene(_) | Post::File(_) => {
            b"show\n"
        }
    }
}

fn put_post(alloc: Global, text: &mut Text, post: &Post) -> Result<(), AllocError>
    ensures { OnOk result (text.new ≡ text.old ++ spec.post_text post.now) }
{
    match post {
        Post::Key(key) => put_key(text, *key),
        Post::Tick(length) => put_tick(text, *length),
        Post::Stream(tag) => put_numbered(alloc, text, b"stream ", tag),
        Post::Engine(number) => put_numbered(alloc, text, b"engine ", number),
        Post::Scene(name) => put_scene(text, name),
        Post::File(file) => put_file(alloc, text, file),
    }
}

fn put_scene(text: &mut Text, name: &GroupName) -> Result<(), AllocError>
    ensures { OnOk result (text.new ≡ text.old ++ codes "scene " ++ name.now) }
{
    text.put(b"scene ")?;
    text.put(name.as_bytes())
}

#[tactic(auto, unfolding(crate::specs::Posts::file_text))]
fn put_file(alloc: Global, text: &mut Text, file: &File) -> Result<(), AllocError>
    ensures { OnOk result (text.new ≡ text.old ++ spec.file_text file.now) }
{
    text.put(b"file ")?;
    text.put(file.name.as_bytes())?;
    text.put(b" ")?;
    put_hex(alloc, text, file.content.as_slice())
}

fn put_hex(alloc: Global, text: &mut Text, octets: &[u8]) -> Result<(), AllocError>
    ensures { OnOk result (text.new ≡ text.old ++ encode_lower octets.now) }
{
    let digits = hex::encode(alloc, octets)?;
    text.put(digits.as_bytes())
}

fn put_key(text: &mut Text, key: Key) -> Result<(), AllocError>
    ensures { OnOk result (text.new ≡ text.old ++ spec.post_text (Post.Key key)) }
{
    text.put(b"key ")?;
    text.put(key_name(key))
}

#[tactic(auto, unfolding(crate::specs::Posts::tick_text))]
fn put_tick(text: &mut Text, length: u32) -> Result<(), AllocError>
    ensures { OnOk result (text.new ≡ text.old ++ spec.tick_text length) }
{
    text.put(b"tick ")?;
    text.put_number(u64::from(length))
}

fn put_numbered(alloc: Global, text: &mut Text, word: &[u8], number: &i32) -> Result<(), AllocError>
    ensures { OnOk result (text.new ≡ text.old ++ word.now ++ signed_decimal number.now) }
{
    text.put(word)?;
    put_integer(alloc, text, *number)
}

fn put_integer(alloc: Global, text: &mut Text, number: i32) -> Result<(), AllocError>
    ensures { OnOk result (text.new ≡ text.old ++ signed_decimal number) }
{
    let digits = format!(in alloc; "{number}")?;
    text.put(digits.as_bytes())
}
