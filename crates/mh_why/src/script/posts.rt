//! Which lines of a script were refused when they were posted: those behind the last step or picture of
//! which the output tells, as far as they can be refused by the number that is told.
ghost use Rattle.std.specs.Prelude.{◌≡◌, ◌<◌, ◌≤◌, ◌+◌, ◌++◌, ◌-◌, ◌^◌, IfOk, OnOk, drop, length, take};
ghost use Rattle.std.specs.List.{flat_map};
ghost use Rattle.std.specs.Option.{option_copied};
ghost use Rattle.bstr.specs.Text.{lines_of};
ghost use Rattle.mh_why.specs.Posts.{behind_stop, passed_length, post_of, post_text, posts_from, posts_text, posts_told, posts_words, script_behind, script_bytes, some_posts, up_to_stop, zero_text};

use crate::explanation::words::first_word;
use crate::files::named_file::NamedFile;
use crate::place::{put_place, without_terminator};
use crate::script::refusals::{can_be_refused, is_stop};
use crate::wrap::put_paragraph;
use bstr::ByteSlice;
use mh_told::text::Text;
use std::alloc::{AllocError, Global};

/// How many lines are shown at most.
const MOST: usize = 3;

pub const IS_THIS: &[u8] = b"  It is this line of the script.";

pub const ONE_OF: &[u8] = b"  It is one of these lines of the script, which were posted then.";

pub const FIRST_OF: &[u8] =
    b"  It is one of many lines of the script, which were posted then. These are the first.";

pub const IS_ZERO: &[u8] = b"  A tick of 0 milliseconds is refused.";

/// What is left of the script behind a line of the output.
pub(crate) fn script_behind<'a>(left: &'a [u8], line: &[u8]) -> &'a [u8]
    ensures { result.now ≡ script_behind left.now line.now }
{
    if first_word(line) == b"did".as_slice() {
        return behind_stop(left);
    }
    if first_word(line) == b"frame".as_slice() {
        return behind_stop(left);
    }
    left
}

/// The script, before the first line of the output.
pub(crate) fn script_bytes<'a>(script: Option<&'a NamedFile<'a>>) -> &'a [u8]
    ensures { result.now ≡ script_bytes (option_copied script.entry) }
{
    match script {
        Some(file) => file.bytes,
        None => &[],
    }
}

/// Puts the lines that can have been refused by this number, where so much is left of the script.
pub(crate) fn put_posts(
    alloc: Global,
    text: &mut Text,
    script: Option<&NamedFile<'_>>,
    left: &[u8],
    number: &[u8],
) -> Result<(), AllocError>
    ensures { OnOk result (text.new ≡ text.old ++ posts_told (option_copied script.entry) left.now number.now) }
{
    match script {
        Some(file) => put_posts_of(alloc, text, file, left, number),
        None => Ok(()),
    }
}

fn put_posts_of(
    alloc: Global,
    text: &mut Text,
    file: &NamedFile<'_>,
    left: &[u8],
    number: &[u8],
) -> Result<(), AllocError>
    ensures { OnOk result (text.new ≡ text.old ++ posts_text file.now (posts_from number.now (length file.now.bytes - length left.now) (lines_of left.now))) }
{
    let start = file.bytes.len().saturating_sub(left.len());
    let posts = posts_in(alloc, number, start, left)?;
    put_posts_text(alloc, text, file, posts.as_slice())
}

/// Where each line begins that can have been refused, and how long it is.
#[tactic(auto, using(crate::proofs::FileLineLemmas::total_lines))]
fn posts_in(
    alloc: Global,
    number: &[u8],
    start: usize,
    left: &[u8],
) -> Result<Vec<(usize, usize)>, AllocError>
    requires { start + length left.now < 2 ^ 64 }
    ensures { IfOk result (λ posts. posts.items ≡ posts_from number.now start (lines_of left.now)) }
{
    let mut posts = Vec::new(alloc);
    let mut at = start;
    for line in left.lines_with_terminator() {
        let words = without_terminator(line);
        if is_stop(words) {
            return Ok(posts);
        }
        add_post(&mut posts, number, at, words)?;
        at += line.len();
    }
    Ok(posts)
}

fn add_post(
    posts: &mut Vec<(usize, usize)>,
    number: &[u8],
    start: usize,
    line: &[u8],
) -> Result<(), AllocError>
    ensures { OnOk result (posts.new.items ≡ posts.old.items ++ post_of number.now start line.now) }
{
    if can_be_refused(number, line) {
        posts.push((start, line.len()))?;
    }
    Ok(())
}

/// Puts these lines.
fn put_posts_text(
    alloc: Global,
    text: &mut Text,
    file: &NamedFile<'_>,
    posts: &[(usize, usize)],
) -> Result<(), AllocError>
    ensures { OnOk result (text.new ≡ text.old ++ posts_text file.now posts.now) }
{
    match posts {
        [] => Ok(()),
        _ => put_some_posts(alloc, text, file, posts),
    }
}

#[tactic(auto, unfolding(crate::specs::Posts::some_posts))]
fn put_some_posts(
    alloc: Global,
    text: &mut Text,
    file: &NamedFile<'_>,
    posts: &[(usize, usize)],
) -> Result<(), AllocError>
    ensures { OnOk result (text.new ≡ text.old ++ some_posts file.now posts.now) }
{
    put_paragraph(alloc, text, posts_words(posts.len()))?;
    put_all_posts(alloc, text, file, first_posts(posts))
}

fn posts_words(count: usize) -> &'static [u8]
    ensures { result.now ≡ posts_words count }
{
    match count {
        1 => IS_THIS,
        _ if count <= MOST => ONE_OF,
        _ => FIRST_OF,
    }
}

fn first_posts(posts: &[(usize, usize)]) -> &[(usize, usize)]
    ensures { result.now ≡ take 3 posts.now }
{
    if posts.len() > MOST {
        return &posts[..MOST];
    }
    posts
}

fn put_all_posts(
    alloc: Global,
    text: &mut Text,
    file: &NamedFile<'_>,
    posts: &[(usize, usize)],
) -> Result<(), AllocError>
    ensures { OnOk result (text.new ≡ text.old ++ flat_map (post_text file.now) posts.now) }
{
    for post in posts {
        put_post(alloc, text, file, post)?;
    }
    Ok(())
}

/// Puts a line of the script, and what is told of a tick of nothing.
#[tactic(auto, unfolding(crate::specs::Posts::post_text))]
fn put_post(
    alloc: Global,
    text: &mut Text,
    file: &NamedFile<'_>,
    post: &(usize, usize),
) -> Result<(), AllocError>
    ensures { OnOk result (text.new ≡ text.old ++ post_text file.now post.now) }
{
    put_place(alloc, text, file.name, file.bytes, post.0, post.1)?;
    put_zero(alloc, text, piece(file.bytes, post.0, post.1))
}

/// So many bytes behind so many others, as far as there are any.
fn piece(bytes: &[u8], start: usize, size: usize) -> &[u8]
    ensures { result.now ≡ take size (drop start bytes.now) }
{
    let start = start.min(bytes.len());
    let behind = &bytes[start..];
    &behind[..size.min(behind.len())]
}

fn put_zero(alloc: Global, text: &mut Text, line: &[u8]) -> Result<(), AllocError>
    ensures { OnOk result (text.new ≡ text.old ++ zero_text line.now) }
{
    if line == b"tick 0".as_slice() {
        return put_paragraph(alloc, text, IS_ZERO);
    }
    Ok(())
}

/// What of a script stands behind the next command of which the output tells: a `step`, a `run` or a
/// `show`. Nothing does where there is none.
#[tactic(auto, unfolding(crate::specs::Posts::behind_stop))]
pub fn behind_stop(bytes: &[u8]) -> &[u8]
    ensures { result.now ≡ behind_stop bytes.now }
{
    &bytes[passed_length(bytes)..]
}

/// What of a script stands before that, with the line of that command.
#[tactic(auto, unfolding(crate::specs::Posts::up_to_stop))]
pub fn up_to_stop(bytes: &[u8]) -> &[u8]
    ensures { result.now ≡ up_to_stop bytes.now }
{
    &bytes[..passed_length(bytes)]
}

/// How many bytes there are up to that command, and with its line.
#[tactic(auto, using(crate::proofs::FileLineLemmas::total_lines))]
fn passed_length(bytes: &[u8]) -> usize
    ensures exact { result ≡ passed_length (lines_of bytes.now) }
    ensures within { result ≤ length bytes.now }
{
    let mut length = 0;
    for line in bytes.lines_with_terminator() {
        length += line.len();
        if is_stop(without_terminator(line)) {
            return length;
        }
    }
    length
}
