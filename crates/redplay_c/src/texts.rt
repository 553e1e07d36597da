//! What each number that a call answers means, in words: those of `docs/PROFILE.md`, and those of the library's own numbers.
ghost use Rattle.std.specs.Prelude.{◌≡◌, ◌==◌, map, slice_get};
ghost use Rattle.std.specs.List.{position};
ghost use Rattle.std.specs.Option.{option_map};
ghost use Rattle.redplay_c.specs.Texts.{numbers, text_of, texts};

/// The numbers that calls answer. Each has its text at the same place of `TEXTS`.
static NUMBERS: [u32; 44] = [
    0, 1, 2, 3, 4, 5, 6, 7, 10, 11, 12, 13, 14, 20, 21, 22, 23, 24, 30, 31, 32, 33, 34, 35, 37, 40,
    41, 51, 52, 53, 54, 57, 58, 70, 71, 72, 73, 100, 101, 102, 104, 105, 106, 107,
];

static TEXTS: [&[u8]; 44] = [
    b"what was asked for is done",
    b"the bytes end before the element does, or where one is wanted",
    b"a tag's number is not in its shortest form, or is above 65,535",
    b"a length is not in its shortest form",
    b"a length is left open",
    b"an integer is missing, not in its shortest form, or past 32 bits",
    b"a truth value is neither 00 nor FF",
    b"there are bytes behind what an element, or the file, may hold",
    b"another element is wanted, or the class does not take the field",
    b"an object lacks a field that it has to have",
    b"a field comes twice, or behind one of a larger number",
    b"a file in the binary notation, or a list in it, is too long",
    b"a value stands where it may not",
    b"a byte begins no token, or a string is open",
    b"another token is wanted, or the class does not take the field, has it already, or lacks one",
    b"no table has this keyword or word",
    b"a number is past 32 bits, or a value is outside what is allowed",
    b"a file in text, or a list in it, is too long",
    b"two files have one name",
    b"no group has the name to start with",
    b"two objects of a group have one number",
    b"the group to start with is a scene",
    b"there are too many groups, objects or actions",
    b"a written name leads to no path",
    b"a line of what comes late is the name of no scene of the service",
    b"a content file has more than 65,535 octets",
    b"with the names that wait there would be more than 1,024 content files",
    b"256 inputs wait: make steps, and post again",
    b"the application has quit",
    b"with the ticks that wait, the clock would be past 4,294,967,295 milliseconds: start anew",
    b"a tick is not of 1 to 60,000 milliseconds",
    b"no file of this scene is awaited",
    b"the scene is another one than that of the service",
    b"the bytes are no seal",
    b"the seal is of another version of its notation",
    b"the file of a group is not there that the seal tells to be here from the start",
    b"the tags of the binary notation are not those of which the seal tells",
    b"memory was refused",
    b"the handle has no session",
    b"the verifier does not accept the service",
    b"no key has the number",
    b"the name of a file is no path",
    b"the handle has a session already",
    b"there is no such row, fault, day or number",
];

/// What a number means, if a call answers it.
pub fn text_of(number: u32) -> Option<&'static [u8]>
    ensures { option_map (λ text. text.now) result ≡ text_of number }
{
    match place_of(numbers(), number) {
        Some(at) => text_at(texts(), at),
        None => None,
    }
}

/// The place at which a number stands.
fn place_of(numbers: &[u32], number: u32) -> Option<usize>
    ensures { result ≡ position (λ m. m == number) numbers.now }
{
    numbers.iter().position(|it| *it == number)
}

fn text_at<'a>(texts: &[&'a [u8]], at: usize) -> Option<&'a [u8]>
    ensures { option_map (λ text. text.now) result ≡ slice_get (map (λ text. text.now) texts.now) at }
{
    texts.get(at).copied()
}

#[tactic(auto, unfolding(crate::specs::Texts::numbers))]
fn numbers() -> &'static [u32]
    ensures { result.now ≡ numbers }
{
    &NUMBERS
}

#[tactic(auto, unfolding(crate::specs::Texts::texts))]
fn texts() -> &'static [&'static [u8]]
    ensures { map (λ text. text.now) result.now ≡ texts }
{
    &TEXTS
}
