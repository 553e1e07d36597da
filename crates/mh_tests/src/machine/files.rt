//! Content files that are handed to an engine, or to a machine alone: how large they may be and how many, what
//! is said first of one that is refused, and that it is handed back.
use crate::cases::all_hold;
use crate::machine::service::Asked;
use mh_base::{GroupName, Octets};
use mh_engine::Engine;
use mh_machine::{Judged, Machine, Refused, RefusedFile, RefusedWhy};
use mh_model::{File, Input, Key};
use std::alloc::Global;

/// What takes files and inputs, and makes steps.
pub trait Taking {
    fn take_file(&mut self, file: File) -> Result<(), RefusedFile>;

    fn take_input(&mut self, input: Input) -> Result<(), Refused>;

    /// Makes so many steps, or fewer where there is no more to do; none where they cannot be made.
    fn make_steps(&mut self, most: u32) -> Option<()>;
}

impl Taking for Engine {
    fn take_file(&mut self, file: File) -> Result<(), RefusedFile> {
        self.preset(file)
    }

    fn take_input(&mut self, input: Input) -> Result<(), Refused> {
        self.post(input)
    }

    fn make_steps(&mut self, most: u32) -> Option<()> {
        self.advance(most).ok()
    }
}

impl Taking for Machine {
    fn take_file(&mut self, file: File) -> Result<(), RefusedFile> {
        self.preset(file)
    }

    fn take_input(&mut self, input: Input) -> Result<(), Refused> {
        self.post(input)
    }

    fn make_steps(&mut self, most: u32) -> Option<()> {
        for _ in 0..most {
            self.step::<Judged>().ok()?;
        }
        Some(())
    }
}

/// A file of this name and of so many octets.
fn content_file(alloc: Global, name: &str, length: usize) -> Option<File> {
    let octets = vec![in alloc; b'x'; length].ok()?;
    let name = GroupName::of_path(alloc, name.as_bytes()).ok();
    let (name, content) = name.zip(Octets::from_vec(alloc, octets).ok())?;
    Some(File { name, content })
}

/// Whether it is the file of this name and of so many octets.
fn is_file(file: &File, name: &str, length: usize) -> bool {
    file.name.as_bytes() == name.as_bytes() && file.content.as_slice().len() == length
}

/// The number of the refusal, if what was refused is handed back.
fn number_if(is_back: bool, why: RefusedWhy) -> Option<u32> {
    if is_back { why.number() } else { None }
}

/// The number of the refusal, which is let go, if the input is handed back.
fn number_of(refused: Refused, is_back: bool) -> Option<u32> {
    let number = number_if(is_back, refused.why);
    drop(refused);
    number
}

/// The number of the refusal where the file is preset, which is then handed back; 0 where it is taken.
fn preset<T: Taking>(alloc: Global, taker: &mut T, name: &str, length: usize) -> Option<u32> {
    match taker.take_file(content_file(alloc, name, length)?) {
        Ok(()) => Some(0),
        Err(refused) => {
            let number = number_if(is_file(&refused.file, name, length), refused.why);
            drop(refused);
            number
        }
    }
}

fn is_arrival(input: &Input, name: &str, length: usize) -> bool {
    match input {
        Input::Arrive(file) => is_file(file, name, length),
        _ => false,
    }
}

/// The number of the refusal where the file is posted, which is then handed back; 0 where it is taken.
fn post<T: Taking>(alloc: Global, taker: &mut T, name: &str, length: usize) -> Option<u32> {
    match taker.take_input(Input::Arrive(content_file(alloc, name, length)?)) {
        Ok(()) => Some(0),
        Err(refused) => {
            let is_back = is_arrival(&refused.input, name, length);
            number_of(refused, is_back)
        }
    }
}

/// Presets a file, or posts it and takes it from the queue at once; the number of the refusal.
fn take<T: Taking>(alloc: Global, taker: &mut T, posts: bool, name: &str) -> Option<u32> {
    if !posts {
        return preset(alloc, taker, name, 1);
    }
    let number = post(alloc, taker, name, 1);
    if number == Some(0) {
        taker.make_steps(1)?;
    }
    number
}

/// Presets or posts files of the names `f0`, `f1`, .. , until so many were taken or one is refused; the
/// number of the refusal.
fn many<T: Taking>(alloc: Global, taker: &mut T, posts: bool, count: u32) -> Option<u32> {
    for at in 0..count {
        let name = format!(in alloc; "f{at}").ok()?;
        let number = take(alloc, taker, posts, name.as_str());
        if number != Some(0) {
            return number;
        }
    }
    Some(0)
}

/// The number of the refusal of a key, which is then handed back; 0 where it is taken.
pub fn key<T: Taking>(taker: &mut T) -> Option<u32> {
    match taker.take_input(Input::Key(Key::Red)) {
        Ok(()) => Some(0),
        Err(refused) => {
            let is_back = matches!(&refused.input, Input::Key(Key::Red));
            number_of(refused, is_back)
        }
    }
}

/// Posts so many keys; the number of the first refusal.
fn keys<T: Taking>(taker: &mut T, count: u32) -> Option<u32> {
    for _ in 0..count {
        let number = key(taker);
        if number != Some(0) {
            return number;
        }
    }
    Some(0)
}

/// The number of the refusal of a tick, which is then handed back; 0 where it is taken.
pub fn tick<T: Taking>(taker: &mut T, length: u32) -> Option<u32> {
    match taker.take_input(Input::Tick(length)) {
        Ok(()) => Some(0),
        Err(refused) => {
            let is_back = matches!(&refused.input, Input::Tick(back) if *back == length);
            number_of(refused, is_back)
        }
    }
}

/// What is done by one word, with a name and a number: the number of the refusal, or 0. By `step` so many
/// steps are made, or fewer where there is no more to do.
fn done<T: Taking>(alloc: Global, taker: &mut T, word: &str) -> Option<u32> {
    let (word, rest) = word.split_once(':')?;
    let (name, number) = rest.split_once(':')?;
    let number = number.parse::<u32>().ok()?;
    match word {
        "preset" => preset(alloc, taker, name, number as usize),
        "post" => post(alloc, taker, name, number as usize),
        "presets" => many(alloc, taker, false, number),
        "posts" => many(alloc, taker, true, number),
        "keys" => keys(taker, number),
        "tick" => tick(taker, number),
        "step" => taker.make_steps(number).and(Some(0)),
        _ => None,
    }
}

/// Does these words, and puts the number of the refusal of each.
fn put_refusals<T: Taking>(
    alloc: Global,
    taker: &mut T,
    told: &mut Vec<u8>,
    words: &str,
) -> Option<()> {
    for word in words.split(' ') {
        let number = done(alloc, taker, word)?;
        let gap = if told.is_empty() { "" } else { " " };
        let number = format!(in alloc; "{gap}{number}").ok()?;
        told.extend_from_slice(number.as_bytes()).ok()?;
    }
    Some(())
}

/// The numbers of the refusals where these words are done one behind the other.
pub fn refusals<T: Taking>(alloc: Global, taker: &mut T, asked: &str) -> Option<Vec<u8>> {
    let (_, words) = asked.split_once(' ')?;
    let mut told = Vec::new(alloc);
    let put = put_refusals(alloc, taker, &mut told, words);
    put.and(Some(told))
}

static LIMITS: &str = r#"
65,535 octets of a file that is preset, and one more
files preset:x:0 preset:x:65535 preset:x:65536 preset:y:65536 @empty
=> 0 0 40 40;;
65,535 octets of a file that is posted, and one more
files post:x:0 post:x:65535 post:x:65536 @empty
=> 0 0 40;;
1,024 files are preset; then those that are there alone are taken
files presets::1024 preset:x:1 preset:f0:2 preset:f1023:2 post:x:1 post:f5:1 @empty
=> 0 41 0 0 41 0;;
1,024 files are posted
files posts::1024 post:x:1 post:f0:2 post:x:1 @empty
=> 0 41 0 41;;
the 1,025th is refused where it comes
files presets::1025 @empty
=> 41;;
the 1,025th is refused where it is posted
files posts::1025 @empty
=> 41;;
names that wait in the queue are counted once
files presets::1023 post:x:1 post:y:1 post:x:2 post:f7:1 step::9 post:y:1 post:x:1 @empty
=> 0 0 41 0 0 0 41 0"#;

/// What is said first where more than one thing is wrong.
static IN_ORDER: &str = r#"
nothing is preset behind a post, or behind a step, whatever it is
files preset:x:1 post:x:1 preset:y:1 preset:y:65536 @empty
=> 0 0 59 59;;
nothing is preset behind a step
files step::1 preset:y:1 preset:y:65536 @empty
=> 0 59 59;;
a refused post is no beginning
files post:x:65536 preset:y:1 @empty
=> 40 0;;
no steps are none
files step::0 preset:y:1 @empty
=> 0 0;;
too large before too many
files presets::1024 preset:x:65536 post:x:65536 preset:x:1 @empty
=> 0 40 40 41;;
59 before too many
files presets::1024 step::1 preset:x:1 post:x:1 post:x:65536 @empty
=> 0 0 59 41 40;;
too large and too many before a full queue
files presets::1024 keys::256 post:x:65536 post:x:1 post:f0:1 @empty
=> 0 0 40 41 51;;
an end before all
files presets::1024 step::9 post:x:65536 post:x:1 post:f0:1 preset:x:1
@a {:Application ("~/a" 0) :Items ( {:Link 1 :EventSource 0 :EventType IsRunning :LinkEffect ( :Quit (0) )
} ) }
=> 0 0 52 52 52 59"#;

/// What a machine says by itself. 56 is no case: no run comes to so many steps.
static OF_A_MACHINE: &str = r#"
files that are too large, and one behind a post
machine preset:x:65535 preset:x:65536 post:x:1 post:y:65536 preset:y:1 preset:y:65536 @empty
=> 0 40 0 40 59 59;;
too many files
machine presets::1025 post:f0:2 post:x:1 @empty
=> 41 0 41;;
ticks of no length, too long, and as long as they may be
machine tick::0 tick::60001 preset:x:1 tick::60000 preset:x:1 @empty
=> 54 54 0 0 59;;
a full queue takes a tick no more than a key, and says first that the tick is too long
machine keys::256 keys::1 tick::1 tick::60001 step::3 keys::1 keys::1 @empty
=> 0 51 51 54 0 0 51;;
an end before all
machine step::9 keys::1 tick::0 post:x:65536 step::9 preset:x:1
@a {:Application ("~/a" 0) :Items ( {:Link 1 :EventSource 0 :EventType IsRunning :LinkEffect ( :Quit (0) )
} ) }
=> 0 52 52 52 0 59"#;

#[test]
fn takes_and_refuses_files(rt: HostRuntime) {
    all_hold::<Asked>(&rt, rt.alloc(), LIMITS);
    all_hold::<Asked>(&rt, rt.alloc(), IN_ORDER);
}

#[test]
fn refuses_without_an_engine(rt: HostRuntime) {
    all_hold::<Asked>(&rt, rt.alloc(), OF_A_MACHINE);
}
