//! The marks of a text: where the actions of its objects stand, and their lists of members. Its landmarks:
//! where classes, numbers of ingredients and names stand. The variables through which an action goes.
use crate::cases::all_hold;
use mh_cases::{Question, behind, number, refusal, word};
use mh_text::{Landmark, Mark, Sight, Through, landmarks, mark_of, marks, variables_at};
use std::alloc::Global;

/// A text in which much stands in another order than it is counted.
static SCENE: &[u8] = br#"{:Scene ("~/a" 0) :OnCloseDown (:Run (7) :Stop (3))
:Items ({:Link 3 :EventSource 7 :EventType UserInput :EventData 4 :LinkEffect (:SetData (9 :ContentRef ("~/t"))
:SetVariable (9 :GInteger :IndirectRef 8))}
{:TokenGroup 7 :TokenGroupItems ((11 (:Run (1) :Stop (1)) ()) (12) (("~/b" 4) () (:Run (2))))}
{:ListGroup 4 :Positions ((0 0)) :TokenGroupItems ((11) (12))}) :OnStartUp (:Stop (7) :Run (3))}"#;

/// Puts a mark behind what is told: its offset, what stands there, and its field. A hyphen is no mark.
fn put_mark(alloc: Global, told: &mut Vec<u8>, text: &[u8], mark: Option<Mark>) -> Option<()> {
    let Some(mark) = mark else {
        return told.push(b'-').ok();
    };
    let keyword = text.get(mark.start..)?.get(..mark.length)?;
    let start = format!(in alloc; "{} ", mark.start).ok()?;
    told.extend_from_slice(start.as_bytes()).ok()?;
    told.extend_from_slice(keyword).ok()?;
    told.push(b' ').ok()?;
    told.extend_from_slice(mark.field.word()).ok()
}

/// The list of members of an object, and behind it all its actions as they are counted.
fn told_of(alloc: Global, text: &[u8], object: u32) -> Option<Vec<u8>> {
    let found = marks(alloc, text).ok()?;
    let mut told = Vec::new(alloc);
    put_mark(alloc, &mut told, text, mark_of(found.as_slice(), object, 0))?;
    for index in 1..=found.len() {
        let mark = mark_of(found.as_slice(), object, index);
        if mark.is_none() {
            break;
        }
        told.extend_from_slice(b", ").ok()?;
        put_mark(alloc, &mut told, text, mark)?;
    }
    Some(told)
}

/// What is marked of the object with a number, in the scene above or in a text.
struct Marked;

impl Question for Marked {
    fn answer(alloc: Global, asked: &str, bytes: &[u8]) -> Option<Vec<u8>> {
        let object = number(asked, 0)?;
        let text = behind(asked, bytes)?;
        if text == b"scene".as_slice() {
            told_of(alloc, SCENE, object)
        } else {
            told_of(alloc, text, object)
        }
    }
}

/// Objects of a text, and their marks.
static MARKS: &str = r#"
0 {:Application ("~/a" 0) :OnStartUp (|:Run (1) :Stop|(1)\09\:Quit (0)\0d0a\:Launch (("~/b" 0))
// a \c3a9\ :Run (1)|:UnlockScreen(0):LockScreen
=> -, 37 :Run OnStartUp, 46 :Stop OnStartUp, 56 :Quit OnStartUp, 67 :Launch OnStartUp, 104 :UnlockScreen
OnStartUp, 120 :LockScreen OnStartUp;;
0 scene
=> -, 379 :Stop OnStartUp, 389 :Run OnStartUp, 32 :Run OnCloseDown, 41 :Stop OnCloseDown;;
3 scene => -, 131 :SetData LinkEffect, 164 :SetVariable LinkEffect;;
7 scene
=> 223 :TokenGroupItems TokenGroupItems, 246 :Run TokenGroupItems, 255 :Stop TokenGroupItems, 290 :Run
TokenGroupItems;;
4 scene => 336 :TokenGroupItems TokenGroupItems;; 9 scene => - -- a variable that is not there;;
0 {:Application ("~/a" 0) :OnStartUp (:Append (1 ":Run (") :Run (1))} :Oops :Stop
=> -, 36 :Append OnStartUp, 57 :Run OnStartUp;;
0 {:Application ("~/a" 0) :OnStartUp (:Append (1 "\c3a9\") :Run (1))} => -, 36 :Append OnStartUp;;
0 {:Scene ("~/a" 0) :InputEventReg 3:OnStartUp (:Run (1))} => -"#;

#[test]
fn marks_actions_and_lists(rt: HostRuntime) {
    assert!(rt; refusal(rt.alloc(), SCENE) == (0, 0));
    all_hold::<Marked>(&rt, rt.alloc(), MARKS);
}

/// What is told of a landmark: its offset, the token that stands there, and what that is.
fn put_landmark(
    alloc: Global,
    told: &mut Vec<u8>,
    text: &[u8],
    landmark: &Landmark<'_>,
) -> Option<()> {
    let token = text.get(landmark.start..)?.get(..landmark.length)?;
    let start = format!(in alloc; "{} ", landmark.start).ok()?;
    told.extend_from_slice(start.as_bytes()).ok()?;
    told.extend_from_slice(token).ok()?;
    let sight = landmark.sight;
    match sight {
        Sight::Class => told.extend_from_slice(b" class").ok(),
        Sight::Number(number) => {
            let number = format!(in alloc; " number {number}").ok()?;
            told.extend_from_slice(number.as_bytes()).ok()
        }
        Sight::Name(name) => {
            told.extend_from_slice(b" name ").ok()?;
            told.extend_from_slice(name).ok()
        }
    }
}

/// The number of a variable, and the name of its group where that is written.
fn put_variable(alloc: Global, told: &mut Vec<u8>, variable: &Through<'_>) -> Option<()> {
    let number = format!(in alloc; "{}", variable.number).ok()?;
    told.extend_from_slice(number.as_bytes()).ok()?;
    let name = variable.name;
    match name {
        Some(name) => {
            told.extend_from_slice(b" of ").ok()?;
            told.extend_from_slice(name).ok()
        }
        None => Some(()),
    }
}

/// What stands between two that are told.
fn put_comma(told: &mut Vec<u8>) -> Option<()> {
    if told.is_empty() {
        return Some(());
    }
    told.extend_from_slice(b", ").ok()
}

/// What was told, or a hyphen where that is nothing.
fn or_hyphen(mut told: Vec<u8>) -> Option<Vec<u8>> {
    if told.is_empty() {
        told.push(b'-').ok()?;
    }
    Some(told)
}

/// The landmarks of a text.
struct Landmarked;

impl Question for Landmarked {
    fn answer(alloc: Global, _asked: &str, bytes: &[u8]) -> Option<Vec<u8>> {
        let found = landmarks(alloc, bytes).ok()?;
        let mut told = Vec::new(alloc);
        for landmark in found.as_slice() {
            put_comma(&mut told)?;
            put_landmark(alloc, &mut told, bytes, landmark)?;
        }
        or_hyphen(told)
    }
}

/// The variables through which the action at an offset of a text goes.
struct Indirect;

impl Question for Indirect {
    fn answer(alloc: Global, asked: &str, bytes: &[u8]) -> Option<Vec<u8>> {
        let start = word(asked, 0).parse::<usize>().ok()?;
        let found = variables_at(alloc, behind(asked, bytes)?, start).ok()?;
        let mut told = Vec::new(alloc);
        for variable in found.as_slice() {
            put_comma(&mut told)?;
            put_variable(alloc, &mut told, variable)?;
        }
        or_hyphen(told)
    }
}

/// Texts, and their landmarks.
static LANDMARKS: &str = r#"
{:Application ("~/a" 0) :Items ({:BooleanVar 7 :OrigValue true} {:Link 3 :EventSource 7 :EventType TestEvent
:LinkEffect (:Run (5))})}
=> 1 :Application class, 33 :BooleanVar class, 45 7 number 7, 65 :Link class, 71 3 number 3;;
{:Scene ("/s" 0) :Items ({:Rectangle 4 :OrigBoxSize 1 1}// :Link 5|{:Rectangle 004 :OrigBoxSize 1 1})}
=> 1 :Scene class, 26 :Rectangle class, 37 4 number 4, 68 :Rectangle class, 79 004 number 4 -- twice;;
{:Scene ("~/a" 0) :OnStartUp (:Run (("~/b" 4)) :Launch (( "c" 0)) :Stop ((("/d/e" 5))))}
=> 1 :Scene class, 37 "~/b" name ~/b, 58 "c" name c, 75 "/d/e" name /d/e;;
{:Scene ("~/a" 0) :NextScenes (("~/b" 1) ("c" 2)) :OnStartUp (:TransitionTo (("~/d" 0)))}
=> 1 :Scene class, 78 "~/d" name ~/d -- what may come next is passed over;;
{:Scene ("~/a" 0) :OnStartUp (:SetData (9 "~/t") :SetData (9 :ContentRef ("~/u")) :SetData (9 '~/v') :PutBefore
(2 "w"))}
=> 1 :Scene class, 74 "~/u" name ~/u -- octets are no names;;
{:Scene ("~/a" 0) :OnStartUp (:Run (("~/b" 4))) :Oops :Items ({:Link 3})}
=> 1 :Scene class, 37 "~/b" name ~/b -- up to what is wrong;;
2 => -"#;

#[test]
fn finds_classes_numbers_and_names(rt: HostRuntime) {
    all_hold::<Landmarked>(&rt, rt.alloc(), LANDMARKS);
}

/// Offsets in texts, and the variables of the actions there.
static VARIABLES: &str = r#"
30 {:Scene ("~/a" 0) :OnStartUp (:Run (:IndirectRef 3) :Stop (:IndirectRef 4))} => 3;;
52 {:Scene ("~/a" 0) :OnStartUp (:Run (:IndirectRef 3) :Stop (:IndirectRef 4))} => 4;;
30 {:Scene ("~/a" 0) :OnStartUp (:SetVariable (:IndirectRef 1|:GInteger :IndirectRef ("~/b" 2)) :Run
(:IndirectRef 5))}
=> 1, 2 of ~/b;;
30 {:Scene ("~/a" 0) :OnStartUp (:Call (:IndirectRef ("c" 1) :IndirectRef 2 (:GInteger :IndirectRef 3
:GOctetString ":IndirectRef 4" :GInteger 5 :GInteger :IndirectRef 6)) :Run (:IndirectRef 7))}
=> 1 of c, 2, 3, 6;;
30 {:Scene ("~/a" 0) :OnStartUp (:Run (("~/b" 1)) :Stop (:IndirectRef 2))} => -;;
31 {:Scene ("~/a" 0) :OnStartUp (:Run (:IndirectRef 3))} => - -- no token begins there;;
30 {:Scene ("~/a" 0) :OnStartUp (:Call (:IndirectRef 1 :Oops (:IndirectRef 2)))} => 1 -- up to what is wrong"#;

#[test]
fn finds_variables_of_actions(rt: HostRuntime) {
    all_hold::<Indirect>(&rt, rt.alloc(), VARIABLES);
}
