//! Services: names that come twice, many groups, and what objects hold.
use crate::cases::all_hold;
use crate::machine::service::answer;
use mh_base::{GroupName, ObjRef, Seq, Value};
use mh_cases::{Named, Question, add_named, are, named, number, said, word};
use mh_group::Attribute;
use mh_model::{Fixed, FixedPart, Held, Target};
use mh_service::{Service, double_name, resolving};
use std::alloc::Global;

/// Names of one letter, and the first that came before.
static LETTERS: &str = r#"
 => -;; abc => -;; aa => a;; abcb => b;; abcba => b"#;

const SCENE: &str = r#"{:Scene ("~/other" 0) :OnStartUp () :Items () }"#;

/// Puts scenes of these letters.
fn add_scenes(alloc: Global, files: &mut Vec<Named>, letters: &str) -> Option<()> {
    for letter in letters.chars() {
        let file = format!(in alloc; "{letter} {SCENE}").ok()?;
        add_named(alloc, files, file.as_str())?;
    }
    Some(())
}

/// The first name that came before, or a dash.
fn name_twice(alloc: Global, files: &[Named]) -> Option<Vec<u8>> {
    match double_name(alloc, files).ok()? {
        Some(name) => said(alloc, name.as_bytes()),
        None => said(alloc, b"-"),
    }
}

struct Letters;

impl Question for Letters {
    fn answer(alloc: Global, asked: &str, _: &[u8]) -> Option<Vec<u8>> {
        let mut files = Vec::new(alloc);
        let added = add_scenes(alloc, &mut files, asked);
        added.and(name_twice(alloc, files.as_slice()))
    }
}

#[test]
fn finds_names_that_came_before(rt: HostRuntime) {
    all_hold::<Letters>(&rt, rt.alloc(), LETTERS);
}

/// Puts an application and so many scenes.
fn add_crowd(alloc: Global, files: &mut Vec<Named>, count: u32) -> Option<()> {
    add_named(alloc, files, APPLICATION)?;
    for i in 0..count {
        let file = format!(in alloc; "s{i} {SCENE}").ok()?;
        add_named(alloc, files, file.as_str())?;
    }
    Some(())
}

const APPLICATION: &str = r#"a {:Application ("~/other" 0) :OnStartUp () :Items () }"#;

fn answer_of_crowd(alloc: Global, count: u32) -> Option<Vec<u8>> {
    let mut files = Vec::new(alloc);
    let added = add_crowd(alloc, &mut files, count);
    answer(alloc, added.and(Some(files))?, "made")
}

#[test]
fn counts_groups(rt: HostRuntime) {
    // the last one that is put is s255
    assert!(rt; are(answer_of_crowd(rt.alloc(), 255), b"made"));
    assert!(rt; are(answer_of_crowd(rt.alloc(), 256), b"34 s255"));
}

/// An application, and a scene with a rectangle, a variable and a link.
static SMALL: &str = r#"a {:Application ("~/other" 0) :OnStartUp () :Items () }
@d/s {:Scene ("~/other" 0) :OnStartUp () :Items ( {:Rectangle 10 :OrigBoxSize 24 32
:OrigRefFillColour '=FF=01=02=03'} {:IntegerVar 20 :OrigValue 0} {:Link 5000 :EventSource ("x" 0)
:EventType UserInput :LinkEffect (:Add(20 1))} ) }"#;

/// References and what is asked of the object there, and the answer: the number of its class, if there is
/// an object; the colour of a rectangle; of a link the path of the group of its source and the number of
/// the target of its first action.
static FOUND: &str = r#"
a 0 class => 0;; d/s 0 class => 1;; d/s 10 class => 8;; d/s 5000 class => 2;; d/s 12 class => none;;
a 10 class => none;; s 10 class => none"#;

static HELD: &str = r#"
d/s 5000 link => d/x 20;; d/s 10 colour => 255 1 2 3"#;

/// What is answered of an object of the service.
pub fn inside(alloc: Global, service: &Service, asked: &str) -> Option<Vec<u8>> {
    let number = number(asked, 1)?;
    let group = GroupName::of_path(alloc, word(asked, 0).as_bytes()).ok()?;
    let at = ObjRef { group, number };
    match service.find(&at) {
        Some(object) => of_object(alloc, object, word(asked, 2)),
        None => said(alloc, b"none"),
    }
}

fn of_object(alloc: Global, object: &Fixed, asked: &str) -> Option<Vec<u8>> {
    let class = object.class.number();
    match asked {
        "class" => Some(format!(in alloc; "{class}").ok()?.into_bytes()),
        "link" => of_link(alloc, object),
        "colour" => of_colour(alloc, object),
        _ => None,
    }
}

/// The path of the group of the source of a link.
fn source(link: &Fixed) -> Option<&[u8]> {
    match link.properties.get(Attribute::EventSource) {
        Some(Held::Value(Value::Object(source))) => Some(source.group.as_bytes()),
        _ => None,
    }
}

/// The number of the target of the first action of a link.
fn target(link: &Fixed) -> Option<u32> {
    match link.properties.get(Attribute::LinkEffect) {
        Some(Held::Effect(effect)) => match effect.as_slice() {
            [act, ..] => match &act.target {
                Target::Direct(at) => Some(at.number),
                Target::Through(_) => None,
            },
            [] => None,
        },
        _ => None,
    }
}

fn of_link(alloc: Global, link: &Fixed) -> Option<Vec<u8>> {
    let number = target(link)?;
    let path = said(alloc, source(link)?);
    let (mut told, number) = path.zip(format!(in alloc; " {number}").ok())?;
    let put = told.extend_from_slice(number.as_bytes()).ok();
    put.and(Some(told))
}

fn of_colour(alloc: Global, object: &Fixed) -> Option<Vec<u8>> {
    let Some(Held::Colour(colour)) = object.properties.get(Attribute::OrigRefFillColour) else {
        return None;
    };
    let (red, green, blue) = (colour.red, colour.green, colour.blue);
    let last = colour.transparency;
    let told = format!(in alloc; "{red} {green} {blue} {last}").ok()?;
    Some(told.into_bytes())
}

struct Found;

impl Question for Found {
    fn answer(alloc: Global, asked: &str, _: &[u8]) -> Option<Vec<u8>> {
        let mut files = Vec::new(alloc);
        let added = add_named(alloc, &mut files, SMALL);
        answer(alloc, added.and(Some(files))?, asked)
    }
}

#[test]
fn finds_objects(rt: HostRuntime) {
    all_hold::<Found>(&rt, rt.alloc(), FOUND);
    all_hold::<Found>(&rt, rt.alloc(), HELD);
}

/// A variable whose value is as long as a colour.
const OCTETS: &str = r#"s {:Scene ("~/s" 0) :Items ( {:OStringVar 1 :OrigValue "abcd"} ) }"#;

/// Whether the value is octets, though there are four as of a colour.
fn holds_octets(objects: &[FixedPart]) -> bool {
    match objects {
        [_, variable] => match variable.get().properties.get(Attribute::OrigValue) {
            Some(Held::Value(Value::Octets(octets))) => octets.as_slice() == b"abcd".as_slice(),
            _ => false,
        },
        _ => false,
    }
}

fn resolved(alloc: Global, file: &str) -> Option<Seq<FixedPart>> {
    let (name, group) = named(alloc, file)?;
    resolving::parts(alloc, &name, group.written()).ok()
}

/// Octets are a colour where the tables want one, and nowhere else.
#[test]
fn variables_hold_octets(rt: HostRuntime) {
    match resolved(rt.alloc(), OCTETS) {
        Some(objects) => assert!(rt; holds_octets(objects.as_slice())),
        None => assert!(rt; false, "no objects"),
    }
}
