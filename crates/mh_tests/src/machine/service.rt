//! Services: which files make one, and which group is at fault where they do not.
//!
//! A case is a block of lines: what it shows; what is asked of the service that starts with `a`; and its
//! groups (`mh_cases::named`).
use crate::cases::all_hold;
use crate::judging::chains::of_flow;
use crate::judging::evidence::of_evidence;
use crate::judging::verify::verdict;
use crate::machine::engine::{of_engine, of_machine};
use crate::machine::objects::inside;
use mh_base::GroupName;
use mh_cases::{Named, Question, add_named, said, word};
use mh_service::{Service, ServiceError};
use std::alloc::Global;

/// What is answered of a service that is only looked at, and let go then.
fn looked_at(alloc: Global, service: Service, asked: &str) -> Option<Vec<u8>> {
    let told = match word(asked, 0) {
        "made" => said(alloc, b"made"),
        "held" | "reached" => of_flow(alloc, &service, asked),
        _ => inside(alloc, &service, asked),
    };
    drop(service);
    told
}

/// What is answered of a service that was made.
fn of_service(alloc: Global, service: Service, asked: &str) -> Option<Vec<u8>> {
    match word(asked, 0) {
        "verdict" => verdict(alloc, service),
        "holds" | "arrows" | "changed" | "claimed" => of_evidence(alloc, service, asked),
        "idle" | "keys" | "ticks" | "files" => of_engine(alloc, service, asked),
        "machine" => of_machine(alloc, service, asked),
        _ => looked_at(alloc, service, asked),
    }
}

/// The number of the refusal and the group at fault, or what is answered of the service.
pub fn answer(alloc: Global, files: Vec<Named>, asked: &str) -> Option<Vec<u8>> {
    let start = GroupName::of_path(alloc, b"a").ok();
    let (files, start) = Some(files).zip(start)?;
    match Service::of_files(alloc, files, start) {
        Ok(service) => of_service(alloc, service, asked),
        Err(ServiceError::Refused { why, group }) => refused(alloc, why.number(), &group),
        Err(ServiceError::NoMemory) => None,
    }
}

fn refused(alloc: Global, number: u32, group: &GroupName) -> Option<Vec<u8>> {
    let mut told = format!(in alloc; "{number} ").ok()?.into_bytes();
    let put = told.extend_from_slice(group.as_bytes()).ok();
    put.and(Some(told))
}

/// What is asked of a service, as a block tells it.
pub struct Asked;

impl Question for Asked {
    fn answer(alloc: Global, asked: &str, _: &[u8]) -> Option<Vec<u8>> {
        let (front, files) = asked.split_once('@')?;
        let (_, asked) = front.trim_end().split_once('\n')?;
        let mut groups = Vec::new(alloc);
        let added = add_named(alloc, &mut groups, files);
        answer(alloc, added.and(Some(groups))?, asked)
    }
}

/// What is refused first.
static IN_ORDER: &str = r#"
names twice, no start
made @b 0 0 {:Application ("~/other" 0) :OnStartUp () :Items () }
@s 0 0 {:Scene ("~/other" 0) :OnStartUp () :Items () }
@s 0 0 {:Scene ("~/other" 0) :OnStartUp () :Items () }
@b 0 0 {:Application ("~/other" 0) :OnStartUp () :Items () }
=> 30 s;;
no start, numbers twice
made
@b 0 0 {:Application ("~/other" 0) :Items ( {:IntegerVar 1 :OrigValue 0} {:IntegerVar 1 :OrigValue 0} )
}
=> 31 a;;
numbers twice, a scene to start with
made @a 0 0 {:Scene ("~/other" 0) :OnStartUp () :Items () }
@c 0 0 {:Application ("~/other" 0) :Items ( {:IntegerVar 1 :OrigValue 0} {:IntegerVar 2 :OrigValue 0}
{:IntegerVar 1 :OrigValue 0} ) }
@b 0 0 {:Application ("~/other" 0) :Items ( {:IntegerVar 1 :OrigValue 0} {:IntegerVar 2 :OrigValue 0}
{:IntegerVar 1 :OrigValue 0} ) }
=> 32 c;;
a scene to start with, a limit
made @a 1025 0 {:Scene ("~/other" 0) :OnStartUp () :Items () }
=> 33 a;;
a limit, a bad target
made @a 0 0 {:Application ("~/other" 0) :OnStartUp (:TransitionTo(("../x" 0))) }
@s 1025 0 {:Scene ("~/other" 0) :OnStartUp () :Items () }
=> 34 s;;
a bad target, numbers twice
made @a 0 0 {:Application ("~/other" 0) :OnStartUp (:TransitionTo(("../x" 0))) }
@s 0 0 {:Scene ("~/other" 0) :Items ( {:PushButton 1 :OrigBoxSize 12 16} {:ListGroup 1 :Positions ()} ) }
=> 32 s"#;

/// Each name is looked at.
static NAMES: &str = r#"
a bad member
made @a 0 0 {:Application ("~/other" 0) :Items ( {:TokenGroup 6000 :TokenGroupItems (((".." 0)
(:TransitionTo(("x" 0))))) } ) }
=> 35 a;;
a bad slot
made @a 0 0 {:Application ("~/other" 0) :Items ( {:TokenGroup 6000 :TokenGroupItems ((("x" 0)
(:TransitionTo(("../x" 0))))) } ) }
=> 35 a;;
targets lead somewhere
made @a 0 1 {:Application ("~/other" 0) :OnStartUp () :Items () }
@s 3 2 {:Scene ("~/other" 0) :OnStartUp () :Items () }
=> made;;
a bad target
made @a 0 0 {:Application ("~/other" 0) :OnStartUp (:TransitionTo(("../x" 0))) }
=> 35 a;;
a bad source, twice
made @s 0 0 {:Scene ("~/other" 0) :Items ( {:Link 5000 :EventSource ("x//y" 0) :EventType UserInput
:LinkEffect (:Add(20 1))} ) }
@a 0 0 {:Application ("~/other" 0) :Items ( {:Link 5000 :EventSource ("x//y" 0) :EventType UserInput
:LinkEffect (:Add(20 1))} ) }
=> 35 s;;
a bad target of a link
made @a 0 1 {:Application ("~/other" 0) :OnStartUp () :Items () }
@s 3 0 {:Scene ("~/other" 0) :Items ( {:Link 5000 :EventSource ("x" 0) :EventType UserInput :LinkEffect
(:Add(("~/y/" 0) 1))} ) }
=> 35 s;;
a bad indirect target
made @a 0 0 {:Application ("~/other" 0) :OnStartUp (:TransitionTo(:IndirectRef (".." 0))) }
=> 35 a"#;

/// Whatever a group may hold is taken.
static TAKEN: &str = r#"
a token group with a slot
made @a 0 0 {:Application ("~/other" 0) :Items ( {:TokenGroup 6000 :TokenGroupItems ((("x" 0)
(:TransitionTo(("x" 0))))) } ) }
=> made;;
a list, a field and a button
made @a 0 0 {:Application ("~/other" 0) :Items ( {:ListGroup 1 :TokenGroupItems ((2) (3) (9)) :Positions ((0
0) (0 16)) :WrapAround true :MultipleSelection true} {:EntryField 2 :OrigBoxSize 24 16 :MaxLength 2}
{:PushButton 3 :OrigBoxSize 24 16 :OrigLabel 'y'} ) }
=> made;;
what is done to a button
made @a 0 0 {:Application ("~/other" 0) :OnStartUp (:SetLabel(("x" 0) 'y') :GetLabel(1 2) :Select(1)
:Deselect(1) :SetHighlightStatus(1 true) :GetHighlightStatus(1 2)) }
=> made;;
what is done to a field of the scene
made @a 0 0 {:Application ("~/other" 0) :OnStartUp () :Items () }
@s 0 0 {:Scene ("~/other" 0) :OnStartUp (:SetInteractionStatus(("~/x" 0) true) :GetInteractionStatus(1 2)
:SetEntryPoint(1 5) :GetEntryPoint(1 2) :SetOverwriteMode(1 :IndirectRef 2)) }
=> made;;
what is done to groups of objects
made @a 0 0 {:Application ("~/other" 0) :OnStartUp (:Move(1 1) :MoveTo(1 0) :GetTokenPosition(1 2)
:CallActionSlot(1 1)) }
=> made;;
what is done to a list
made @a 0 0 {:Application ("~/other" 0) :OnStartUp (:AddItem(1 1 2) :DelItem(1 2) :ScrollItems(1 -1)
:SetFirstItem(1 1) :GetFirstItem(1 2) :SelectItem(1 1) :DeselectItem(1 1) :ToggleItem(1 1) :GetItemStatus(1
1 2) :GetListItem(1 1 2) :GetListSize(1 2) :GetCellItem(1 1 2)) }
=> made;;
an indirect target
made @a 0 0 {:Application ("~/other" 0) :OnStartUp () :Items () }
@s 0 0 {:Scene ("~/other" 0) :OnStartUp (:TransitionTo(:IndirectRef ("~/x" 0))) }
=> made;;
two applications and three scenes
made @b 0 0 {:Application ("~/other" 0) :OnStartUp () :Items () }
@a 0 0 {:Application ("~/other" 0) :OnStartUp () :Items () }
@z 0 0 {:Scene ("~/other" 0) :OnStartUp () :Items () }
@y 0 0 {:Scene ("~/other" 0) :OnStartUp () :Items () }
@x 0 0 {:Scene ("~/other" 0) :OnStartUp () :Items () }
=> made;;
launching, quitting, timers, streams and input registers
made @a 0 0 {:Application ("~/other" 0) :OnStartUp (:Launch(("~/x" 0)) :Quit(0) :SetTimer(0 1)) :Items (
{:Stream 1} ) }
@s 0 0 {:Scene ("~/other" 0) :OnStartUp (:SetInputRegister(0 3)) }
=> made"#;

/// The limits are kept.
static LIMITS: &str = r#"
65536 actions, one of them in a slot
made @a 0 65535 {:Application ("~/other" 0) :Items ( {:TokenGroup 6000 :TokenGroupItems ((("x" 0)
(:TransitionTo(("x" 0))))) } ) }
=> 34 a;;
1024 ingredients
made @a 1024 0 {:Application ("~/other" 0) :OnStartUp () :Items () }
=> made;;
1025 ingredients
made @a 0 0 {:Application ("~/other" 0) :OnStartUp () :Items () }
@s 1025 0 {:Scene ("~/other" 0) :OnStartUp () :Items () }
=> 34 s;;
4096 ingredients
made @a 1024 0 {:Application ("~/other" 0) :OnStartUp () :Items () }
@s 1024 0 {:Scene ("~/other" 0) :OnStartUp () :Items () }
@t 1024 0 {:Scene ("~/other" 0) :OnStartUp () :Items () }
@u 1024 0 {:Scene ("~/other" 0) :OnStartUp () :Items () }
@v 0 0 {:Scene ("~/other" 0) :OnStartUp () :Items () }
=> made;;
4097 ingredients
made @a 1024 0 {:Application ("~/other" 0) :OnStartUp () :Items () }
@s 1024 0 {:Scene ("~/other" 0) :OnStartUp () :Items () }
@t 1024 0 {:Scene ("~/other" 0) :OnStartUp () :Items () }
@u 1024 0 {:Scene ("~/other" 0) :OnStartUp () :Items () }
@v 1 0 {:Scene ("~/other" 0) :OnStartUp () :Items () }
=> 34 v;;
65535 actions
made @a 0 65534 {:Application ("~/other" 0) :OnStartUp () :Items () }
@s 0 1 {:Scene ("~/other" 0) :OnStartUp () :Items () }
=> made;;
65536 actions
made @a 0 65535 {:Application ("~/other" 0) :OnStartUp () :Items () }
@s 0 1 {:Scene ("~/other" 0) :OnStartUp () :Items () }
=> 34 s"#;

#[test]
fn makes_and_refuses(rt: HostRuntime) {
    all_hold::<Asked>(&rt, rt.alloc(), IN_ORDER);
    all_hold::<Asked>(&rt, rt.alloc(), NAMES);
    all_hold::<Asked>(&rt, rt.alloc(), TAKEN);
    all_hold::<Asked>(&rt, rt.alloc(), LIMITS);
}
