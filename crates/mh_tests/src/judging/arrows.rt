//! Arrows: which action of an effect puts the next to work, by what, and what it grants, for cycles whose arrows were found
//! by hand.
//!
//! Of each arrow there is a line: the scene, or `-`; the object, the number of the action and its name; by what the next
//! effect is put to work, an event with its source and its data, a slot, a start-up or a close-down; and to what variables
//! are granted to refer, and which items lists to have. The last line says whether the refusal shows what it says.
use crate::cases::all_hold;
use crate::machine::service::Asked;
use mh_base::{ObjRef, Value};
use mh_cases::said;
use mh_group::event_word;
use mh_layers::{Arrow, By, Held};
use mh_model::{Config, Event};
use mh_told::text::Text;
use std::alloc::{AllocError, Global};

fn put_scene(text: &mut Text, config: &Config) -> Result<(), AllocError> {
    match &config.scene {
        Some(scene) => text.put(scene.as_bytes()),
        None => text.put(b"-"),
    }
}

/// Puts a reference, with a space before it.
fn put_reference(text: &mut Text, reference: &ObjRef) -> Result<(), AllocError> {
    text.put(b" ")?;
    text.put(reference.group.as_bytes())?;
    text.put(b" ")?;
    text.put_number(u64::from(reference.number))
}

fn put_data(text: &mut Text, data: &Option<Value>) -> Result<(), AllocError> {
    match data {
        None => text.put(b" -"),
        Some(Value::Bool(true)) => text.put(b" true"),
        Some(Value::Bool(false)) => text.put(b" false"),
        Some(Value::Int(number)) => {
            text.put(b" ")?;
            text.put_number(u64::from(number.unsigned_abs()))
        }
        Some(_) => text.put(b" another"),
    }
}

fn put_event(text: &mut Text, event: &Event) -> Result<(), AllocError> {
    text.put(event_word(event.kind))?;
    put_reference(text, &event.source)?;
    put_data(text, &event.data)
}

fn put_by(text: &mut Text, by: &By) -> Result<(), AllocError> {
    match by {
        By::Event(event) => put_event(text, event),
        By::Slot(number) => {
            text.put(b"Slot ")?;
            text.put_number(*number as u64)
        }
        By::Entered => text.put(b"Entered"),
        By::Left => text.put(b"Left"),
    }
}

fn put_held(text: &mut Text, held: &Held) -> Result<(), AllocError> {
    text.put(b" held")?;
    put_reference(text, &held.by)?;
    put_reference(text, &held.at)
}

fn put_action(text: &mut Text, arrow: &Arrow) -> Result<(), AllocError> {
    put_scene(text, &arrow.cause.config)?;
    put_reference(text, &arrow.cause.at)?;
    text.put(b" ")?;
    text.put_number(arrow.index as u64)?;
    text.put(b" ")?;
    text.put(arrow.action.word())
}

fn put_arrow(text: &mut Text, arrow: &Arrow) -> Result<(), AllocError> {
    put_action(text, arrow)?;
    text.put(b" by ")?;
    put_by(text, &arrow.by)?;
    for held in arrow.held.as_slice() {
        put_held(text, held)?;
    }
    text.put(b"\n")
}

fn put_arrows(text: &mut Text, arrows: &[Arrow]) -> Result<(), AllocError> {
    for arrow in arrows {
        put_arrow(text, arrow)?;
    }
    Ok(())
}

/// The lines of the arrows.
pub fn arrows_told(alloc: Global, arrows: &[Arrow]) -> Option<Vec<u8>> {
    let mut text = Text::new(alloc);
    put_arrows(&mut text, arrows).ok()?;
    said(alloc, text.as_slice())
}

static AT_ONCE: &str = r#"
two links that put each other to work
arrows @tests
=> - a 3 1 TestVariable by TestEvent a 2 -|- a 4 1 TestVariable by TestEvent a 1 -|V6 shown;;
the second action of one effect and the third of another, with data that both links name
arrows @a {:Application ("~/a" 0) :Items ( {:IntegerVar 1 :OrigValue 0 } {:IntegerVar 2 :OrigValue 0 } {:Link 3
:EventSource 1 :EventType TestEvent :EventData true :LinkEffect ( :Add (1 1) :TestVariable (2 1 :GInteger 0) ) }
{:Link 4 :EventSource 2 :EventType TestEvent :EventData false :LinkEffect ( :Add (2 1) :Add (2 1) :TestVariable (1 1
:GInteger 0) ) } ) }
=> - a 3 2 TestVariable by TestEvent a 2 false|- a 4 3 TestVariable by TestEvent a 1 true|V6 shown;;
the second of two slots
arrows @a {:Application ("~/a" 0) :Items ( {:TokenGroup 1 :MovementTable ( ( 1 ) ) :TokenGroupItems ( (2
(:CallActionSlot (7 1)) (:CallActionSlot (1 1))) ) } {:Rectangle 2 :OrigBoxSize 12 16 } {:TokenGroup 7 :MovementTable
( ( 1 ) ) :TokenGroupItems ( (2 (:Run (2))) ) } ) }
=> - a 1 2 CallActionSlot by Slot 1|V6 shown;;
a token that moves
arrows @a {:Application ("~/a" 0) :Items ( {:TokenGroup 1 :MovementTable ( ( 1 ) ) :TokenGroupItems ( (2) ) } {:Rectangle
2 :OrigBoxSize 12 16 } {:Link 3 :EventSource 1 :EventType TokenMovedTo :EventData 1 :LinkEffect ( :Move (1 1) ) } ) }
=> - a 3 1 Move by TokenMovedTo a 1 1|V6 shown;;
of two that a variable may refer to the second
arrows @a {:Application ("~/a" 0) :OnStartUp ( :SetVariable (1 :GObjectRef 5) ) :Items ( {:ObjectRefVar 1 :OrigValue 2 }
{:IntegerVar 2 :OrigValue 0 } {:IntegerVar 5 :OrigValue 0 } {:Link 3 :EventSource 5 :EventType TestEvent :LinkEffect (
:TestVariable (:IndirectRef 1 1 :GInteger 0) ) } ) }
=> - a 3 1 TestVariable by TestEvent a 5 - held a 1 a 5|V6 shown;;
in several configurations, by an action behind one that leads away
arrows @a {:Application ("~/a" 0) :OnStartUp ( :TransitionTo (("~/q" 0)) ) :Items ( {:IntegerVar 1 :OrigValue 0 } {:Link 4
:Shared true :EventSource 1 :EventType TestEvent :LinkEffect ( :TransitionTo (("~/p" 0)) :TestVariable (1 1 :GInteger
0) ) } ) } @p {:Scene ("~/p" 0) } @quiet
=> - a 4 2 TestVariable by TestEvent a 1 -|V6 shown"#;

static BY_LISTS: &str = r#"
an item that is put into a list when it runs
arrows @application @adds
=> s s 4 1 AddItem by IsRunning s 10 - held s 3 s 10|V6 shown;;
an item that stops with its list, and stops it
arrows @application @s {:Scene ("~/s" 0) :Items ( {:Rectangle 10 :OrigBoxSize 24 32 } {:ListGroup 3 :TokenGroupItems (
(10) ) :Positions ( ( 0 0 ) ) } {:Link 4 :EventSource 10 :EventType IsStopped :LinkEffect ( :Stop (3) ) } ) }
=> s s 4 1 Stop by IsStopped s 10 - held s 3 s 10|V6 shown;;
what tells that a list has changed
arrows @application @s {:Scene ("~/s" 0) :Items ( {:ListGroup 3 :Positions ( ( 0 0 ) ) } {:Link 4 :EventSource 3
:EventType HeadItems :LinkEffect ( :ScrollItems (3 1) ) } ) }
=> s s 4 1 ScrollItems by HeadItems s 3 -|V6 shown"#;

static BY_TRANSITIONS: &str = r#"
what closes a scene down leads to it again
arrows @a {:Application ("~/a" 0) :OnStartUp ( :TransitionTo (("~/p" 0)) ) } @p {:Scene ("~/p" 0) :InputEventReg 3
:OnCloseDown ( :TransitionTo (("~/p" 0)) ) :Items ( {:Link 11 :EventSource 0 :EventType UserInput :EventData 100
:LinkEffect ( :TransitionTo (("~/s" 0)) ) } ) } @scene
=> p p 0 1 TransitionTo by Left|V6 shown;;
what closes an application down launches it, behind its start-up
arrows @a {:Application ("~/a" 0) :OnStartUp ( :LockScreen (0) :UnlockScreen (0) ) :OnCloseDown ( :LockScreen (0) :Launch
(("~/a" 0)) ) }
=> - a 0 4 Launch by Left|V6 shown;;
two scenes whose start-ups lead to each other, one of them through a variable
arrows @a {:Application ("~/a" 0) :OnStartUp ( :TransitionTo (("~/p" 0)) ) :Items ( {:ObjectRefVar 1 :OrigValue ("~/p" 0)
} ) } @p {:Scene ("~/p" 0) :OnStartUp ( :TransitionTo (("~/q" 0)) ) } @q {:Scene ("~/q" 0) :OnStartUp ( :TransitionTo
(:IndirectRef ("~/a" 1)) ) }
=> p p 0 1 TransitionTo by Entered|q q 0 1 TransitionTo by Entered held a 1 p 0|V6 shown;;
what stops when a scene is left leads to it again
arrows @a {:Application ("~/a" 0) :OnStartUp ( :TransitionTo (("~/p" 0)) ) } @p {:Scene ("~/p" 0) :Items ( {:Rectangle
10 :OrigBoxSize 24 32 } {:Link 11 :EventSource 10 :EventType IsStopped :LinkEffect ( :TransitionTo (("~/p" 0)) ) } ) }
=> p p 11 1 TransitionTo by IsStopped p 10 -|V6 shown"#;

static BY_THE_QUEUE: &str = r#"
an event that waits is heard in another scene, and the answer here
arrows @a {:Application ("~/a" 0) :OnStartUp ( :TransitionTo (("~/p" 0)) ) } @p {:Scene ("~/p" 0) :Items ( {:Link 11
:EventSource ("~/a" 0) :EventType EngineEvent :EventData 1 :LinkEffect ( :SendEvent (("~/a" 0) ("~/a" 0) EngineEvent
2) :TransitionTo (("~/q" 0)) ) } ) } @q {:Scene ("~/q" 0) :Items ( {:Link 12 :EventSource ("~/a" 0) :EventType
EngineEvent :EventData 2 :LinkEffect ( :SendEvent (("~/a" 0) ("~/a" 0) EngineEvent 1) :TransitionTo (("~/p" 0)) ) } ) }
=> p p 11 1 SendEvent by EngineEvent a 0 2|q q 12 1 SendEvent by EngineEvent a 0 1|V6 shown;;
the source of an event is named by a variable
arrows @a {:Application ("~/a" 0) :Items ( {:ObjectRefVar 1 :OrigValue 0 } {:Link 4 :EventSource 0 :EventType EngineEvent
:EventData 5 :LinkEffect ( :SendEvent (0 :IndirectRef 1 EngineEvent 5) ) } ) }
=> - a 4 1 SendEvent by EngineEvent a 0 5 held a 1 a 0|V6 shown"#;

#[test]
fn tells_arrows(rt: HostRuntime) {
    all_hold::<Asked>(&rt, rt.alloc(), AT_ONCE);
    all_hold::<Asked>(&rt, rt.alloc(), BY_LISTS);
    all_hold::<Asked>(&rt, rt.alloc(), BY_TRANSITIONS);
    all_hold::<Asked>(&rt, rt.alloc(), BY_THE_QUEUE);
}
