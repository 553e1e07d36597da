//! Evidence: refusals of the verifier, each of which shows what it says; and the code that the page on evidence
//! (`docs/EVIDENCE.md`) shows, as it stands there.
use crate::cases::all_hold;
use crate::judging::arrows::arrows_told;
use crate::judging::claims::{change, claimed};
use crate::machine::service::Asked;
use mh_cases::{said, word};
use mh_evidence::evidence_holds;
use mh_service::Service;
use mh_verify::{Refusal, verify};
use std::alloc::Global;

/// The number of the refusal, and whether it shows what it says. That memory was refused has the number 0 here.
fn told(alloc: Global, refusal: &Refusal) -> Option<Vec<u8>> {
    let number = refusal.kind.number().unwrap_or(0);
    let word = if evidence_holds(refusal) {
        "shown"
    } else {
        "not shown"
    };
    Some(format!(in alloc; "V{number} {word}").ok()?.into_bytes())
}

/// That the service is accepted; or the number of its refusal, and whether that shows what it says.
fn judged(alloc: Global, service: Service) -> Option<Vec<u8>> {
    let refused = verify(alloc, service, &[]).err();
    let judged = match &refused {
        None => Vec::from_slice(alloc, b"accepted").ok(),
        Some(refusal) => told(alloc, refusal),
    };
    drop(refused);
    judged
}

/// The arrows of the refusal, and whether it shows what it says.
fn with_arrows(alloc: Global, refusal: &Refusal) -> Option<Vec<u8>> {
    let arrows = arrows_told(alloc, refusal.cycle.as_slice());
    let (mut lines, shown) = arrows.zip(told(alloc, refusal))?;
    let put = lines.extend_from_slice(shown.as_slice()).ok();
    put.and(Some(lines))
}

/// What is asked about. Its owner below is generic, since a function that owns a refusal by name is dear to prove.
trait Evident {
    /// The arrows of a refusal (`arrows`), and whether it shows what it says, once it is changed where that is asked
    /// (`changed`).
    fn answer(&mut self, alloc: Global, asked: &str) -> Option<Vec<u8>>;
}

impl Evident for Refusal {
    fn answer(&mut self, alloc: Global, asked: &str) -> Option<Vec<u8>> {
        match word(asked, 0) {
            "arrows" => with_arrows(alloc, self),
            "changed" => change(alloc, self, asked).and(told(alloc, self)),
            _ => told(alloc, self),
        }
    }
}

/// What is answered of a refusal; none where nothing is refused.
fn of_refusal<R: Evident + Drop>(
    alloc: Global,
    refused: Option<R>,
    asked: &str,
) -> Option<Vec<u8>> {
    let mut refused = refused;
    refused.as_mut()?.answer(alloc, asked)
}

/// What is answered of a service: of its verdict (`holds`), of its refusal (`arrows`, `changed`), or of a refusal that is
/// written by hand (`claimed`).
pub fn of_evidence(alloc: Global, service: Service, asked: &str) -> Option<Vec<u8>> {
    match word(asked, 0) {
        "holds" => judged(alloc, service),
        "claimed" => of_refusal(alloc, claimed(alloc, service, asked), asked),
        _ => of_refusal(alloc, verify(alloc, service, &[]).err(), asked),
    }
}

/// Worked examples.
static EXAMPLES: &str = r#"
a rectangle that a key moves
holds @application @scene
=> accepted;;
what is not there
holds @application @absent
=> V1 shown;;
a variable of the application that takes a text of one scene along to another
holds @carrier @giver @quiet
=> V4 shown;;
a rectangle that is read out of a list and is no text
holds @application @s {:Scene ("~/s" 0) :InputEventReg 3 :Items ( {:Rectangle 10 :OrigBoxSize 24 32 :OrigPosition 12 16
:OrigLineWidth 0 :OrigRefFillColour '=FF=00=00=00' } {:ObjectRefVar 1 :OrigValue 2 } {:Text 2 :OrigBoxSize 24 16 }
{:ListGroup 3 :Positions ( ( 0 0 ) ) } {:Link 11 :EventSource 0 :EventType UserInput :EventData 100 :LinkEffect (
:AddItem (3 1 10) :GetListItem (3 1 1) :SetData (:IndirectRef 1 'X') ) } ) }
=> V5 shown;;
two links that put each other to work
holds @tests
=> V6 shown;;
what closes an application down quits it
holds @quits
=> V6 shown;;
tens of tens, six times over
holds @a {:Application ("~/a" 0) :Items ( {:PushButton 1 :OrigBoxSize 9 9} {:PushButton 2 :OrigBoxSize 9 9} {:PushButton
3 :OrigBoxSize 9 9} {:PushButton 4 :OrigBoxSize 9 9} {:PushButton 5 :OrigBoxSize 9 9} {:PushButton 6 :OrigBoxSize 9 9}
{:Link 10 :EventSource 0 :EventType IsRunning :LinkEffect (:Select(1) :Select(1) :Select(1) :Select(1) :Select(1)
:Select(1) :Select(1) :Select(1) :Select(1) :Select(1)) } {:Link 11 :EventSource 1 :EventType IsSelected :LinkEffect
(:Select(2) :Select(2) :Select(2) :Select(2) :Select(2) :Select(2) :Select(2) :Select(2) :Select(2) :Select(2)) } {:Link
12 :EventSource 2 :EventType IsSelected :LinkEffect (:Select(3) :Select(3) :Select(3) :Select(3) :Select(3) :Select(3)
:Select(3) :Select(3) :Select(3) :Select(3)) } {:Link 13 :EventSource 3 :EventType IsSelected :LinkEffect (:Select(4)
:Select(4) :Select(4) :Select(4) :Select(4) :Select(4) :Select(4) :Select(4) :Select(4) :Select(4)) } {:Link 14
:EventSource 4 :EventType IsSelected :LinkEffect (:Select(5) :Select(5) :Select(5) :Select(5) :Select(5) :Select(5)
:Select(5) :Select(5) :Select(5) :Select(5)) } {:Link 15 :EventSource 5 :EventType IsSelected :LinkEffect (:Select(6)
:Select(6) :Select(6) :Select(6) :Select(6) :Select(6) :Select(6) :Select(6) :Select(6) :Select(6)) } ) }
=> V8 shown;;
doublings
holds @a {:Application ("~/a" 0) :Items ( {:BooleanVar 1 :OrigValue true } {:BooleanVar 2 :OrigValue true }
{:BooleanVar 3 :OrigValue true } {:BooleanVar 4 :OrigValue true } {:BooleanVar 5 :OrigValue true } {:BooleanVar 6
:OrigValue true } {:BooleanVar 7 :OrigValue true } {:BooleanVar 8 :OrigValue true } {:BooleanVar 9 :OrigValue true }
{:BooleanVar 10 :OrigValue true } {:BooleanVar 11 :OrigValue true } {:BooleanVar 12 :OrigValue true } {:BooleanVar 13
:OrigValue true } {:BooleanVar 14 :OrigValue true } {:BooleanVar 15 :OrigValue true } {:BooleanVar 16 :OrigValue true
} {:BooleanVar 17 :OrigValue true } {:BooleanVar 18 :OrigValue true } {:BooleanVar 19 :OrigValue true } {:Link 101
:EventSource 1 :EventType TestEvent :LinkEffect ( :TestVariable (2 1 :GBoolean true) :TestVariable (2 1 :GBoolean
true) ) } {:Link 102 :EventSource 2 :EventType TestEvent :LinkEffect ( :TestVariable (3 1 :GBoolean true)
:TestVariable (3 1 :GBoolean true) ) } {:Link 103 :EventSource 3 :EventType TestEvent :LinkEffect ( :TestVariable (4 1
:GBoolean true) :TestVariable (4 1 :GBoolean true) ) } {:Link 104 :EventSource 4 :EventType TestEvent :LinkEffect (
:TestVariable (5 1 :GBoolean true) :TestVariable (5 1 :GBoolean true) ) } {:Link 105 :EventSource 5 :EventType
TestEvent :LinkEffect ( :TestVariable (6 1 :GBoolean true) :TestVariable (6 1 :GBoolean true) ) } {:Link 106
:EventSource 6 :EventType TestEvent :LinkEffect ( :TestVariable (7 1 :GBoolean true) :TestVariable (7 1 :GBoolean
true) ) } {:Link 107 :EventSource 7 :EventType TestEvent :LinkEffect ( :TestVariable (8 1 :GBoolean true)
:TestVariable (8 1 :GBoolean true) ) } {:Link 108 :EventSource 8 :EventType TestEvent :LinkEffect ( :TestVariable (9 1
:GBoolean true) :TestVariable (9 1 :GBoolean true) ) } {:Link 109 :EventSource 9 :EventType TestEvent :LinkEffect (
:TestVariable (10 1 :GBoolean true) :TestVariable (10 1 :GBoolean true) ) } {:Link 110 :EventSource 10 :EventType
TestEvent :LinkEffect ( :TestVariable (11 1 :GBoolean true) :TestVariable (11 1 :GBoolean true) ) } {:Link 111
:EventSource 11 :EventType TestEvent :LinkEffect ( :TestVariable (12 1 :GBoolean true) :TestVariable (12 1 :GBoolean
true) ) } {:Link 112 :EventSource 12 :EventType TestEvent :LinkEffect ( :TestVariable (13 1 :GBoolean true)
:TestVariable (13 1 :GBoolean true) ) } {:Link 113 :EventSource 13 :EventType TestEvent :LinkEffect ( :TestVariable
(14 1 :GBoolean true) :TestVariable (14 1 :GBoolean true) ) } {:Link 114 :EventSource 14 :EventType TestEvent
:LinkEffect ( :TestVariable (15 1 :GBoolean true) :TestVariable (15 1 :GBoolean true) ) } {:Link 115 :EventSource 15
:EventType TestEvent :LinkEffect ( :TestVariable (16 1 :GBoolean true) :TestVariable (16 1 :GBoolean true) ) } {:Link
116 :EventSource 16 :EventType TestEvent :LinkEffect ( :TestVariable (17 1 :GBoolean true) :TestVariable (17 1
:GBoolean true) ) } {:Link 117 :EventSource 17 :EventType TestEvent :LinkEffect ( :TestVariable (18 1 :GBoolean true)
:TestVariable (18 1 :GBoolean true) ) } {:Link 118 :EventSource 18 :EventType TestEvent :LinkEffect ( :TestVariable
(19 1 :GBoolean true) :TestVariable (19 1 :GBoolean true) ) } {:Link 119 :EventSource 0 :EventType IsRunning
:LinkEffect ( :TestVariable (1 1 :GBoolean true) ) } ) }
=> V8 shown"#;

/// What is wrong at a place.
static PLACES: &str = r#"
a variable is not moved
holds @application @s {:Scene ("~/s" 0) :OnStartUp (:SetPosition(20 1 1)) :Items ( {:IntegerVar 20 :OrigValue 0} ) }
=> V2 shown;;
no such scene
holds @a {:Application ("~/a" 0) :OnStartUp (:TransitionTo(("~/x" 0))) }
=> V1 shown;;
a member of a token group that is not there
holds @a {:Application ("~/a" 0) :Items ( {:TokenGroup 1 :MovementTable ( ( 1 ) ) :TokenGroupItems ( (98) ) } ) }
=> V1 shown;;
one that cannot be seen
holds @a {:Application ("~/a" 0) :Items ( {:TokenGroup 1 :MovementTable ( ( 1 ) ) :TokenGroupItems ( (2) ) }
{:IntegerVar 2 :OrigValue 0 } ) }
=> V2 shown;;
an operator through a variable
holds @a {:Application ("~/a" 0) :OnStartUp (:TestVariable(2 :IndirectRef 3 :GInteger 0)) :Items ( {:IntegerVar 2
:OrigValue 0 } {:IntegerVar 3 :OrigValue 1 } ) }
=> V3 shown;;
a value of another kind than what is held takes
holds @a {:Application ("~/a" 0) :OnStartUp ( :SetVariable (:IndirectRef 1 :GInteger 5) ) :Items ( {:ObjectRefVar 1
:OrigValue 2 } {:BooleanVar 2 :OrigValue true } ) }
=> V3 shown;;
a variable of another kind, as the value of one that is held
holds @a {:Application ("~/a" 0) :OnStartUp ( :SetVariable (:IndirectRef 1 :GObjectRef :IndirectRef 2) ) :Items (
{:ObjectRefVar 1 :OrigValue 1 } {:IntegerVar 2 :OrigValue 0 } ) }
=> V3 shown;;
an answer that another variable cannot receive
holds @a {:Application ("~/a" 0) :OnStartUp (:GetLabel(1 2)) :Items ( {:PushButton 1 :OrigBoxSize 24 16 } {:IntegerVar 2
:OrigValue 0 } ) }
=> V3 shown;;
a target through a variable of numbers
holds @a {:Application ("~/a" 0) :OnStartUp ( :Run (:IndirectRef 1) ) :Items ( {:IntegerVar 1 :OrigValue 0 } ) }
=> V3 shown;;
the id of a timer is held by a variable
holds @a {:Application ("~/a" 0) :OnStartUp ( :SetTimer (0 :IndirectRef 1 5) ) :Items ( {:IntegerVar 1 :OrigValue 0 } ) }
=> V7 shown;;
a program that there is not
holds @a {:Application ("~/a" 0) :OnStartUp (:Call(1 2 ())) :Items ( {:ResidentPrg 1 :Name 'XYZ'} {:BooleanVar 2
:OrigValue false} ) }
=> V9 shown"#;

/// How a reference came somewhere.
static CHAINS: &str = r#"
a variable that refers to what is not there from the start
holds @a {:Application ("~/a" 0) :OnStartUp ( :Run (:IndirectRef 1) ) :Items ( {:ObjectRefVar 1 :OrigValue 99 } ) }
=> V4 shown;;
a parameter through a variable
holds @a {:Application ("~/a" 0) :OnStartUp ( :PutBefore (10 :IndirectRef 1) ) :Items ( {:ObjectRefVar 1 :OrigValue 1 }
{:Rectangle 10 :OrigBoxSize 24 32 } ) }
=> V5 shown;;
a variable that is set through a variable
holds @a {:Application ("~/a" 0) :OnStartUp ( :SetVariable (:IndirectRef 2 :GObjectRef 99) :SetPosition (:IndirectRef 1 2
3) ) :Items ( {:ObjectRefVar 1 :OrigValue 10 } {:ObjectRefVar 2 :OrigValue 1 } {:Rectangle 10 :OrigBoxSize 24 32 } ) }
=> V4 shown;;
through two transitions, from variable to variable
holds @a {:Application ("~/a" 0) :OnStartUp ( :TransitionTo (("~/p" 0)) ) :Items ( {:ObjectRefVar 1 :OrigValue 3 }
{:ObjectRefVar 2 :OrigValue 3 } {:Rectangle 3 :OrigBoxSize 24 32 } ) } @p {:Scene ("~/p" 0) :OnStartUp ( :SetVariable
(("~/a" 1) :GObjectRef 10) :TransitionTo (("~/q" 0)) ) :Items ( {:Rectangle 10 :OrigBoxSize 24 32 } ) } @q {:Scene
("~/q" 0) :OnStartUp ( :SetVariable (("~/a" 2) :GObjectRef :IndirectRef ("~/a" 1)) :TransitionTo (("~/r" 0)) ) }
@r {:Scene ("~/r" 0) :OnStartUp ( :SetPosition (:IndirectRef ("~/a" 2) 1 1) ) }
=> V4 shown;;
put into a list, read out of it, and handed on
holds @application @s {:Scene ("~/s" 0) :Items ( {:Rectangle 10 :OrigBoxSize 24 32 } {:ObjectRefVar 1 :OrigValue 2 }
{:Text 2 :OrigBoxSize 24 16 } {:ListGroup 3 :Positions ( ( 0 0 ) ) } {:ObjectRefVar 4 :OrigValue 2 } {:Link 11
:EventSource 0 :EventType UserInput :LinkEffect ( :AddItem (3 1 10) :GetListItem (3 1 1) :SetVariable (4 :GObjectRef
:IndirectRef 1) :SetData (:IndirectRef 4 'X') ) } ) }
=> V5 shown;;
a cell that is read out of a list which a variable refers to
holds @application @s {:Scene ("~/s" 0) :Items ( {:Rectangle 10 :OrigBoxSize 24 32 } {:ObjectRefVar 1 :OrigValue 2 }
{:Text 2 :OrigBoxSize 24 16 } {:ListGroup 3 :TokenGroupItems ( (10) ) :Positions ( ( 0 0 ) ) } {:ObjectRefVar 4
:OrigValue 3 } {:Link 11 :EventSource 0 :EventType UserInput :LinkEffect ( :GetCellItem (:IndirectRef 4 1 1) :SetData
(:IndirectRef 1 'X') ) } ) }
=> V5 shown;;
a list of the application that takes along what is left behind
holds @a {:Application ("~/a" 0) :OnStartUp ( :TransitionTo (("~/p" 0)) ) :Items ( {:ListGroup 3 :Positions ( ( 0 0 ) ) }
) } @p {:Scene ("~/p" 0) :OnStartUp ( :AddItem (("~/a" 3) 1 10) :TransitionTo (("~/q" 0)) ) :Items ( {:Rectangle 10
:OrigBoxSize 24 32 } ) } @q {:Scene ("~/q" 0) }
=> V4 shown;;
an item from the start that cannot be seen
holds @application @s {:Scene ("~/s" 0) :Items ( {:ListGroup 3 :TokenGroupItems ( (4) ) :Positions ( ( 0 0 ) ) }
{:IntegerVar 4 :OrigValue 0 } ) }
=> V5 shown"#;

#[test]
fn shows_what_is_refused(rt: HostRuntime) {
    all_hold::<Asked>(&rt, rt.alloc(), EXAMPLES);
    all_hold::<Asked>(&rt, rt.alloc(), PLACES);
    all_hold::<Asked>(&rt, rt.alloc(), CHAINS);
}
