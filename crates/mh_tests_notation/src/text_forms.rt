//! The textual notation: each shape of an attribute's value and each kind of an action's parameter,
//! good and bad.
use crate::cases::all_hold;
use crate::text::{Written, reading};
use mh_cases::repeated;
use std::alloc::Global;

/// What stands before a part of a group, and behind it.
pub type Frame = (&'static [u8], &'static [u8]);

/// The place of an ingredient.
pub static ITEMS: Frame = (br#"{:Scene ("~/a" 0) :Items ("#, b") }");

/// The place of an action.
pub static START_UP: Frame = (br#"{:Scene ("~/a" 0) :OnStartUp ("#, b") }");

/// The place of a colour.
pub static FILL: Frame = (
    br#"{:Application ("~/a" 0) :Items ( {:Rectangle 1 :OrigRefFillColour     "#,
    b" :OrigBoxSize 1 1 } ) }",
);

/// The number of the refusal, and its offset from the part's beginning, if there is one.
pub fn reading_within(alloc: Global, frame: &Frame, part: &[u8]) -> Option<Vec<u8>> {
    let (before, behind) = frame;
    let text = repeated(alloc, *before, part, 1, *behind).ok()?;
    reading(alloc, text.as_slice(), frame.0.len())
}

/// Ingredients. Those that are refused stand with the number and the offset from their beginning.
static OBJECTS: &str = r#"
object {:BooleanVar 1 :OrigValue true} => read;;
object {:IntegerVar 1 :OrigValue -2147483648} => read;;
object {:OStringVar 1 :OrigValue "abc"} => read;;
object {:OStringVar 1 :OrigValue '=00=ff'} => read;; object {:OStringVar 1 :OrigValue ""} => read;;
object {:ObjectRefVar 1 :OrigValue 0} => read;;
object {:ObjectRefVar 1 :OrigValue ("~/b" 7)} => read;;
object {:ContentRefVar 1 :OrigValue :ContentRef ("~/t.txt")} => read;;
object {:Text 1 :OrigBoxSize 1 1 :OrigContent "abc" :HJustification start :TextWrapping false} => read;;
object {:Text 1 :OrigBoxSize 1 1 :OrigContent :ContentRef("~/t.txt") :HJustification centre} => read;;
object {:Text 1 :OrigBoxSize 1 1 :HJustification end :TextColour '=00=00=00=00'} => read;;
object {:EntryField 1 :OrigBoxSize 1 1 :MaxLength 1} => read;;
object {:EntryField 1 :OrigBoxSize 1 1 :MaxLength 255} => read;;
object {:PushButton 1 :OrigBoxSize 1 1 :OrigLabel "ok" :StdID '=01'} => read;;
object {:TokenGroup 1} => read;; object {:TokenGroup 1 :MovementTable ( )} => read;;
object {:TokenGroup 1 :MovementTable ((1 2 3)() (-4))} => read;;
object {:TokenGroup 1 :TokenGroupItems ((2) (3 ()) (("~/b" 4) (:Run(5)) ()))} => read;;
object {:ListGroup 1 :Positions ( )} => read;;
object {:ListGroup 1 :Positions ((0 0) (-1 2)) :TokenGroupItems ((2) (("~/b" 3)))} => read;;
object {:ResidentPrg 1 :Name "GCD"} => read;;
object {:Stream 1 :NextScenes (("~/s" 3) ("~/t" -1))} => read;;
object {:Stream 1 :NextScenes ()} => read;;
object {:Link 1 :EventSource 2 :EventType IsDeselected :EventData false :LinkEffect ()} => read;;
object {:DynamicLineArt 1 :OrigBoxSize 1 1 :OrigRefLineColour "abcd"} => read;;
object {:BooleanVar 1 :OrigValue 1} => 21 26;; object {:IntegerVar 1 :OrigValue true} => 21 26;;
object {:OStringVar 1 :OrigValue 5} => 21 26;; object {:ObjectRefVar 1 :OrigValue "abc"} => 21 28;;
object {:ObjectRefVar 1 :OrigValue ("~/b" -7)} => 23 35;;
object {:ContentRefVar 1 :OrigValue "~/t.txt"} => 21 29;;
object {:ContentRefVar 1 :OrigValue :ContentRef "~/t.txt"} => 21 41;;
object {:ContentRefVar 1 :OrigValue :ContentRef ("~/t" 0)} => 21 48;;
object {:ContentRefVar 1 :OrigValue :ContentRef ('a')} => 21 42;; object {:IntegerVar 1 } => 21 15;;
object {:Text 1 :OrigBoxSize 1 1 :OrigContent true} => 21 39;;
object {:Text 1 :OrigBoxSize 1 1 :OrigContent :IndirectRef 2} => 21 39;;
object {:Text 1 :OrigBoxSize 1 1 :HJustification UserInput} => 21 42;;
object {:Text 1 :OrigBoxSize 1 1 :HJustification middle} => 22 42;;
object {:Text 1 :OrigBoxSize 1 1 :TextWrapping centre} => 21 40;;
object {:Text 1 :OrigBoxSize 1 1 :TextColour '=00'} => 23 38;;
object {:EntryField 1 :OrigBoxSize 1 1 :MaxLength 0} => 23 43;;
object {:EntryField 1 :OrigBoxSize 1 1 :MaxLength 256} => 23 43;;
object {:EntryField 1 :OrigBoxSize 1 1 :MaxLength -1} => 23 43;;
object {:PushButton 1 :OrigBoxSize 1 1 :OrigLabel true} => 21 43;;
object {:PushButton 1 :OrigBoxSize 1 1 :OrigLable "ok"} => 22 32;;
object {:TokenGroup 1 :MovementTable 1} => 21 30;;
object {:TokenGroup 1 :MovementTable (1)} => 21 31;;
object {:TokenGroup 1 :MovementTable ((1 true))} => 21 34;;
object {:TokenGroup 1 :MovementTable ((2147483648))} => 23 32;;
object {:TokenGroup 1 :TokenGroupItems (2)} => 21 33;;
object {:TokenGroup 1 :TokenGroupItems (())} => 21 34;;
object {:TokenGroup 1 :TokenGroupItems ((2 3))} => 21 36;;
object {:TokenGroup 1 :TokenGroupItems ((2 (3)))} => 21 37;;
object {:ListGroup 1 :Positions () :TokenGroupItems ((2 ()))} => 21 49;;
object {:ListGroup 1 :TokenGroupItems ()} => 21 33;;
object {:ListGroup 1 :Positions ((1))} => 21 28;;
object {:ListGroup 1 :Positions ((1 2 3))} => 21 31;;
object {:ListGroup 1 :Positions (1 2)} => 21 26;; object {:ResidentPrg 1 :Name true} => 21 22;;
object {:ResidentPrg 1 } => 21 16;; object {:Stream 1 :NextScenes ((1 2))} => 21 25;;
object {:Stream 1 :NextScenes (("~/s" "a"))} => 21 31;;
object {:Stream 1 :NextScenes (("~/s" 1 2))} => 21 33;; object {:Stream 1 :Name "a"} => 21 11;;
object {:Rectangle 1 :TextColour '=00=00=00=00'} => 21 14"#;

#[test]
fn values_of_attributes(rt: HostRuntime) {
    all_hold::<Written>(&rt, rt.alloc(), OBJECTS);
}

/// Actions. Those that are refused stand with the number and the offset from their beginning.
static ACTIONS: &str = r#"
action :SetInteractionStatus (1 true) => read;;
action :SetInteractionStatus (1 :IndirectRef 2) => read;;
action :SetInteractionStatus (:IndirectRef ("~/b" 2) :IndirectRef ("~/b" 0)) => read;;
action :Add (1 :IndirectRef 2) => read;; action :Add (1 -3) => read;;
action :Append (1 "ab") => read;; action :Append (1 'ab') => read;;
action :Append (1 :IndirectRef 2) => read;; action :PutBefore (1 2) => read;;
action :PutBefore (1 ("~/b" 2)) => read;; action :PutBefore (1 :IndirectRef 2) => read;;
action :SetData (1 "ab") => read;; action :SetData (1 :ContentRef ("~/t")) => read;;
action :SetData (1 :IndirectRef 2) => read;; action :SendEvent (0 1 EngineEvent) => read;;
action :SendEvent (0 1 EngineEvent true) => read;;
action :SendEvent (0 :IndirectRef 3 EngineEvent 5) => read;;
action :SendEvent (0 1 EngineEvent :IndirectRef 2) => read;; action :SetTimer (0 1) => read;;
action :SetTimer (0 1 1000) => read;; action :SetTimer (0 1 :IndirectRef 7 false) => read;;
action :GetRunningStatus (1 2) => read;; action :GetPosition (1 2 ("~/b" 3)) => read;;
action :SetVariable (1 :GBoolean true) => read;;
action :SetVariable (1 :GBoolean :IndirectRef 2) => read;;
action :SetVariable (1 :GInteger 5) => read;;
action :SetVariable (1 :GInteger :IndirectRef 2) => read;;
action :SetVariable (1 :GOctetString "a") => read;;
action :SetVariable (1 :GOctetString :IndirectRef 2) => read;;
action :SetVariable (1 :GObjectRef 2) => read;;
action :SetVariable (1 :GObjectRef ("~/b" 0)) => read;;
action :SetVariable (1 :GObjectRef :IndirectRef 2) => read;;
action :SetVariable (1 :GContentRef :ContentRef ("~/t")) => read;;
action :SetVariable (1 :GContentRef :IndirectRef 2) => read;;
action :TestVariable (1 2 :GBoolean false) => read;; action :Call (1 2 ()) => read;;
action :Fork (1 2 (:GInteger 1 :GBoolean :IndirectRef 4 :GContentRef :ContentRef ("~/t"))) => read;;
action :SetInteractionStatus (1 5) => 21 25;; action :SetInteractionStatus (1) => 21 24;;
action :SetInteractionStatus (1 true true) => 21 30;;
action :SetInteractionStatus (1 :IndirectRef true) => 21 38;;
action :SetInteractionStatus (1 :IndirectRef :IndirectRef 2) => 21 38;;
action :SetInteractionStatus (1 :IndirectRef -2) => 23 38;; action :Add (1 true) => 21 8;;
action :Append (1 5) => 21 11;; action :PutBefore (1 true) => 21 14;;
action :SetData (1 5) => 21 12;; action :SetData (1 :ContentRef 5) => 21 24;;
action :SendEvent (0 1) => 21 15;; action :SendEvent (0 1 5) => 21 16;;
action :SendEvent (0 1 :IndirectRef 5) => 21 16;; action :SendEvent (0 1 Engine) => 22 16;;
action :SendEvent (0 1 EngineEvent "a") => 21 28;;
action :SendEvent (0 1 EngineEvent 5 5) => 21 30;; action :SetTimer (0) => 21 12;;
action :SetTimer (0 1 true) => 21 15;; action :SetTimer (0 1 2 3) => 21 17;;
action :SetTimer (0 1 2 true 3) => 21 22;; action :SetTimer (0 1 2 true :Run(1)) => 21 22;;
action :GetRunningStatus (1 :IndirectRef 2) => 21 21;; action :GetRunningStatus (1) => 21 20;;
action :GetPosition (1 2) => 21 17;; action :SetVariable (1 5) => 21 16;;
action :SetVariable (1 :GBoolean 5) => 21 26;; action :SetVariable (1 :GInteger true) => 21 26;;
action :SetVariable (1 :GOctetString 5) => 21 30;;
action :SetVariable (1 :GObjectRef true) => 21 28;;
action :SetVariable (1 :GContentRef "~/t") => 21 29;;
action :SetVariable (1 :GContentRef ("~/t")) => 21 29;;
action :SetVariable (1 :GString "a") => 22 16;;
action :SetVariable (1 :ContentRef ("~/t")) => 21 16;; action :SetVariable (1 :GInteger) => 21 25;;
action :Call (1 2) => 21 10;; action :Call (1 2 :GInteger 1) => 21 11;;
action :Call (1 2 (1)) => 21 12;; action :Call (1 2 (:GInteger 1) ()) => 21 25;;
action :GInteger (1) => 21 0;; action :IndirectRef (1) => 21 0;; action :ContentRef (1) => 21 0;;
action :MaxLength (1) => 21 0;; action :Rum (1) => 22 0;; action :Run (true) => 21 6"#;

#[test]
fn parameters_of_actions(rt: HostRuntime) {
    all_hold::<Written>(&rt, rt.alloc(), ACTIONS);
}

/// Colours, and why they are refused at their beginning, if they are.
static COLOURS: &str = r#"
colour '=FF=00=00=00' => read;; colour '=fF=000b' => read;; colour "=41b" => read;;
colour 'abc' => 23 0;; colour '=4' => 20 0;; colour 'abcd => 20 0"#;

#[test]
fn reads_octets(rt: HostRuntime) {
    all_hold::<Written>(&rt, rt.alloc(), COLOURS);
}
