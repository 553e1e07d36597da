//! Small services that several files read, write or play.

/// What each file is, its path, and what it holds: an application that goes to the scene `s`, a scene
/// with a red rectangle that a key moves, one with a key that moves what is not there, and so on; an
/// application with a text that waits for the file `x`, and one which on events of the engine (1) gives
/// its text the file `y`, (2) `x` again, (3) octets, and (4) drops it, (5) runs it, (6) stops it.
///
/// `list` is an application with two lists of three cells in row 0, the items 11 to 15 that bear their last
/// digits, and a button 16 beside them. The first list, 1, has one item written twice; it runs before the
/// scene `s` comes, and what it tells until the scene runs is shown in row 1: whether the first item is shown
/// (F, f) and the last (L, l), how many stand before (H) and behind (T), which item is selected (+) and no
/// longer is (-), and that item 12 stops (x) and item 14 runs (r). The second, 4, wraps, and more than one of
/// its items can be selected; it does not run at first.
///
/// `group` is an application with a token group, 1, of three buttons, 11 to 13, that bear their last digits.
/// Its first row of movement turns, its second one goes back by one and ends behind two. Button 11 has two
/// slots, which put `a` and `b` behind what is told, and button 13 one, which puts `c` there. What is told
/// until the scene runs, from (<) and to (>) which position the token moves, is shown in row 1.
///
/// `typing` is a scene with a field of three octets, 1, that begins with `7` and interacts when the scene
/// runs, another field, 2, below it, and a button, 3. On events of the engine (1) the first field is told to
/// interact, (2) no longer to; (3) the other field is, (4) the button; (5) the first field overwrites, (6) has
/// its entry point at the front, (7) behind one octet, (8) far off; (9) it stops, and (10) is dropped and
/// runs; the button is (11) selected, (12) no longer selected, (13) highlighted, (14) no longer; and (0) what
/// was heard is shown in row 3: that the first field is full (!), that the interaction of the first field, the
/// second or the button is complete (. : ,), that the button is selected (+) and no longer is (-), highlighted
/// (h) and no longer (l), and a key that comes to the scene (k).
///
/// `first-asks` is an application that goes to the scene `p`: in `asks` red leads to the scene `s` and green to `q`; in
/// `asks-twice` red leads to `s`, counts, leads to `q` and counts, green launches the application anew, and yellow quits.
///
/// The verifier refuses the following. `carrier` is an application whose variable 21 takes a text of the scene
/// `giver` along to the scene `quiet`; `sets` one whose variable 1 is set to what is not there, and from itself;
/// `tests` has two links that put each other to work, `quits` closes down by quitting, and `adds` is a scene that
/// puts an item into a list when the item runs.
static FILES: &str =
    r#"application: a {:Application ("~/a" 0) :OnStartUp ( :TransitionTo (("~/s" 0)) ) }

scene: s {:Scene ("~/s" 0) :InputEventReg 3 :SceneCS 720 576 :Items ( {:Rectangle 10 :OrigBoxSize 24
32 :OrigPosition 12 16 :OrigLineWidth 0 :OrigRefFillColour '=FF=00=00=00' } {:Link 11 :EventSource 0
:EventType UserInput :EventData 100 :LinkEffect ( :SetPosition (10 24 16) ) } ) }

absent: s {:Scene ("~/s" 0) :InputEventReg 3 :SceneCS 720 576 :Items ( {:Rectangle 10 :OrigBoxSize
24 32 :OrigPosition 12 16 :OrigLineWidth 0 :OrigRefFillColour '=FF=00=00=00' } {:Link 11
:EventSource 0 :EventType UserInput :EventData 100 :LinkEffect ( :SetPosition (99 24 16) ) } ) }

locks: s {:Scene ("~/s" 0) :InputEventReg 3 :Items ( {:IntegerVar 1 :OrigValue 0 } {:Rectangle 10
:OrigBoxSize 12 16 :OrigRefLineColour '=FF=00=00=00' } {:Link 11 :EventSource 0 :EventType UserInput
:EventData 100 :LinkEffect ( :LockScreen (("~/a" 0)) ) } {:Link 12 :EventSource 0 :EventType UserInput
:EventData 101 :LinkEffect ( :UnlockScreen (("~/a" 0)) ) } {:Link 13 :EventSource 0 :EventType
UserInput :EventData 102 :LinkEffect ( :Add (1 12) :SetPosition (10 :IndirectRef 1 0) ) } {:Link 14
:EventSource 0 :EventType UserInput :EventData 103 :LinkEffect ( :TransitionTo (0) ) } {:Link 15
:EventSource 0 :EventType UserInput :EventData 104 :LinkEffect ( :LockScreen (("~/a" 0)) :Add (1 12)
:SetPosition (10 :IndirectRef 1 0) :UnlockScreen (("~/a" 0)) ) } ) }

waiting: a {:Application ("~/a" 0) :Items ( {:Text 1 :OrigBoxSize 24 16 :OrigContent :ContentRef
("~/x") } ) }

pages: a {:Application ("~/a" 0) :Items ( {:Text 1 :OrigBoxSize 48 16 :OrigContent :ContentRef ("~/x") }
{:ContentRefVar 2 :OrigValue :ContentRef ("x") } {:Link 11 :EventSource 0 :EventType EngineEvent
:EventData 1 :LinkEffect ( :SetData (1 :ContentRef ("y")) ) } {:Link 12 :EventSource 0 :EventType
EngineEvent :EventData 2 :LinkEffect ( :SetData (1 :IndirectRef 2) ) } {:Link 13 :EventSource 0
:EventType EngineEvent :EventData 3 :LinkEffect ( :SetData (1 'in') ) } {:Link 14 :EventSource 0
:EventType EngineEvent :EventData 4 :LinkEffect ( :Unload (1) ) } {:Link 15 :EventSource 0 :EventType
EngineEvent :EventData 5 :LinkEffect ( :Run (1) ) } {:Link 16 :EventSource 0 :EventType EngineEvent
:EventData 6 :LinkEffect ( :Stop (1) ) } ) }

list: a {:Application ("~/a" 0) :Items ( {:OStringVar 2 :OrigValue '' } {:PushButton 3 :Shared true
:OrigBoxSize 360 16 :OrigPosition 0 16 } {:Link 21 :Shared true :EventSource 1 :EventType FirstItemPresented
:EventData true :LinkEffect ( :Append (2 'F') ) } {:Link 22 :Shared true :EventSource 1 :EventType
FirstItemPresented :EventData false :LinkEffect ( :Append (2 'f') ) } {:Link 23 :Shared true :EventSource 1
:EventType LastItemPresented :EventData true :LinkEffect ( :Append (2 'L') ) } {:Link 24 :Shared true
:EventSource 1 :EventType LastItemPresented :EventData false :LinkEffect ( :Append (2 'l') ) } {:Link 25
:Shared true :EventSource 1 :EventType HeadItems :EventData 0 :LinkEffect ( :Append (2 'H0') ) } {:Link 26
:Shared true :EventSource 1 :EventType HeadItems :EventData 1 :LinkEffect ( :Append (2 'H1') ) } {:Link 27
:Shared true :EventSource 1 :EventType HeadItems :EventData 2 :LinkEffect ( :Append (2 'H2') ) } {:Link 28
:Shared true :EventSource 1 :EventType HeadItems :EventData 3 :LinkEffect ( :Append (2 'H3') ) } {:Link 29
:Shared true :EventSource 1 :EventType HeadItems :EventData 4 :LinkEffect ( :Append (2 'H4') ) } {:Link 30
:Shared true :EventSource 1 :EventType TailItems :EventData 0 :LinkEffect ( :Append (2 'T0') ) } {:Link 31
:Shared true :EventSource 1 :EventType TailItems :EventData 1 :LinkEffect ( :Append (2 'T1') ) } {:Link 32
:Shared true :EventSource 1 :EventType TailItems :EventData 2 :LinkEffect ( :Append (2 'T2') ) } {:Link 33
:Shared true :EventSource 1 :EventType TailItems :EventData 3 :LinkEffect ( :Append (2 'T3') ) } {:Link 34
:Shared true :EventSource 1 :EventType ItemSelected :EventData 1 :LinkEffect ( :Append (2 '+1') ) } {:Link
35 :Shared true :EventSource 1 :EventType ItemDeselected :EventData 1 :LinkEffect ( :Append (2 '-1') ) }
{:Link 36 :Shared true :EventSource 1 :EventType ItemSelected :EventData 2 :LinkEffect ( :Append (2 '+2') )
} {:Link 37 :Shared true :EventSource 1 :EventType ItemDeselected :EventData 2 :LinkEffect ( :Append (2
'-2') ) } {:Link 38 :Shared true :EventSource 1 :EventType ItemSelected :EventData 3 :LinkEffect ( :Append
(2 '+3') ) } {:Link 39 :Shared true :EventSource 1 :EventType ItemDeselected :EventData 3 :LinkEffect (
:Append (2 '-3') ) } {:Link 40 :Shared true :EventSource 12 :EventType IsStopped :LinkEffect ( :Append (2
'x') ) } {:Link 41 :Shared true :EventSource 14 :EventType IsRunning :LinkEffect ( :Append (2 'r') ) }
{:Link 50 :Shared true :EventSource ("s" 0) :EventType IsRunning :LinkEffect ( :SetLabel (3 :IndirectRef 2)
) } {:Link 51 :Shared true :EventSource 0 :EventType IsRunning :LinkEffect ( :TransitionTo (("s" 0)) ) }
{:PushButton 11 :InitiallyActive false :Shared true :OrigBoxSize 12 16 :OrigLabel '1' } {:PushButton 12
:InitiallyActive false :Shared true :OrigBoxSize 12 16 :OrigLabel '2' } {:PushButton 13 :InitiallyActive
false :Shared true :OrigBoxSize 12 16 :OrigLabel '3' } {:PushButton 14 :InitiallyActive false :Shared true
:OrigBoxSize 12 16 :OrigLabel '4' } {:PushButton 15 :InitiallyActive false :Shared true :OrigBoxSize 12 16
:OrigLabel '5' } {:PushButton 16 :InitiallyActive false :Shared true :OrigBoxSize 12 16 :OrigLabel '6' }
{:ListGroup 1 :Shared true :TokenGroupItems ((11) (12) (11) (13) (14) (15)) :Positions ((0 0) (12 0) (24 0))
} {:ListGroup 4 :InitiallyActive false :Shared true :TokenGroupItems ((11) (12) (13) (14) (15)) :Positions
((0 0) (12 0) (24 0)) :WrapAround true :MultipleSelection true } ) }

group: a {:Application ("~/a" 0) :Items ( {:OStringVar 2 :OrigValue '' } {:PushButton 3 :Shared true
:OrigBoxSize 360 16 :OrigPosition 0 16 } {:Link 21 :Shared true :EventSource 1 :EventType TokenMovedFrom
:EventData 0 :LinkEffect ( :Append (2 '<0') ) } {:Link 22 :Shared true :EventSource 1 :EventType
TokenMovedTo :EventData 0 :LinkEffect ( :Append (2 '>0') ) } {:Link 23 :Shared true :EventSource 1
:EventType TokenMovedFrom :EventData 1 :LinkEffect ( :Append (2 '<1') ) } {:Link 24 :Shared true
:EventSource 1 :EventType TokenMovedTo :EventData 1 :LinkEffect ( :Append (2 '>1') ) } {:Link 25 :Shared
true :EventSource 1 :EventType TokenMovedFrom :EventData 2 :LinkEffect ( :Append (2 '<2') ) } {:Link 26
:Shared true :EventSource 1 :EventType TokenMovedTo :EventData 2 :LinkEffect ( :Append (2 '>2') ) } {:Link
27 :Shared true :EventSource 1 :EventType TokenMovedFrom :EventData 3 :LinkEffect ( :Append (2 '<3') ) }
{:Link 28 :Shared true :EventSource 1 :EventType TokenMovedTo :EventData 3 :LinkEffect ( :Append (2 '>3') )
} {:Link 50 :Shared true :EventSource ("s" 0) :EventType IsRunning :LinkEffect ( :SetLabel (3 :IndirectRef
2) ) } {:Link 51 :Shared true :EventSource 0 :EventType IsRunning :LinkEffect ( :TransitionTo (("s" 0)) ) }
{:PushButton 11 :InitiallyActive false :Shared true :OrigBoxSize 12 16 :OrigPosition 0 0 :OrigLabel '1' }
{:PushButton 12 :InitiallyActive false :Shared true :OrigBoxSize 12 16 :OrigPosition 12 0 :OrigLabel '2' }
{:PushButton 13 :InitiallyActive false :Shared true :OrigBoxSize 12 16 :OrigPosition 24 0 :OrigLabel '3' }
{:TokenGroup 1 :Shared true :MovementTable ((2 3 1) (0 1)) :TokenGroupItems ((11 (:Append (2 'a')) (:Append
(2 'b'))) (12) (13 (:Append (2 'c')))) } ) }

typing: s {:Scene ("~/s" 0) :Items ( {:EntryField 1 :OrigBoxSize 60 16 :OrigContent '7' :MaxLength 3 }
{:EntryField 2 :OrigBoxSize 60 16 :OrigPosition 0 16 } {:PushButton 3 :OrigBoxSize 60 16 :OrigPosition 0 32
:OrigLabel 'go' } {:OStringVar 4 :OrigValue '' } {:PushButton 5 :OrigBoxSize 240 16 :OrigPosition 0 48 }
{:Link 21 :EventSource 0 :EventType IsRunning :LinkEffect ( :SetInteractionStatus (1 true) ) } {:Link 22
:EventSource 1 :EventType EntryFieldFull :LinkEffect ( :Append (4 '!') ) } {:Link 23 :EventSource 1
:EventType InteractionCompleted :LinkEffect ( :Append (4 '.') ) } {:Link 24 :EventSource 2 :EventType
InteractionCompleted :LinkEffect ( :Append (4 ':') ) } {:Link 25 :EventSource 3 :EventType
InteractionCompleted :LinkEffect ( :Append (4 ',') ) } {:Link 26 :EventSource 3 :EventType IsSelected
:LinkEffect ( :Append (4 '+') ) } {:Link 27 :EventSource 3 :EventType IsDeselected :LinkEffect ( :Append (4
'-') ) } {:Link 28 :EventSource 3 :EventType HighlightOn :LinkEffect ( :Append (4 'h') ) } {:Link 29
:EventSource 3 :EventType HighlightOff :LinkEffect ( :Append (4 'l') ) } {:Link 30 :EventSource 0 :EventType
UserInput :LinkEffect ( :Append (4 'k') ) } {:Link 31 :EventSource ("a" 0) :EventType EngineEvent :EventData
0 :LinkEffect ( :SetLabel (5 :IndirectRef 4) ) } {:Link 32 :EventSource ("a" 0) :EventType EngineEvent
:EventData 1 :LinkEffect ( :SetInteractionStatus (1 true) ) } {:Link 33 :EventSource ("a" 0) :EventType
EngineEvent :EventData 2 :LinkEffect ( :SetInteractionStatus (1 false) ) } {:Link 34 :EventSource ("a" 0)
:EventType EngineEvent :EventData 3 :LinkEffect ( :SetInteractionStatus (2 true) ) } {:Link 35 :EventSource
("a" 0) :EventType EngineEvent :EventData 4 :LinkEffect ( :SetInteractionStatus (3 true) ) } {:Link 36
:EventSource ("a" 0) :EventType EngineEvent :EventData 5 :LinkEffect ( :SetOverwriteMode (1 true) ) } {:Link
37 :EventSource ("a" 0) :EventType EngineEvent :EventData 6 :LinkEffect ( :SetEntryPoint (1 0) ) } {:Link 38
:EventSource ("a" 0) :EventType EngineEvent :EventData 7 :LinkEffect ( :SetEntryPoint (1 1) ) } {:Link 39
:EventSource ("a" 0) :EventType EngineEvent :EventData 8 :LinkEffect ( :SetEntryPoint (1 9) ) } {:Link 40
:EventSource ("a" 0) :EventType EngineEvent :EventData 9 :LinkEffect ( :Stop (1) ) } {:Link 41 :EventSource
("a" 0) :EventType EngineEvent :EventData 10 :LinkEffect ( :Unload (1) :Run (1) ) } {:Link 42 :EventSource
("a" 0) :EventType EngineEvent :EventData 11 :LinkEffect ( :Select (3) ) } {:Link 43 :EventSource ("a" 0)
:EventType EngineEvent :EventData 12 :LinkEffect ( :Deselect (3) ) } {:Link 44 :EventSource ("a" 0)
:EventType EngineEvent :EventData 13 :LinkEffect ( :SetHighlightStatus (3 true) ) } {:Link 45 :EventSource
("a" 0) :EventType EngineEvent :EventData 14 :LinkEffect ( :SetHighlightStatus (3 false) ) } ) }

carrier: a {:Application ("~/a" 0) :Items ( {:ObjectRefVar 20 :OrigValue 30 } {:ObjectRefVar 21 :OrigValue
30 } {:Text 30 :OrigBoxSize 120 16 } {:Link 31 :Shared true :EventSource ("~/q" 0) :EventType IsRunning
:LinkEffect ( :SetData (:IndirectRef 21 'X') ) } {:Link 32 :EventSource 0 :EventType IsRunning :LinkEffect
( :TransitionTo (("~/p" 0)) ) } ) }

giver: p {:Scene ("~/p" 0) :OnStartUp ( :SetVariable (("~/a" 20) :GObjectRef 10) :SetVariable (("~/a" 21)
:GObjectRef :IndirectRef ("~/a" 20)) ) :Items ( {:Text 10 :OrigBoxSize 120 16 } {:Link 11 :EventSource 0
:EventType UserInput :EventData 100 :LinkEffect ( :TransitionTo (("~/q" 0)) ) } ) }

quiet: q {:Scene ("~/q" 0) }

sets: a {:Application ("~/a" 0) :OnStartUp ( :SetVariable (1 :GObjectRef 99) :SetPosition (:IndirectRef 1 2 3)
:SetVariable (1 :GObjectRef :IndirectRef 1) ) :Items ( {:ObjectRefVar 1 :OrigValue 10 } {:ObjectRefVar 2
:OrigValue 10 } {:Rectangle 10 :OrigBoxSize 24 32 } ) }

tests: a {:Application ("~/a" 0) :Items ( {:IntegerVar 1 :OrigValue 0 } {:IntegerVar 2 :OrigValue 0 } {:Link 3
:EventSource 1 :EventType TestEvent :LinkEffect ( :TestVariable (2 1 :GInteger 0) ) } {:Link 4 :EventSource 2
:EventType TestEvent :LinkEffect ( :TestVariable (1 1 :GInteger 0) ) } {:Link 5 :EventSource 0 :EventType
IsRunning :LinkEffect ( :TestVariable (1 1 :GInteger 0) ) } ) }

quits: a {:Application ("~/a" 0) :OnCloseDown ( :Quit (0) ) }

adds: s {:Scene ("~/s" 0) :Items ( {:Rectangle 10 :OrigBoxSize 24 32 } {:ListGroup 3 :Positions ( ( 0 0 ) ) }
{:Link 4 :EventSource 10 :EventType IsRunning :LinkEffect ( :AddItem (3 1 10) ) } ) }

first-asks: a {:Application ("~/a" 0) :OnStartUp ( :TransitionTo (("~/p" 0)) ) }

asks: p {:Scene ("~/p" 0) :InputEventReg 3 :Items ( {:Link 11 :EventSource 0 :EventType UserInput
:EventData 100 :LinkEffect ( :TransitionTo (("~/s" 0)) ) } {:Link 12 :EventSource 0 :EventType
UserInput :EventData 101 :LinkEffect ( :TransitionTo (("~/q" 0)) ) } ) }

asks-twice: p {:Scene ("~/p" 0) :InputEventReg 3 :Items ( {:IntegerVar 1 :OrigValue 0 } {:Link 11
:EventSource 0 :EventType UserInput :EventData 100 :LinkEffect ( :TransitionTo (("~/s" 0)) :Add (1
1) :TransitionTo (("~/q" 0)) :Add (1 1) ) } {:Link 12 :EventSource 0 :EventType UserInput :EventData
101 :LinkEffect ( :Launch (("~/a" 0)) ) } {:Link 13 :EventSource 0 :EventType UserInput :EventData
102 :LinkEffect ( :Quit (("~/a" 0)) ) } ) }

empty: a {:Application ("~/a" 0) :Items ( ) }

outside: a {:Application ("~/a" 0) :OnStartUp ( :TransitionTo (("~/../x" 0)) ) }

open: a {:Application ("~/a" 0)

application-octets: a \a01b 3008 04037e2f61 020100 a10f 300d bf700a 3008 04037e2f73 020100\

scene-octets: s \a163 3008 04037e2f73 020100 a348 3046 a820 02010a ad06 020118 020120 ae06 02010c
020110 af03 020100 b106 0404ff000000 a222 02010b a803 020100 a903 020106 aa03 020164 ab0e 300c
bf7e09 02010a 020118 020110 a403 020103 a508 020202d0 02020240\"#;

/// Each of these files: its path and what it holds, as a table writes them.
pub fn all_files() -> &'static str {
    FILES
}

/// The path of a file and what it holds, as a table writes them or as one of these files.
pub fn path_and_text(file: &str) -> Option<(&str, &str)> {
    let file = file.trim_end();
    if let Some(found) = file.split_once(' ') {
        return Some(found);
    }
    for shared in FILES.split("\n\n") {
        if let Some((name, held)) = shared.split_once(": ") {
            if name == file {
                return held.split_once(' ');
            }
        }
    }
    None
}
