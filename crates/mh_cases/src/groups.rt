//! Groups as text and as octets, and scenes with each attribute and each action of the tables.

/// Texts as they are printed, and the octets of the same groups.
pub const PAIRS: &str = r#"
{ :Application ( "~/a" 0 ) }|
=> \a00a 3008 04037e2f61 020100\;;
{ :Scene ( "~/s" 0 ) :Items ( { :IntegerVar 1 :OrigValue 128 } ) :InputEventReg 3 }|
=> \a11e 3008 04037e2f73 020100 a30d 300b a409 020101 ac04 02020080 a403 020103\;;
{ :Application ( "~/a" 0 ) :OnStartUp ( :TransitionTo ( ( "~/s" 0 ) ) ) }|
=> \a01b 3008 04037e2f61 020100 a10f 300d bf700a 3008 04037e2f73 020100\;;
{ :Scene ( "~/s" 0 ) :Items ( { :Rectangle 10 :OrigBoxSize 24 32 :OrigPosition 12 16 :OrigLineWidth
0 :OrigRefFillColour '=FF=00=00=00' } { :Link 11 :EventSource 0 :EventType UserInput :EventData 100
:LinkEffect ( :SetPosition ( 10 24 16 ) ) } ) :InputEventReg 3 :SceneCS 720 576 }|
=> \a163 3008 04037e2f73 020100 a348 3046 a820 02010a ad06 020118 020120 ae06 02010c 020110 af03
020100 b106 0404ff000000 a222 02010b a803 020100 a903 020106 aa03 020164 ab0e 300c bf7e09 02010a
020118 020110 a403 020103 a508 020202d0 02020240\;;
{ :Scene ( "~/s" 0 ) :OnStartUp ( :TransitionTo ( 0 ) ) :Items ( { :Rectangle 3 :OrigBoxSize 10 20 }
{ :Link 1 :EventSource 0 :EventType UserInput :EventData 1 :LinkEffect ( :SetPosition ( 3 5
:IndirectRef ( "~/s" 4 ) ) :SetVariable ( :IndirectRef 4 :GInteger -129 ) ) } ) :InputEventReg 3
:SceneCS 720 576 }|
=> \a172 3008 04037e2f73 020100 a108 3006 bf7003 020100 a34d 304b a80b 020103 ad06 02010a 020114
a23c 020101 a803 020100 a903 020106 aa03 020101 ab28 3026 bf7e13 020103 020105 bf3d0a 3008
04037e2f73 020104 bf740d bf3d03 020104 bf3f04 0202ff7f a403 020103 a508 020202d0 02020240\;;
{ :Scene ( "~/s" 0 ) :OnStartUp ( :SetPosition ( 10 24 16 ) :SetBoxSize ( 10 24 16 ) ) }|
=> \a127 3008 04037e2f73 020100 a11b 3019 bf7e09 02010a 020118 020110 bf810009 02010a 020118 020110\;;
{ :Scene ( "~/s" 0 ) }|
=> \a10a 3008 04037e2f73 020100\;;
{ :Scene ( "~/s" 0 ) :InputEventReg 4 :SceneCS 720 576 }|
=> \a119 3008 04037e2f73 020100 a403 020104 a508 020202d0 02020240\;;
{ :Scene ( "s" 0 ) :Items ( ) :InputEventReg -4 :SceneCS 720 576 }|
=> \a11b 3006 040173 020100 a302 3000 a403 0201fc a508 020202d0 02020240\;;
{ :Scene ( "s" 0 ) :ObjectInfo '=3D41 =27' :StdID 'A=00=0A=FF=3D' }|
=> \a11c 3006 040173 020100 bf2307 04053d34312027 bf2407 040541000aff3d\;;
{ :Scene ( "s" 0 ) :OnStartUp ( :SendEvent ( ( "x" 2 ) :IndirectRef 3 UserInput true ) :SetTimer ( 0
1 ) ) }|
=> \a12c 3006 040173 020100 a122 3020 bf6a14 3006 040178 020102 bf3d03 020103 020106 0101ff bf6b06
020100 020101\;;
{ :Scene ( "s" 0 ) :Items ( { :TokenGroup 1 :Shared false :MovementTable ( ( 1 -2 ) ( ) )
:TokenGroupItems ( ( 2 ( ) ( :Quit ( 0 ) ) ) ) } ) }|
=> \a137 3006 040173 020100 a32d 302b ac29 020101 a703 010100 b90c 300a 3006 020101 0201fe 3000 ba11
300f 300d 020102 3000 3006 bf6d03 020100\;;
{ :Scene ( "s" 0 ) :Items ( { :Text 1 :OrigBoxSize 1 2 :OrigContent :ContentRef ( "t" )
:HJustification centre } ) }|
=> \a124 3006 040173 020100 a31a 3018 a916 020101 ad06 020101 020102 b204 9f3c0174 b503 020103\"#;

/// A scene with an ingredient of each class, as it is printed, whose values are of every shape; and its
/// octets, by another program.
pub const SHAPES: &str = r#"
{ :Scene ( "~/s" 0 ) :OnStartUp ( :Run ( 0 ) :Stop ( 0 ) :Preload ( 0 ) :Unload ( 0 )
:GetAvailabilityStatus ( 0 1 ) :GetRunningStatus ( 0 1 ) :SendEvent ( 0 ( "~/x" 3 ) UserInput 5 )
:SetTimer ( 0 -7 -7 true ) :Launch ( 0 ) :Quit ( 0 ) :LockScreen ( 0 ) :UnlockScreen ( 0 )
:TransitionTo ( 0 ) :SetInputRegister ( 0 -7 ) :Activate ( 0 ) :Deactivate ( 0 ) :SetVariable ( 0
:GInteger :IndirectRef 4 ) :TestVariable ( 0 -7 :GInteger :IndirectRef 4 ) :Add ( 0 -7 ) :Subtract (
0 -7 ) :Multiply ( 0 -7 ) :Divide ( 0 -7 ) :Modulo ( 0 -7 ) :Append ( 0 'a=3D=00z' ) :Call ( 0 1 (
:GBoolean false :GOctetString '' :GObjectRef 2 :GContentRef :ContentRef ( "t" ) ) ) :Fork ( 0 1 (
:GBoolean false :GOctetString '' :GObjectRef 2 :GContentRef :ContentRef ( "t" ) ) ) :SetPosition ( 0
-7 -7 ) :GetPosition ( 0 2 2 ) :SetBoxSize ( 0 -7 -7 ) :GetBoxSize ( 0 2 2 ) :BringToFront ( 0 )
:SendToBack ( 0 ) :PutBefore ( 0 ( "~/x" 3 ) ) :PutBehind ( 0 ( "~/x" 3 ) ) :SetFillColour ( 0
'a=3D=00z' ) :SetLineColour ( 0 'a=3D=00z' ) :SetLineWidth ( 0 -7 ) :Clear ( 0 ) :DrawLine ( 0 -7 -7
-7 -7 ) :DrawRectangle ( 0 -7 -7 -7 -7 ) :SetData ( 0 :ContentRef ( "~/t" ) ) :GetTextData ( 0 3 )
:SetTextColour ( 0 'a=3D=00z' ) :SetInteractionStatus ( 0 true ) :GetInteractionStatus ( 0 1 )
:SetHighlightStatus ( 0 true ) :GetHighlightStatus ( 0 1 ) :SetEntryPoint ( 0 -7 ) :GetEntryPoint (
0 2 ) :SetOverwriteMode ( 0 true ) :Select ( 0 ) :Deselect ( 0 ) :SetLabel ( 0 'a=3D=00z' )
:GetLabel ( 0 3 ) :Move ( 0 -7 ) :MoveTo ( 0 -7 ) :GetTokenPosition ( 0 2 ) :CallActionSlot ( 0 -7 )
:AddItem ( 0 -7 ( "~/x" 3 ) ) :DelItem ( 0 ( "~/x" 3 ) ) :ScrollItems ( 0 -7 ) :SetFirstItem ( 0 -7
) :GetFirstItem ( 0 2 ) :SelectItem ( 0 -7 ) :DeselectItem ( 0 -7 ) :ToggleItem ( 0 -7 )
:GetItemStatus ( 0 -7 1 ) :GetListItem ( 0 -7 ( "b" 4 ) ) :GetListSize ( 0 2 ) :GetCellItem ( 0 -7 (
"b" 4 ) ) :SendEvent ( 0 1 IsRunning ) :SendEvent ( 0 :IndirectRef 1 IsRunning true ) :SetTimer ( 0
1 ) :SetTimer ( 0 1 2 ) :SetData ( :IndirectRef 1 'X' ) :SetData ( 1 :IndirectRef ( "~/v" 9 ) )
:SetVariable ( 1 :GBoolean true ) :SetVariable ( 1 :GOctetString :IndirectRef 1 ) :SetVariable ( 1
:GContentRef :IndirectRef 1 ) :SetVariable ( 1 :GObjectRef ( "~/v" 0 ) ) :SendEvent ( 0 0 IsRunning
:IndirectRef 1 ) ) :OnCloseDown ( ) :Items ( { :Link 1 :InitiallyActive false :Shared true
:EventSource 0 :EventType TestEvent :EventData true :LinkEffect ( ) :CHook -1 :OrigFont 'f'
:FontAttributes '' :OrigGCPriority 3 :ObjectInfo 'i' :StdID 'd' :StdVersion 0 :NextScenes ( ( "~/n"
5 ) ( "m" -5 ) ) } { :Link 2 :EventSource ( "~/s" 0 ) :EventType EngineEvent :EventData -2147483648
:LinkEffect ( :Clear ( 0 ) ) } { :BooleanVar 3 :OrigValue false } { :IntegerVar 4 :OrigValue
2147483647 } { :OStringVar 5 :OrigValue '=00=FF=27 =3D"' } { :ObjectRefVar 6 :OrigValue ( "~/s"
2147483647 ) } { :ContentRefVar 7 :OrigValue :ContentRef ( "~/t" ) } { :Rectangle 8 :OrigBoxSize 0 0
:OrigPosition -1 -1 :OrigLineWidth 0 :OrigRefLineColour '=00=01=02=03' :OrigRefFillColour
'=00=00=00=FF' } { :Text 9 :OrigBoxSize 1 2 :OrigContent 'text' :TextColour '=FF=FF=FF=00'
:BackgroundColour '=00=00=00=FF' :HJustification start :TextWrapping true } { :DynamicLineArt 10
:OrigBoxSize 1 2 } { :ListGroup 11 :MovementTable ( ) :TokenGroupItems ( ( 1 ) ( ( "~/s" 2 ) ) )
:Positions ( ( 0 0 ) ( -1 2 ) ) :WrapAround true :MultipleSelection false } { :TokenGroup 12
:MovementTable ( ( 1 2 3 ) ( ) ( -4 ) ) :TokenGroupItems ( ( 1 ) ( 2 ( ) ( :Quit ( 0 ) :Run (
:IndirectRef 6 ) ) ) ) } { :EntryField 13 :OrigBoxSize 1 2 :OrigContent :ContentRef ( "t" )
:HJustification end :MaxLength 255 } { :PushButton 14 :OrigBoxSize 1 2 :HJustification centre
:OrigLabel 'ok' } { :ResidentPrg 15 :Name 'GSL' } { :Stream 16 :InitiallyActive true } )
:InputEventReg 4 :SceneCS 720 576 }|
=> \a18205f4 3008 04037e2f73 020100 a18203cf 308203cb bf6403 020100 bf6503 020100 bf6603 020100
bf6703 020100 bf6806 020100 020101 bf6906 020100 020101 bf6a13 020100 3008 04037e2f78 020103 020106
020105 bf6b0c 020100 0201f9 0201f9 0101ff bf6c03 020100 bf6d03 020100 bf6e03 020100 bf6f03 020100
bf7003 020100 bf7106 020100 0201f9 bf7203 020100 bf7303 020100 bf740c 020100 bf3f06 bf3d03 020104
bf750f 020100 0201f9 bf3f06 bf3d03 020104 bf7606 020100 0201f9 bf7706 020100 0201f9 bf7806 020100
0201f9 bf7906 020100 0201f9 bf7a06 020100 0201f9 bf7b09 020100 0404613d007a bf7c20 020100 020101
3018 bf3e03 010100 bf4002 0400 bf4103 020102 bf4204 9f3c0174 bf7d20 020100 020101 3018 bf3e03 010100
bf4002 0400 bf4103 020102 bf4204 9f3c0174 bf7e09 020100 0201f9 0201f9 bf7f09 020100 020102 020102
bf810009 020100 0201f9 0201f9 bf810109 020100 020102 020102 bf810203 020100 bf810303 020100 bf81040d
020100 3008 04037e2f78 020103 bf81050d 020100 3008 04037e2f78 020103 bf810609 020100 0404613d007a
bf810709 020100 0404613d007a bf810806 020100 0201f9 bf810903 020100 bf810a0f 020100 0201f9 0201f9
0201f9 0201f9 bf810b0f 020100 0201f9 0201f9 0201f9 0201f9 bf810c09 020100 9f3c037e2f74 bf810d06
020100 020103 bf810e09 020100 0404613d007a bf810f06 020100 0101ff bf811006 020100 020101 bf811106
020100 0101ff bf811206 020100 020101 bf811306 020100 0201f9 bf811406 020100 020102 bf811506 020100
0101ff bf811603 020100 bf811703 020100 bf811809 020100 0404613d007a bf811906 020100 020103 bf811a06
020100 0201f9 bf811b06 020100 0201f9 bf811c06 020100 020102 bf811d06 020100 0201f9 bf811e10 020100
0201f9 3008 04037e2f78 020103 bf811f0d 020100 3008 04037e2f78 020103 bf812006 020100 0201f9 bf812106
020100 0201f9 bf812206 020100 020102 bf812306 020100 0201f9 bf812406 020100 0201f9 bf812506 020100
0201f9 bf812609 020100 0201f9 020101 bf81270e 020100 0201f9 3006 040162 020104 bf812806 020100
020102 bf81290e 020100 0201f9 3006 040162 020104 bf6a09 020100 020101 020104 bf6a0f 020100 bf3d03
020101 020104 0101ff bf6b06 020100 020101 bf6b09 020100 020101 020102 bf810c09 bf3d03 020101 040158
bf810c10 020101 bf3d0a 3008 04037e2f76 020109 bf7409 020101 bf3e03 0101ff bf740c 020101 bf4006
bf3d03 020101 bf740c 020101 bf4206 bf3d03 020101 bf7410 020101 bf410a 3008 04037e2f76 020100 bf6a0f
020100 020100 020104 bf3d03 020101 a202 3000 a3820200 308201fc a260 020101 a603 010100 a703 0101ff
a803 020100 a903 020117 aa03 0101ff ab02 3000 bf1f03 0201ff bf2003 040166 bf2102 0400 bf2203 020103
bf2303 040169 bf2403 040164 bf2503 020100 bf2614 3012 3008 04037e2f6e 020105 3006 04016d 0201fb a227
020102 a80a 3008 04037e2f73 020100 a903 02011f aa06 020480000000 ab09 3007 bf810903 020100 a308
020103 ac03 010100 a40b 020104 ac06 02047fffffff a50d 020105 ac08 040600ff27203d22 a612 020106 ac0d
300b 04037e2f73 02047fffffff a70b 020107 ac06 9f3c037e2f74 a828 020108 ad06 020100 020100 ae06
0201ff 0201ff af03 020100 b006 040400010203 b106 0404000000ff a92d 020109 ad06 020101 020102 b206
040474657874 b306 0404ffffff00 b406 0404000000ff b503 020101 b603 0101ff aa0b 02010a ad06 020101
020102 ab3a 02010b b902 3000 ba13 3011 3003 020101 300a 3008 04037e2f73 020102 bb12 3010 3006 020100
020100 3006 0201ff 020102 bc03 0101ff bd03 010100 ac3a 02010c b914 3012 3009 020101 020102 020103
3000 3003 0201fc ba1f 301d 3003 020101 3016 020102 3000 300f bf6d03 020100 bf6406 bf3d03 020106 ad1c
02010d ad06 020101 020102 b204 9f3c0174 b503 020102 b704 020200ff ae16 02010e ad06 020101 020102
b503 020103 b804 04026f6b af0a 02010f be05 040347534c b008 020110 a603 0101ff a403 020104 a508
020202d0 02020240\"#;

/// A scene with an ingredient of each class, each with each attribute that it takes. Its link does each
/// action.
pub const WORDS: &[u8] =
    br#"{:Scene ("~/a" 0) :OnStartUp () :OnCloseDown () :InputEventReg 3 :SceneCS 720 576 :CHook 1 :OrigFont
"f" :FontAttributes "a" :OrigGCPriority 2 :ObjectInfo "o" :StdID "s" :StdVersion 3 :NextScenes
(("~/s" 1)) :Items ( {:Link 1 :InitiallyActive true :Shared false :EventSource 1 :EventType
UserInput :EventData 5 :LinkEffect (:Run(1) :Stop(1) :Preload(1) :Unload(1) :GetAvailabilityStatus(1
3) :GetRunningStatus(1 3) :SendEvent(1 2 UserInput true) :SetTimer(1 5 5 true) :Launch(1) :Quit(1)
:LockScreen(1) :UnlockScreen(1) :TransitionTo(1) :SetInputRegister(1 5) :Activate(1) :Deactivate(1)
:SetVariable(1 :GInteger 5) :TestVariable(1 5 :GInteger 5) :Add(1 5) :Subtract(1 5) :Multiply(1 5)
:Divide(1 5) :Modulo(1 5) :Append(1 "ab") :Call(1 3 (:GInteger 5)) :Fork(1 3 (:GInteger 5))
:SetPosition(1 5 5) :GetPosition(1 3 3) :SetBoxSize(1 5 5) :GetBoxSize(1 3 3) :BringToFront(1)
:SendToBack(1) :PutBefore(1 2) :PutBehind(1 2) :SetFillColour(1 "ab") :SetLineColour(1 "ab")
:SetLineWidth(1 5) :Clear(1) :DrawLine(1 5 5 5 5) :DrawRectangle(1 5 5 5 5) :SetData(1 "ab")
:GetTextData(1 3) :SetTextColour(1 "ab") :SetInteractionStatus(1 true) :GetInteractionStatus(1 3)
:SetHighlightStatus(1 true) :GetHighlightStatus(1 3) :SetEntryPoint(1 5) :GetEntryPoint(1 3)
:SetOverwriteMode(1 true) :Select(1) :Deselect(1) :SetLabel(1 "ab") :GetLabel(1 3) :Move(1 5)
:MoveTo(1 5) :GetTokenPosition(1 3) :CallActionSlot(1 5) :AddItem(1 5 2) :DelItem(1 2)
:ScrollItems(1 5) :SetFirstItem(1 5) :GetFirstItem(1 3) :SelectItem(1 5) :DeselectItem(1 5)
:ToggleItem(1 5) :GetItemStatus(1 5 3) :GetListItem(1 5 3) :GetListSize(1 3) :GetCellItem(1 5 3))}
{:BooleanVar 2 :InitiallyActive true :Shared false :OrigValue true} {:IntegerVar 3 :InitiallyActive
true :Shared false :OrigValue 1} {:OStringVar 4 :InitiallyActive true :Shared false :OrigValue "a"}
{:ObjectRefVar 5 :InitiallyActive true :Shared false :OrigValue 1} {:ContentRefVar 6
:InitiallyActive true :Shared false :OrigValue :ContentRef ("~/t")} {:Rectangle 7 :InitiallyActive
true :Shared false :OrigBoxSize 1 1 :OrigPosition 2 2 :OrigLineWidth 1 :OrigRefLineColour "abcd"
:OrigRefFillColour "abcd"} {:DynamicLineArt 8 :InitiallyActive true :Shared false :OrigBoxSize 1 1
:OrigPosition 2 2 :OrigLineWidth 1 :OrigRefLineColour "abcd" :OrigRefFillColour "abcd"} {:Text 9
:InitiallyActive true :Shared false :OrigBoxSize 1 1 :OrigPosition 2 2 :TextColour "abcd"
:BackgroundColour "abcd" :HJustification start :TextWrapping true :OrigContent "c"} {:EntryField 10
:InitiallyActive true :Shared false :OrigBoxSize 1 1 :OrigPosition 2 2 :TextColour "abcd"
:BackgroundColour "abcd" :HJustification start :TextWrapping true :OrigContent "c" :MaxLength 9}
{:PushButton 11 :InitiallyActive true :Shared false :OrigBoxSize 1 1 :OrigPosition 2 2 :TextColour
"abcd" :BackgroundColour "abcd" :HJustification start :TextWrapping true :OrigLabel "l"} {:ListGroup
12 :InitiallyActive true :Shared false :MovementTable ((1)) :TokenGroupItems ((1)) :Positions ((1
2)) :WrapAround true :MultipleSelection false} {:TokenGroup 13 :InitiallyActive true :Shared false
:MovementTable ((1)) :TokenGroupItems ((1 ()))} {:ResidentPrg 14 :InitiallyActive true :Shared false
:Name "n"} {:Stream 15 :InitiallyActive true :Shared false } ) }"#;
