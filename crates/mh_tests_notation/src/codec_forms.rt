//! The binary notation: each shape of an attribute's value and each kind of an action's parameter, good
//! and bad, by octets worked out by hand.
use crate::cases::all_hold;
use crate::codec::Coded;

/// The number of the class, and the fields, which begin at 21. Those that are refused stand with the
/// number and the offset.
static OBJECTS: &str = r#"
3 \ac03 0101ff\ => read -- a truth value;; 5 \ac04 0402ff00\ => read -- octets;;
6 \ac03 020107\ => read -- a reference;; 7 \ac06 9f3c037e2f61\ => read -- a name;;
9 \ad06 020118 020120 b204 04026869\ => read -- content;;
9 \ad06 020118 020120 b206 9f3c037e2f61\ => read -- a content file;;
9 \ad06 020118 020120 b503 020101\ => read -- start;;
9 \ad06 020118 020120 b503 020103\ => read -- centre;;
13 \ad06 020118 020120 b703 020101\ => read -- length 1;;
13 \ad06 020118 020120 b704 020200ff\ => read -- length 255;; 15 \be04 04026869\ => read -- a name;;
12 \b90c 300a 3006 020101 020102 3000\ => read -- rows;;
12 \ba07 3005 3003 020101\ => read -- a member;;
12 \ba0b 3009 3007 020101 3000 3000\ => read -- a member with two slots;;
12 \ba0f 300d 300b 020101 3006 bf7003 020100\ => read -- a slot with an action;;
11 \ba07 3005 3003 020101 bb02 3000\ => read -- an item;;
11 \bb0a 3008 3006 020100 0201fb\ => read -- a position;;
12 \bf260c 300a 3008 04037e2f73 020105\ => read -- a scene;;
3 \ac03 020105\ => 10 23 -- an integer for a truth value;;
5 \ac03 0101ff\ => 10 23 -- a truth value for octets;;
6 \ac03 040107\ => 10 23 -- octets for a reference;;
7 \ac05 04037e2f61\ => 10 23 -- octets for a content file;;
7 \ac06 bf3c037e2f61\ => 10 23 -- a constructed name;;
7 \ac06 9f3d037e2f61\ => 10 23 -- another tag;;
7 \ac06 9f3c037e2261\ => 14 23 -- a name with a mark;;
7 \ac06 9f3c047e2f61\ => 1 23 -- an open name;;
9 \ad06 020118 020120 b203 020105\ => 10 31 -- no content;;
9 \ad06 020118 020120 b204 9f3c0122\ => 14 31 -- a marked file;;
9 \ad06 020118 020120 b503 020104\ => 14 31 -- a fourth;;
9 \ad06 020118 020120 b503 020100\ => 14 31 -- a zeroth;;
9 \ad06 020118 020120 b503 0201ff\ => 14 31 -- below 0;;
9 \ad06 020118 020120 b503 0101ff\ => 10 31 -- no number;;
13 \ad06 020118 020120 b703 020100\ => 14 31 -- length 0;;
13 \ad06 020118 020120 b704 02020100\ => 14 31 -- length 256;;
13 \ad06 020118 020120 b706 020101 020101\ => 7 34 -- two lengths;;
15 \be03 020105\ => 10 23 -- an integer for a name;; 12 \b905 3003 020105\ => 10 25 -- no row;;
12 \b907 3005 3003 0101ff\ => 10 27 -- a truth value in a row;;
12 \ba0a 3008 3006 020101 020105\ => 10 30 -- no slot;;
12 \ba04 3002 3000\ => 1 27 -- nothing in a member;;
12 \ba0a 3008 3006 bf3d03 020101\ => 10 27 -- a variable's member;;
11 \ba09 3007 3005 020101 3000 bb02 3000\ => 10 30 -- an item with a slot;;
11 \bb07 3005 3003 020100\ => 1 30 -- half a position;;
11 \bb0d 300b 3009 020100 020105 020105\ => 7 33 -- three integers;;
12 \bf260c 300a 3008 04037e2273 020105\ => 14 28 -- a scene with a mark;;
12 \bf2609 3007 3005 04037e2f73\ => 1 33 -- a scene without weight;;
12 \bf260d 300b 3009 9f3c037e2f73 020105\ => 10 28 -- a content file as a scene;;
12 \bf260f 300d 300b 04037e2f73 020105 020105\ => 7 36 -- more than a weight"#;

#[test]
fn values_of_attributes(rt: HostRuntime) {
    all_hold::<Coded>(&rt, rt.alloc(), OBJECTS);
}

/// Actions, which begin at 16. Those that are refused stand with the number and the offset.
static ACTIONS: &str = r#"
action \bf810f06 020100 0101ff\ => read -- a truth value;;
action \bf7b06 020100 040141\ => read -- octets;;
action \bf7b09 020100 bf3d03 020105\ => read -- a variable's octets;;
action \bf810406 020100 020105\ => read -- a reference;;
action \bf810c06 020100 040141\ => read -- content;;
action \bf810c09 020100 9f3c037e2f61\ => read -- a content file;;
action \bf810c09 020100 bf3d03 020105\ => read -- a variable's content;;
action \bf6806 020100 020105\ => read -- a receiver;;
action \bf7c0e 020100 020105 3006 bf3f03 020105\ => read -- arguments;;
action \bf6a0c 020100 020105 020106 020164\ => read -- an event;;
action \bf6a0c 020100 020105 020106 0101ff\ => read -- an event's truth value;;
action \bf6a09 020100 020105 020106\ => read -- an event without data;;
action \bf6a0f 020100 020105 020106 bf3d03 020105\ => read -- a variable's data;;
action \bf6b06 020100 020105\ => read -- a timer of one;;
action \bf6b09 020100 020105 020105\ => read -- a timer of two;;
action \bf6b0c 020100 020105 020105 0101ff\ => read -- a timer of three;;
action \bf7409 020100 bf3e03 0101ff\ => read -- a truth value;;
action \bf7409 020100 bf3f03 020105\ => read -- an integer;;
action \bf7409 020100 bf4003 040141\ => read -- octets;;
action \bf7409 020100 bf4103 020105\ => read -- a reference;;
action \bf740c 020100 bf4206 9f3c037e2f61\ => read -- a content file;;
action \bf740c 020100 bf4206 bf3d03 020105\ => read -- a variable's;;
action \bf812a03 020100\ => 10 16 -- an unknown action;;
action \bf810f06 020100 020105\ => 10 23 -- an integer for a truth value;;
action \bf7b06 020100 020105\ => 10 22 -- an integer for octets;;
action \bf810406 020100 040141\ => 10 23 -- octets for a reference;;
action \bf810c06 020100 020105\ => 10 23 -- no content;;
action \bf6809 020100 bf3d03 020105\ => 10 22 -- a variable's receiver;;
action \bf7c06 020100 020105\ => 1 25 -- no arguments;;
action \bf7c0b 020100 020105 3003 020105\ => 10 27 -- an argument without a kind;;
action \bf6a06 020100 020105\ => 1 25 -- no event;;
action \bf6a09 020100 020105 020107\ => 14 25 -- an event that there is not;;
action \bf6a0c 020100 020105 bf3d03 020105\ => 10 25 -- a variable's event;;
action \bf6a0c 020100 020105 020106 040141\ => 10 28 -- octets as data;;
action \bf6a0f 020100 020105 020106 020164 020164\ => 7 31 -- data twice;;
action \bf6b03 020100\ => 1 22 -- no timer;;
action \bf6b09 020100 020105 0101ff\ => 10 25 -- a timer's middle left out;;
action \bf7409 020100 bf4303 020105\ => 10 22 -- a sixth kind;;
action \bf7409 020100 bf3c03 020105\ => 10 22 -- a fifth below;;
action \bf7409 020100 bf4003 020105\ => 10 25 -- an integer as octets;;
action \bf7409 020100 bf4203 040141\ => 10 25 -- octets as a content file;;
action \bf7406 020100 bf3f00\ => 1 25 -- no value;;
action \bf740c 020100 bf3f06 020105 020105\ => 7 28 -- two values;;
action \bf7406 020100 020105\ => 10 22 -- a value without a kind"#;

#[test]
fn parameters_of_actions(rt: HostRuntime) {
    all_hold::<Coded>(&rt, rt.alloc(), ACTIONS);
}
