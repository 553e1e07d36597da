//! What is said of refusals, in phrases that definitions cite.

pub const A_MEMBER_OF: &[u8] = b"a member of ";

pub const WRITE_NAME: &[u8] = b"write `:Name '";

pub const WRITTEN_AS: &[u8] = b" is written as `:";

pub const IS_DONE_TO: &[u8] = b" is done to ";

pub const THE_TARGET_OF: &[u8] = b"the target of ";

pub const IS_WHAT: &[u8] = b" is what ";

pub const HOLDS_WHICH: &[u8] = b" holds, which can be ";

pub const NO_FILE: &[u8] = b", and no file ";

pub const IN_FOLDER_IS: &[u8] = b" in the folder is ";

pub const HAS_NO_OBJECT: &[u8] = b" has no object ";

pub const ONLY_WHILE: &[u8] = b", and it is there only while ";

pub const ADD_FILE: &[u8] = b"add that file, or write the name of one that is there";

pub const NAME_THERE: &[u8] = b"name an object that is there";

pub const NEAREST_NAME: &[u8] = b"; the nearest is ";

pub const NEAREST_NUMBER: &[u8] = b"; the nearest number is ";

pub const NEAREST_NUMBERS: &[u8] = b"; the nearest numbers are ";

pub const GROUP_ITSELF: &[u8] = b"; the group itself has the number 0";

pub const THE_APPLICATION: &[u8] = b"; the application ";

pub const HAS_SUCH: &[u8] = b" has an object with that number, which is written `(\"~/";

pub const ITSELF_IS: &[u8] = b" itself is written `(\"~/";

pub const BEHIND_NAME: &[u8] = b"\" ";

pub const KEPT_VARIABLE: &[u8] = b"; a variable of the application is there in all scenes";

pub const DIGITS_OF: &[u8] =
    b"; an OStringVar has the digits of a number that it is set to, as by `:SetVariable (2 :GInteger :IndirectRef 1)`";

pub const MOVE_TO: &[u8] = b"name an object that is there, or move the action to ";

pub const THAT_IS_THERE: &[u8] = b" only to objects that are there when the action is done";

pub const HOLD_PRESENT: &[u8] = b" hold only objects that are there while it is";

pub const WHICH_MAY: &[u8] = b", which can be held by ";

pub const NAME_ANOTHER: &[u8] = b"name one of these";

pub const OR_DONE_TO: &[u8] = b"; or write an action that is done to ";

pub const SET_ONLY: &[u8] = b" only to one of these, or write an action that is done to ";

pub const A_REFERENCE_ONLY: &[u8] = b" holds; a reference is held by an ObjectRefVar, and that is ";

pub const WHICH_HOLDS_IT: &[u8] = b", which holds it, is ";

pub const TAKES_ANSWER: &[u8] = b" receives ";

pub const ONLY_HERE: &[u8] = b" only; here is ";

pub const OPERATOR_HELD: &[u8] =
    b"the operator of TestVariable is not known before the service runs, since it is held by ";

pub const TIMER_HELD: &[u8] =
    b"which timer SetTimer sets is not known before the service runs, since its number is held by ";

pub const GO_THROUGH: &[u8] = b"write it itself, or name ";

pub const NO_PROGRAM: &[u8] = b"no program is called ";

pub const IS_CALLED_WITH: &[u8] = b"; here it is called with ";

pub const ONE_OF_PROGRAMS: &[u8] = b"write the name of one of these programs: ";

pub const AS_IT_TAKES: &[u8] =
    b"write, in this order, a value for each that it takes, and for each that it gives a variable, as `:GInteger :IndirectRef 10`";
