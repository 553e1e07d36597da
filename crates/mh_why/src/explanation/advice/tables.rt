//! The tables of what is told of the numbers and kinds that `redplay` prints, in the words of `docs/PROFILE.md`. A row
//! has the word that stands in the line, the cause and the mend.

/// What `refused` tells: of a service that is not accepted, and of an input that is not taken.
pub static REFUSALS: [[&[u8]; 3]; 17] = [
    [
        b"V1",
        b"an object or a variable that is named is absent in that configuration; so is a member of a TokenGroup, whose line has number 0 and `-` for the action",
        b"name one that is there, or move the action",
    ],
    [
        b"V2",
        b"the action has no rule for objects of that class; or a member of a TokenGroup (number 0, `-`) is no visible",
        b"write another action, or name another object",
    ],
    [
        b"V3",
        b"a value, or a variable that is gone through or receives an answer, is of another kind than is needed there; or an operator is one that the variable does not have, or is held by a variable",
        b"write a value or a variable of that kind, and the operator itself",
    ],
    [
        b"V4",
        b"an object that a variable may hold, as the target or as a parameter, is absent; so is an item that a ListGroup may have, whose line has number 0 and `-` for the action",
        b"do not set the variable, or fill the list, with it where it is gone",
    ],
    [
        b"V5",
        b"an object that a variable may hold, as the target or as a parameter, is of a class for which the action has no rule; or an item that a ListGroup may have (number 0, `-`) is no visible",
        b"write another action, or set the variable to another object",
    ],
    [
        b"V6",
        b"an effect puts itself to work, at once or by way of others: events that links hear, slots that are called, scenes that are left and entered, entries of the queue",
        b"take one of the effects that are named out of the circle: let it wait for an event from outside (a key, a timer), or let its link name data that the event does not have",
    ],
    [
        b"V7",
        b"the number of the timer that SetTimer sets is held by a variable, which is named",
        b"write the number",
    ],
    [
        b"V8",
        b"the start, or an input of the kind that is named, can lead to more than 1,000,000 steps",
        b"have fewer links that hear one event, fewer actions in what they put, or a timer between the parts of the work",
    ],
    [
        b"V9",
        b"a program that is called has a name that none has, or takes other arguments: more, fewer, of another kind, or an answer that is written directly",
        b"write the program's name and its parameters as in the table of programs",
    ],
    [
        b"40",
        b"a file has more than 65,535 octets",
        b"bring a smaller file",
    ],
    [
        b"41",
        b"with the names that wait there would be more than 1,024 files",
        b"bring one in the place of another",
    ],
    [
        b"51",
        b"256 inputs wait",
        b"let the engine make steps between posts",
    ],
    [b"52", b"the application has quit", b"post nothing any more"],
    [
        b"53",
        b"with the ticks that wait, the clock would be past 4,294,967,295 milliseconds",
        b"start anew",
    ],
    [
        b"54",
        b"a tick is not of 1 to 60,000 milliseconds",
        b"write several ticks",
    ],
    [
        b"57",
        b"no scene of that name is late, or its file waits already",
        b"name the scene in the file of `--late`, and bring its file once",
    ],
    [
        b"58",
        b"the group is another one than the service has under that name",
        b"bring the group that was checked with the service, in either notation",
    ],
];

/// What `file` tells, of a file that is refused.
pub static FILES: [[&[u8]; 3]; 19] = [
    [
        b"1",
        b"the bytes end before the element does, or where one is wanted",
        b"look at the lengths around the offset",
    ],
    [
        b"2",
        b"a tag's number is not in its shortest form, or is above 65,535",
        b"write a number below 31 in the one octet of the tag",
    ],
    [
        b"3",
        b"a length is not in its shortest form",
        b"write a length below 128 in one octet",
    ],
    [b"4", b"a length is left open", b"write the length"],
    [
        b"5",
        b"an integer is missing, not in its shortest form, or past 32 bits",
        b"write it in its shortest form, as `020100`",
    ],
    [
        b"6",
        b"a truth value is neither 00 nor FF",
        b"write one of them, as `0101ff`",
    ],
    [
        b"7",
        b"there are bytes behind what an element, or the file, may hold",
        b"take them away",
    ],
    [
        b"10",
        b"another element is wanted here, or the class does not take the field",
        b"look at the tag at the offset",
    ],
    [
        b"11",
        b"the object at the offset lacks a field that it has to have",
        b"write it",
    ],
    [
        b"12",
        b"a field comes twice, or behind one of a larger number",
        b"order them",
    ],
    [
        b"13",
        b"the file or a list is too long, as it is read, or (at 0) as `to-der` would write it",
        b"split the group",
    ],
    [
        b"14",
        b"a value stands here that may not: a name's byte, a number, a colour, a type of events, a justification",
        b"see the attributes' values",
    ],
    [
        b"20",
        b"a byte begins no token, a string is open, or an `=XX` is wrong",
        b"close the string, or mend what stands there",
    ],
    [
        b"21",
        b"another token is wanted here; or the class does not take the field, or has it already; or, at a closing bracket, a field is missing",
        b"write what is wanted there: of a folder, `redlook why DIR` tells it",
    ],
    [
        b"22",
        b"no table has this keyword or word",
        b"mend the spelling",
    ],
    [
        b"23",
        b"a number is past 32 bits, or a value outside what the table allows",
        b"write a smaller number, or a value that is allowed",
    ],
    [
        b"24",
        b"the file or a list is too long, as it is read, or (at 0) as `to-text` would write it",
        b"split the group",
    ],
    [
        b"40",
        b"a content file has more than 65,535 octets",
        b"make it smaller",
    ],
    [
        b"41",
        b"there are more than 1,024 content files that a group names",
        b"name fewer",
    ],
];

/// What `service` tells, of groups that make no service.
pub static SERVICES: [[&[u8]; 3]; 7] = [
    [b"30", b"two files have one name", b"rename one"],
    [
        b"31",
        b"no group has the name to start with",
        b"name a file that is there",
    ],
    [
        b"32",
        b"two ingredients of a group have one number",
        b"renumber one",
    ],
    [
        b"33",
        b"the start group is a scene",
        b"start an application",
    ],
    [
        b"34",
        b"there are too many groups, ingredients or actions",
        b"split the service, or take some away",
    ],
    [
        b"35",
        b"a written name leads to no path: a part of it between slashes is empty, `.` or `..`, or it has no byte or more than 255",
        b"write the path from the top: `~/x`",
    ],
    [
        b"37",
        b"a line of the file of `--late` is the name of no scene of the service",
        b"write the path of a scene, as `menu`, and end the line by a line feed alone",
    ],
];

/// What `tags` tells, of a file that gives tags and makes no table.
pub static TAGS: [[&[u8]; 3]; 2] = [
    [
        b"60",
        b"a line of the file of `--tags` is wrong: it has another form, a name that is none, a number that is too large, or a name that stands before",
        b"write `class NAME N`, `attr NAME N`, `action NAME N` or `value NAME N`, one space between words; N is decimal digits, up to 65,535",
    ],
    [
        b"61",
        b"a tag stands twice in a context: 1 classes, 2 attributes, 3 actions, 4 values",
        b"give one of the two another tag; what no line names keeps the tag of the profile",
    ],
];

/// What `fault` tells, of an action that was stuck.
pub static FAULTS: [[&[u8]; 3]; 3] = [
    [
        b"absent",
        b"what the action needs was not there",
        b"name one that is there, or make it come before",
    ],
    [
        b"class",
        b"the action has no rule for objects of that class",
        b"write another action, or name another object",
    ],
    [
        b"kind",
        b"a value was of another kind than the action needs",
        b"give the action a value of that kind",
    ],
];

/// What `read` and `script` tell, of files that are not read.
pub static READINGS: [[&[u8]; 3]; 2] = [
    [
        b"read",
        b"a file or folder cannot be read, or is none",
        b"check the path",
    ],
    [
        b"script",
        b"that line of the script is wrong",
        b"write `key NAME`, `tick N`, `stream N`, `engine N`, `file NAME HEX`, `scene NAME`, `scene NAME HEX`, `step N`, `run` or `show`, one space between words; N is decimal digits, up to 4,294,967,295, behind `stream` and `engine` up to 2,147,483,647; `scene NAME` has the name of a group of the service, and in `scene NAME HEX` the octets write a group",
    ],
];
