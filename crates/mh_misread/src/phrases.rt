//! What is said of texts that are not read, in phrases that definitions cite.

pub const THIS_STRING: &[u8] = b"this string";

pub const THIS_WORD: &[u8] = b"this long word";

pub const A_FIELD_OF: &[u8] = b"a field of this ";

pub const OR_ITS_BRACE: &[u8] = b", or the `}` that ends it";

pub const A_GROUP: &[u8] = b"a group, which begins with `{`";

pub const A_GROUP_CLASS: &[u8] = b"`:Application` or `:Scene`";

pub const AN_ITEM_CLASS: &[u8] = b"the class of an item, as `:Text`";

pub const ITEM_NUMBER: &[u8] = b"the number of the item";

pub const A_VARIABLE: &[u8] = b"the reference of a variable";

pub const AND_THEN: &[u8] = b" and then ";

pub const COMMENTS_BEGIN: &[u8] = b"comments begin with `//`, and here stands ";

pub const BETWEEN_ITEMS: &[u8] =
    b"nothing but white space stands between two items, and here stands ";

pub const STRING_BEGINS: &[u8] = b"the string that begins in ";

pub const DOES_NOT_END: &[u8] = b" does not end in that line";

pub const AND_HOLDS: &[u8] = b"; it holds ";

pub const STRING_HOLDS: &[u8] = b"the string that ends in front of this holds ";

pub const END_STRING_BEFORE: &[u8] = b"write the mark that ends it in front of ";

pub const STRING_HAS: &[u8] = b"this string has ";

pub const IN_NO_STRING: &[u8] = b", which stands for itself in no string";

pub const NOTHING_BEGINS: &[u8] = b"no bracket, keyword, word, number or string begins with ";

pub const ESCAPE_CAUSE: &[u8] = b"an `=` in this string has no two hexadecimal digits behind it";

pub const COLON_CAUSE: &[u8] = b"no name stands right behind this `:`";

pub const MINUS_CAUSE: &[u8] = b"no digit stands right behind this `-`";

pub const POINT_CAUSE: &[u8] = b"numbers are whole, and a `.` stands in strings alone";

pub const RIGHT_BEHIND_STRING: &[u8] = b" stands right behind a string, which ends in front of it";

pub const WANTS_COLON: &[u8] = b" is a keyword, and wants a colon in front";

pub const IS_A_KEY: &[u8] = b" is the name of a key, and its number is wanted";

pub const NO_TABLE_HAS: &[u8] = b"no table has ";

pub const SPACE_LACKS: &[u8] = b"white space lacks in front of ";

pub const STANDS_BEHIND: &[u8] = b" stands behind the `}` that ends the group";

pub const TEXT_ENDS: &[u8] = b"the text ends, and the ";

pub const STANDS_HERE: &[u8] = b" stands here, and the ";

pub const IS_NO_FIELD: &[u8] = b" is no field of ";

pub const STANDS_IN_THIS: &[u8] = b" stands in this ";

pub const ENDS_WITHOUT: &[u8] = b" ends without ";

pub const IN_PLACE_OF: &[u8] = b" stands in the place of ";

pub const BARE_NAME_CAUSE: &[u8] = b"a name stands here without brackets of its own";

pub const WHERE_STRING_ENDS: &[u8] = b" where the string ends";

pub const BREAK_WITHIN: &[u8] = b", and `=0D` for a line break within it";

pub const IN_ITS_PLACE: &[u8] = b" in the place of this character";

pub const BETWEEN_APOSTROPHES: &[u8] = b"write the string between `'`, and ";

pub const IN_PLACE_OF_BYTE: &[u8] = b" in the place of this character; a name holds none such";

pub const COMMENT_MEND: &[u8] = b"write `//` in front of the comment; it ends with its line";

pub const ESCAPE_MEND: &[u8] = b"write two digits, as in `=E4`, or `=3D` for the sign itself";

pub const COLON_MEND: &[u8] = b"write the name of the keyword behind it, or take it away";

pub const MINUS_MEND: &[u8] = b"write the number behind it, or take it away";

pub const OPERATOR_MEND: &[u8] =
    b"take it away; a test takes the number of its operator: 1 is equal, 2 not equal, 3 less, 4 less or equal, 5 greater, 6 greater or equal";

pub const BYTE_MEND: &[u8] = b"take it away, or write it in a string";

pub const POINT_MEND: &[u8] = b"write a whole number, or take the `.` away";

pub const BEHIND_STRING_MEND: &[u8] =
    b"write `=27` for each `'` within the string, or the whole between `'` where `\"` is part of it; no name has a `\"`";

pub const BEGIN_ALIKE: &[u8] = b"; these begin alike: ";

pub const ONE_OF_FIELDS: &[u8] = b"write one of its fields: ";

pub const ONE_OF_EVENTS: &[u8] = b"write one of the types of events: ";

pub const WRITE_ITS: &[u8] = b"write its ";

pub const WHERE_IT_ENDS: &[u8] = b" where it ends";

pub const TAKE_AWAY_OR: &[u8] = b"take it away, or write it in an object that has it: ";

pub const TIGHT_MEND: &[u8] = b"write a space there";

pub const BEHIND_MEND: &[u8] = b"take it away, or write it in front of that `}`";

pub const TWICE_MEND: &[u8] = b"take one of the two away";

pub const BARE_NAME_MEND: &[u8] =
    b"write name and number in brackets of their own, as `(\"~/main\" 0)`";
