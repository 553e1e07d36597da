//! What is told of the object that a refusal names, by the number of the refusal: what stands in front of
//! the object, and behind it.
ghost use Rattle.std.specs.Prelude.{◌≡◌, map};
ghost use Rattle.mh_why.specs.Advice.{cells, objects};

/// What is told of the object, by the number of the refusal.
pub static OBJECTS: [[&[u8]; 3]; 7] = [
    [
        b"V1",
        b"  What is named there is ",
        b", which is absent then.",
    ],
    [
        b"V2",
        b"  What is named there is ",
        b", whose class does not fit.",
    ],
    [b"V3", b"  It is about ", b"."],
    [
        b"V4",
        b"  What is meant there can be ",
        b", which is absent then.",
    ],
    [
        b"V5",
        b"  What is meant there can be ",
        b", whose class does not fit.",
    ],
    [b"V7", b"  The number is held by ", b"."],
    [b"V9", b"  The program that is called is ", b"."],
];

#[tactic(auto, unfolding(crate::specs::Advice::objects))]
pub(crate) fn objects() -> &'static [[&'static [u8]; 3]]
    ensures { map cells result.now ≡ objects }
{
    &OBJECTS
}
