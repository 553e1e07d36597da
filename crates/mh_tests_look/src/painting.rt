//! Explanations in colours.
use crate::cases::all_hold;
use mh_cases::{Question, said};
use mh_why::painted;
use std::alloc::Global;

static LINES: &str = r#"
refused V1 s 11 1 Run| => \1b\[1mrefused V1 s 11 1 Run\1b\[0m|;;
  It stands in Run.|  s, line 1, column 2|  1 \7c\ {:Scene|    \7c\  ^^^| =>   It stands in Run.|  s, line 1, column 2|  1 \7c\ {:Scene|\1b\[1;31m    \7c\  ^^^\1b\[0m|;;
  Cause: one is|gone.| =>   \1b\[33mCause:\1b\[0m one is|\1b\[1mgone.\1b\[0m| -- a line without a space in front is one of an output;;
  Cause: two|    lines.|  Mend: none.| =>   \1b\[33mCause:\1b\[0m two|    lines.|  \1b\[32mMend:\1b\[0m none.|;;
   Cause: x|  Cause|  Mended:| =>    Cause: x|  Cause|  Mended:|;;
 =>  -- nothing;;
accepted => \1b\[1maccepted\1b\[0m -- without an end"#;

struct Painted;

impl Question for Painted {
    fn answer(alloc: Global, _: &str, bytes: &[u8]) -> Option<Vec<u8>> {
        let text = painted(alloc, bytes).ok()?;
        said(alloc, text.as_slice())
    }
}

#[test]
fn colours_lines(rt: HostRuntime) {
    all_hold::<Painted>(&rt, rt.alloc(), LINES);
}
