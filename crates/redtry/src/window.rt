//! The window of the terminal, of which `bin/redtry` tells.
use crate::failure::Failure;
use mh_live::{COLUMNS_WANTED, LINES_WANTED, Live, put_small};
use mh_told::text::Text;
use std::alloc::Global;
use std::fs;
use std::rt::Runtime;

/// How many characters of a line are shown where nobody tells how wide the window is, and at most.
const MOST_COLUMNS: usize = 78;

/// What is known of the window: a file tells its rows and its columns, and is written anew when they change, and when the
/// program goes on that was stopped.
#[derive(Drop)]
pub struct Window<'a> {
    name: Option<&'a str>,
    told: Vec<u8>,
    size: Option<Size>,
    /// Whether what the window shows is what it is too small for.
    is_told_small: bool,
}

#[derive(Clone, Copy)]
struct Size {
    rows: u32,
    columns: u32,
}

impl Size {
    fn is_small(self) -> bool {
        (self.rows as usize) < LINES_WANTED || (self.columns as usize) < COLUMNS_WANTED
    }
}

impl<'a> Window<'a> {
    pub fn new(alloc: Global, name: Option<&'a str>) -> Window<'a> {
        Window {
            name,
            told: Vec::new(alloc),
            size: None,
            is_told_small: false,
        }
    }

    /// Whether the window is told anew; all is drawn again then.
    pub fn look<R: Runtime + AllocGlobal>(
        &mut self,
        rt: &R,
        live: &mut Live,
    ) -> Result<bool, Failure> {
        let Some(name) = self.name else {
            return Ok(false);
        };
        let Ok(told) = fs::read(rt, name) else {
            return Ok(false);
        };
        if told.as_slice() == self.told.as_slice() {
            return Ok(false);
        }
        self.size = size_in(told.as_slice());
        self.told = told;
        self.forget(live);
        Ok(true)
    }

    /// What the window shows is not known any more.
    pub fn forget(&mut self, live: &mut Live) {
        self.is_told_small = false;
        live.resize(self.columns());
    }

    fn columns(&self) -> usize {
        match self.size {
            Some(size) => (size.columns as usize).min(MOST_COLUMNS),
            None => MOST_COLUMNS,
        }
    }

    /// Puts what has to go to the terminal: of a window that is too small what is wanted, once.
    pub fn draw<R: Runtime + AllocGlobal>(
        &mut self,
        rt: &R,
        live: &mut Live,
        text: &mut Text,
    ) -> Result<(), Failure> {
        match self.size {
            Some(size) if size.is_small() => {
                if !self.is_told_small {
                    put_small(text, rt.alloc(), size.rows, size.columns)?;
                    self.is_told_small = true;
                }
                Ok(())
            }
            _ => {
                live.draw(text)?;
                Ok(())
            }
        }
    }
}

/// The rows and the columns that bytes tell, two numbers with a space between, and what stands behind them.
fn size_in(bytes: &[u8]) -> Option<Size> {
    let (rows, behind) = number_in(bytes)?;
    let (columns, _) = number_in(behind)?;
    if rows == 0 || columns == 0 {
        return None;
    }
    Some(Size { rows, columns })
}

/// The number that stands first, and what stands behind the sign behind it.
fn number_in(bytes: &[u8]) -> Option<(u32, &[u8])> {
    let mut number = 0u32;
    let mut rest = bytes;
    while let [byte, behind @ ..] = rest {
        rest = behind;
        if !byte.is_ascii_digit() {
            return Some((number, rest));
        }
        number = with_digit(number, *byte)?;
    }
    None
}

/// The number with a digit more.
fn with_digit(number: u32, digit: u8) -> Option<u32> {
    if !digit.is_ascii_digit() {
        return None;
    }
    number.checked_mul(10)?.checked_add(u32::from(digit - b'0'))
}
