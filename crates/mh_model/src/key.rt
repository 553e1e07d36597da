//! The keys of the remote control, and which of them a scene hears.
ghost use Rattle.std.specs.Prelude.{◌≡◌};
ghost use Rattle.mh_model.specs.Key.{key_number, is_digit, passes};

/// A key of the remote control (ETSI ES 202 184, the user input registers; the numbers are the
/// profile's own).
#[derive(Clone, Copy, PartialEq, Eq)]
pub enum Key {
    Up,
    Down,
    Left,
    Right,
    Digit0,
    Digit1,
    Digit2,
    Digit3,
    Digit4,
    Digit5,
    Digit6,
    Digit7,
    Digit8,
    Digit9,
    Select,
    Cancel,
    Red,
    Green,
    Yellow,
    Blue,
    Text,
}

/// All keys.
pub const KEYS: [Key; 21] = [
    Key::Up,
    Key::Down,
    Key::Left,
    Key::Right,
    Key::Digit0,
    Key::Digit1,
    Key::Digit2,
    Key::Digit3,
    Key::Digit4,
    Key::Digit5,
    Key::Digit6,
    Key::Digit7,
    Key::Digit8,
    Key::Digit9,
    Key::Select,
    Key::Cancel,
    Key::Red,
    Key::Green,
    Key::Yellow,
    Key::Blue,
    Key::Text,
];

impl Key {
    /// The number of the key, which is the data of its event.
    pub fn number(self) -> i32
        ensures { result ≡ key_number self }
    {
        match self {
            Key::Up => 1,
            Key::Down => 2,
            Key::Left => 3,
            Key::Right => 4,
            Key::Digit0 => 5,
            Key::Digit1 => 6,
            Key::Digit2 => 7,
            Key::Digit3 => 8,
            Key::Digit4 => 9,
            Key::Digit5 => 10,
            Key::Digit6 => 11,
            Key::Digit7 => 12,
            Key::Digit8 => 13,
            Key::Digit9 => 14,
            Key::Select => 15,
            Key::Cancel => 16,
            Key::Red => 100,
            Key::Green => 101,
            Key::Yellow => 102,
            Key::Blue => 103,
            Key::Text => 104,
        }
    }

    /// Whether a scene with this input event register hears the key.
    pub fn passes(self, register: i32) -> bool
        ensures { result ≡ passes register self }
    {
        match register {
            3 => matches!(
                self,
                Key::Cancel | Key::Red | Key::Green | Key::Yellow | Key::Blue | Key::Text
            ),
            5 => !self.is_digit(),
            _ => true,
        }
    }

    fn is_digit(self) -> bool
        ensures { result ≡ is_digit self }
    {
        matches!(
            self,
            Key::Digit0
                | Key::Digit1
                | Key::Digit2
                | Key::Digit3
                | Key::Digit4
                | Key::Digit5
                | Key::Digit6
                | Key::Digit7
                | Key::Digit8
                | Key::Digit9
        )
    }
}
