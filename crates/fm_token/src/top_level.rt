//! Top level: where a sign of a text counts.

ghost use Rattle.std.specs.Prelude.{◌≡◌, ◌+◌, ◌<◌, ◌≤◌, length, IfSome};
ghost use Rattle.fm_token.specs.TopLevel.{close_of, has_top};
ghost use Rattle.fm_token.specs.Steps.{after_byte, is_at_top, is_last_close};

/// What stands before a position of a text.
#[derive(Clone, Copy)]
pub struct Before {
    /// Whether the position is inside a constant.
    pub inside: bool,
    /// The opening parentheses outside of constants.
    pub opening: usize,
    /// The closing parentheses outside of constants.
    pub closing: usize,
}

/// Nothing.
const START: Before = Before {
    inside: false,
    opening: 0,
    closing: 0,
};

impl Before {
    fn is_at_top(self) -> bool
        ensures { result ≡ is_at_top self }
    {
        !self.inside && self.opening == self.closing
    }

    fn is_last_close(self, byte: u8) -> bool
        requires { self.closing < usize.MAX }
        ensures { result ≡ is_last_close self byte }
    {
        byte == b')' && !self.inside && self.opening == self.closing + 1
    }

    fn after_byte(self, byte: u8) -> Before
        requires opening { self.opening < usize.MAX }
        requires closing { self.closing < usize.MAX }
        ensures { result ≡ after_byte self byte }
    {
        Before {
            inside: if byte == b'\'' {
                !self.inside
            } else {
                self.inside
            },
            opening: self.opening + usize::from(byte == b'(' && !self.inside),
            closing: self.closing + usize::from(byte == b')' && !self.inside),
        }
    }
}

/// Whether the sign stands somewhere at top level.
pub fn has_top(text: &[u8], sign: u8) -> bool
    ensures { result ≡ has_top sign text.now }
{
    let mut before = START;
    'bytes: for byte in text {
        if *byte == sign && before.is_at_top() {
            return true;
        }
        before = before.after_byte(*byte);
    }
    false
}

/// How many bytes there are up to and with the parenthesis that closes the first one, in a text
/// that begins with `IF(`.
pub fn close_of(text: &[u8]) -> Option<usize>
    ensures at { result ≡ close_of text.now }
    ensures within { IfSome result (λ n. (0 < n) × (n ≤ length text.now)) }
{
    let mut before = START;
    'bytes: for (i, byte) in text.iter().enumerate() {
        if before.is_last_close(*byte) {
            return Some(i + 1);
        }
        before = before.after_byte(*byte);
    }
    None
}
