// The two bases that numbers are written in, and their digits.

#[derive(Clone, Copy)]
pub enum Base {
    Ten,
    Sixteen,
}

impl Base {
    // The value of a digit; the hex ones are in lower case.
    pub(crate) fn digit(self, byte: u8) -> Option<u8> {
        match (self, byte) {
            (_, b'0'..=b'9') => Some(byte - b'0'),
            (Base::Sixteen, b'a'..=b'f') => Some(byte - b'a' + 10),
            _ => None,
        }
    }

    // A number with one more digit behind it; a decimal one that would grow past 64 bits stays as it is.
    pub(crate) fn with_digit(self, value: u64, digit: u8) -> u64 {
        let digit = u64::from(digit);
        match self {
            Base::Ten => value
                .checked_mul(10)
                .and_then(|tens| tens.checked_add(digit))
                .unwrap_or(value),
            Base::Sixteen => value << 4 | digit,
        }
    }
}
