//! The fields of a row, and how their values are written.
ghost use Rattle.std.specs.Prelude.{◌≡◌};
ghost use Rattle.row_forms.specs.Numbers.{bytes_of, most_of};
ghost use Rattle.row_forms.specs.Values.{reason_of, reason_of_number, width};

use crate::fault::Reason;

/// A field of a row, in the order in which the bytes stand.
#[derive(Clone, Copy, Debug)]
pub enum Field {
    /// A word `KEY=VALUE`.
    Value(&'static str, Kind),
    /// So many zero bytes, and no word.
    Zeros(usize),
    /// The CRC of all bytes behind it as two bytes, and no word.
    Check,
}

/// What a value is, in words and in bytes.
#[derive(Clone, Copy, Debug)]
pub enum Kind {
    /// A number, the most significant byte first.
    Number(Width, Spelling),
    /// A name of 1 to 19 letters, digits and underscores, as 20 bytes.
    Name,
    /// All bytes that are left, in pairs of hexadecimal digits.
    Block,
    /// The expression of an actionpoint: how many steps it has, and 16 steps of two bytes, of which those that it hasn't are zero.
    /// A list such as `w1,w2,and`, whose texts these choices give.
    Expression(&'static [Choice]),
}

/// How large a number is: 1, 2 or 4 bytes.
#[derive(Clone, Copy, Debug, PartialEq, Eq)]
pub enum Width {
    U8,
    U16,
    U32,
}

/// How a number is shown. Where a number is read, decimal digits and `0x` with hexadecimal digits are both well.
#[derive(Clone, Copy, Debug)]
pub enum Spelling {
    /// In decimal digits.
    Decimal,
    /// As `0x` and all hexadecimal digits of the width.
    Hex,
    /// As the word of the number, where it has one, and else in decimal digits.
    Choice(&'static [Choice]),
    /// As the numbers of the bits that are 1, the lowest bit being 1, such as `1,3`; as `none` where there is none.
    Mask,
    /// As seconds in decimal digits. `+H:MM:SS` is read too, as a time behind an epoch.
    Time,
}

/// A number and the word for it.
#[derive(Clone, Copy, Debug)]
pub struct Choice {
    pub text: &'static str,
    pub number: u32,
}

impl Width {
    /// How many bytes a number has.
    pub(crate) fn bytes(self) -> usize
        ensures { result ≡ bytes_of self }
    {
        match self {
            Width::U8 => 1,
            Width::U16 => 2,
            Width::U32 => 4,
        }
    }

    /// The largest number.
    pub(crate) fn most(self) -> u32
        ensures { result ≡ most_of self }
    {
        match self {
            Width::U8 => 255,
            Width::U16 => 65_535,
            Width::U32 => 4_294_967_295,
        }
    }
}

impl Kind {
    /// How many of these bytes are the value's.
    pub(crate) fn width(&self, bytes: &[u8]) -> usize
        ensures { result ≡ width self.now bytes.now }
    {
        match self {
            Kind::Number(number, _) => number.bytes(),
            Kind::Name => 20,
            Kind::Block => bytes.len(),
            Kind::Expression(_) => 34,
        }
    }

    /// Why a text says no value.
    pub(crate) fn reason(&self) -> Reason
        ensures { result ≡ reason_of self.now }
    {
        match self {
            Kind::Number(width, spelling) => number_reason(*width, spelling),
            Kind::Name => Reason::Name,
            Kind::Block => Reason::Block,
            Kind::Expression(_) => Reason::Expression,
        }
    }
}

fn number_reason(width: Width, spelling: &Spelling) -> Reason
    ensures { result ≡ reason_of_number width spelling.now }
{
    match spelling {
        Spelling::Decimal | Spelling::Hex => match width {
            Width::U8 => Reason::Number8,
            Width::U16 => Reason::Number16,
            Width::U32 => Reason::Number32,
        },
        Spelling::Choice(_) => Reason::Choice,
        Spelling::Mask => Reason::Mask,
        Spelling::Time => Reason::Time,
    }
}
