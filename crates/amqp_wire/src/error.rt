//! Errors: why a value isn't read or isn't written.
ghost use Rattle.std.specs.Prelude.{◌≡◌};
ghost use Rattle.amqp_wire.specs.Error.{number_of, name_of};

use std::alloc::{AllocError, AllocFailed};
use std::io::ErrorKind;

/// Why a value is refused, in reading or in writing. If an input has several faults, which one is reported is unspecified.
#[derive(Clone, Copy, Debug, PartialEq, Eq, thiserror::Error)]
pub enum Error {
    /// The input ends before a constructor does, or before the end of the data that a width or a size announces.
    #[error("the input ends within a value")]
    Cut,
    /// A constructor has this format code, which isn't in Part 1, section 1.6.
    #[error("no constructor has the code 0x{0:02x}")]
    UnknownCode(u8),
    /// The code of a float (0x72) or a double (0x82), which are not supported (Part 1, sections 1.6.11 and 1.6.12).
    #[error("floating point numbers, as of the code 0x{0:02x}, are not supported")]
    FloatCode(u8),
    /// The size of a list, a map or an array differs from what its count and its items take (Part 1, sections 1.2.3 and 1.2.4). Or a value
    /// extends past the end of the container that it is in. If not all of the bytes that the outermost size announces are present, the
    /// error is `Cut` instead.
    #[error("a size differs from its content")]
    Size,
    /// A map has a key without a value: its count is odd (Part 1, section 1.6.23).
    #[error("a map has a key without a value")]
    OddCount,
    /// Two keys of a map are equal (Part 1, section 1.6.23).
    #[error("a map has a key twice")]
    DuplicateKey,
    /// A composite has more items than its type has fields, or a container is ended before all of its items are read.
    #[error("there are more items than the type has")]
    Surplus,
    /// A mandatory field is null or omitted, or a value is asked for and the open container has no item left.
    #[error("a mandatory value is missing")]
    Missing,
    /// The value is described, but its descriptor isn't one of the type's.
    #[error("the descriptor is none of the type's")]
    WrongDescriptor,
    /// Values nest more than 128 deep, or a constructor has more than 128 descriptors. Described values, lists and maps count in nesting,
    /// and an array counts if one of its items is no primitive. Part 1 sets no bound; this one is the project's.
    #[error("values are nested too deep")]
    Depth,
    /// The items of an array would have no bytes: the code of their constructor is one of 0x40 to 0x45.
    #[error("the items of an array have no bytes")]
    ZeroWidthItems,
    /// The byte of a boolean is neither 0 nor 1 (Part 1, section 1.6.2).
    #[error("a boolean's byte is neither 0 nor 1")]
    BadBool,
    /// The four bytes of a char aren't a Unicode scalar value (Part 1, section 1.6.16).
    #[error("a char is no Unicode scalar value")]
    BadChar,
    /// The bytes of a string are not UTF-8 (Part 1, section 1.6.20).
    #[error("a string is not UTF-8")]
    BadUtf8,
    /// A symbol, or the name of a descriptor, has a byte above 0x7f (Part 1, section 1.6.21).
    #[error("a symbol is not ASCII")]
    NonAscii,
    /// A symbol is read as a restricted type, and isn't one of its texts.
    #[error("a symbol is not among the type's texts")]
    UnknownText,
    /// A number is read as a restricted type, and isn't one of its numbers.
    #[error("a number is not among the type's numbers")]
    UnknownNumber,
    /// A mandatory field of several values has none: it is null, omitted or without items.
    #[error("a mandatory field of several values has none")]
    EmptyMultiple,
    /// A message has no body section, and its body type has no value for that.
    #[error("a message has no body")]
    EmptyBody,
    /// Bytes follow, but no section begins there.
    #[error("what stands here is no section")]
    NotSection,
    /// An allocation failed, in a call that allocates.
    #[error("out of memory")]
    Memory,
    /// The reader has failed with this kind of error; in `run` of the program's engine, the reader or the writer.
    #[error("the reader or writer failed: {0}")]
    Read(ErrorKind),
    /// The items of an array to be written need different constructors (Part 1, section 1.2.4).
    #[error("the items of an array need different constructors")]
    MixedArray,
    /// A size or a count to be written is above 4,294,967,295, or the whole text is longer than the machine counts.
    #[error("a size passes 32 bits")]
    TooLarge,
    /// A value or an end is where it may not be. It is an end that doesn't match what is open, a described value without its one value, or
    /// a value of a kind that the type doesn't hold.
    #[error("a value does not stand where it may")]
    InvalidValue,
    /// The item of an array would need a constructor of its own. A value with kept bytes is written into an array, or is read from one.
    #[error("a lazy value is the item of an array")]
    LazyInArray,
    /// The value's constructor begins with this code, 0x00 for a described value. The code is known, but it isn't one of the type's.
    #[error("the code 0x{0:02x} is not the type's")]
    WrongType(u8),
    /// A descriptor is neither a symbol nor a ulong.
    #[error("a descriptor is neither a symbol nor a ulong")]
    BadDescriptor,
    /// A user's own type refuses the value, for a reason that the type numbers.
    #[error("refused by the type, for reason {0}")]
    Custom(u32),
    /// The sections of a message aren't in the order of Part 3, section 3.2, and the call requires that order.
    #[error("a section is misplaced")]
    Misplaced,
    /// The input is past a limit that the caller has set.
    #[error("a limit was passed")]
    Limit,
}

impl Error {
    // The number and the name.
    fn row(&self) -> (u8, &'static str)
        ensures number { result.0 ≡ number_of self.now }
        ensures name { result.1.now ≡ name_of self.now }
    {
        match self {
            Error::Cut => (1, "Cut"),
            Error::UnknownCode(_) => (2, "UnknownCode"),
            Error::FloatCode(_) => (3, "FloatCode"),
            Error::Size => (4, "Size"),
            Error::OddCount => (5, "OddCount"),
            Error::DuplicateKey => (6, "DuplicateKey"),
            Error::Surplus => (7, "Surplus"),
            Error::Missing => (8, "Missing"),
            Error::WrongDescriptor => (9, "WrongDescriptor"),
            Error::Depth => (10, "Depth"),
            Error::ZeroWidthItems => (11, "ZeroWidthItems"),
            Error::BadBool => (12, "BadBool"),
            Error::BadChar => (13, "BadChar"),
            Error::BadUtf8 => (14, "BadUtf8"),
            Error::NonAscii => (15, "NonAscii"),
            Error::UnknownText => (16, "UnknownText"),
            Error::UnknownNumber => (17, "UnknownNumber"),
            Error::EmptyMultiple => (18, "EmptyMultiple"),
            Error::EmptyBody => (19, "EmptyBody"),
            Error::NotSection => (20, "NotSection"),
            Error::Memory => (21, "Memory"),
            Error::Read(_) => (22, "Read"),
            Error::MixedArray => (23, "MixedArray"),
            Error::TooLarge => (24, "TooLarge"),
            Error::InvalidValue => (25, "InvalidValue"),
            Error::LazyInArray => (26, "LazyInArray"),
            Error::WrongType(_) => (27, "WrongType"),
            Error::BadDescriptor => (28, "BadDescriptor"),
            Error::Custom(_) => (29, "Custom"),
            Error::Misplaced => (30, "Misplaced"),
            Error::Limit => (31, "Limit"),
        }
    }

    /// Returns the number of the error, from 1 to 31, in the order of the variants.
    pub fn number(&self) -> u8
        ensures { result ≡ number_of self.now }
    {
        self.row().0
    }

    /// Returns the name of the error, which is the name of its variant.
    pub fn name(&self) -> &'static str
        ensures { result.now ≡ name_of self.now }
    {
        self.row().1
    }
}

impl From<AllocError> for Error {
    ghost use Rattle.amqp_wire.specs.declared.error.Error.TheVariants.{Memory};

    ghost from_gives = { λ _ e. e ≡ Memory };

    fn from(_: AllocError) -> Error {
        Error::Memory
    }
}

impl<T: Drop> From<AllocFailed<T>> for Error {
    ghost use Rattle.amqp_wire.specs.declared.error.Error.TheVariants.{Memory};

    ghost from_gives = { λ _ e. e ≡ Memory };

    fn from(_: AllocFailed<T>) -> Error {
        Error::Memory
    }
}
