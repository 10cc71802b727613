//! Where a value is, and what is open around it (Part 1, sections 1.2 and 1.6).
ghost use Rattle.std.specs.Prelude.{◌≡◌, ◌≤◌, ℕ, List, length, Some};
ghost use Rattle.amqp_model.specs.Term.{list, uint, ulong, int, long};
ghost use Rattle.amqp_model.specs.Text.{next, wide, shortest, spell, short_code, wide_code, first_place};
ghost use Rattle.amqp_wire.specs.Containers.{container_of};
ghost use Rattle.amqp_encoder.specs.Values.{place_of, opened_of, shortest_text};
ghost use Rattle.amqp_encoder.specs.Measuring.{around, is_none, is_odd_map, holds};

use amqp_wire::nesting::NESTING;
use amqp_wire::{Container, format_code};

/// Where a value is. It is by itself; or the first item of an array, with the constructor of all items; or a later item, which is data
/// alone (Part 1, section 1.2.4).
#[derive(Clone, Copy)]
pub(crate) enum Place {
    Alone,
    First,
    Later,
}

impl Place {
    /// Returns where the value after this one is.
    pub(crate) fn next(self) -> Place
        ensures { place_of result ≡ next (place_of self) }
    {
        match self {
            Place::Alone => Place::Alone,
            Place::First | Place::Later => Place::Later,
        }
    }
}

/// Returns whether the container is a list.
pub(crate) fn is_list(container: Container) -> bool
    ensures { result ≡ holds (Some list) (container_of container) }
{
    match container {
        Container::List => true,
        Container::Map | Container::Array => false,
    }
}

/// Returns the code with one byte for the size.
pub(crate) fn short_code(container: Container) -> u8
    ensures { result ≡ short_code (container_of container) }
{
    match container {
        Container::List => format_code::LIST_8,
        Container::Map => format_code::MAP_8,
        Container::Array => format_code::ARRAY_8,
    }
}

/// Returns the code with four bytes for the size.
pub(crate) fn wide_code(container: Container) -> u8
    ensures { result ≡ wide_code (container_of container) }
{
    match container {
        Container::List => format_code::LIST_32,
        Container::Map => format_code::MAP_32,
        Container::Array => format_code::ARRAY_32,
    }
}

/// Returns where the first item of the container is.
pub(crate) fn first_place(container: Container) -> Place
    ensures { place_of result ≡ first_place (container_of container) }
{
    match container {
        Container::List | Container::Map => Place::Alone,
        Container::Array => Place::First,
    }
}

/// Returns whether it is a map with a key without a value (Part 1, section 1.6.23).
pub(crate) fn is_odd(container: Container, count: usize) -> bool
    ensures { result ≡ is_odd_map (container_of container) count }
{
    match container {
        Container::Map => count % 2 != 0,
        Container::List | Container::Array => false,
    }
}

/// Returns how many containers may be open around it. An array counts in nesting if one of its items is no primitive, so an array of
/// primitives may be one deeper.
pub(crate) fn around(container: Container) -> usize
    ensures same { result ≡ around (container_of container) }
    ensures within { result ≤ NESTING }
{
    match container {
        Container::List | Container::Map => NESTING - 1,
        Container::Array => NESTING,
    }
}

/// What is open.
#[derive(Clone, Copy)]
pub(crate) enum Opened {
    Container(Container),
    Described,
}

impl Opened {
    pub(crate) fn is_described(self) -> bool
        ensures { result ≡ is_none (opened_of self) }
    {
        match self {
            Opened::Container(_) => false,
            Opened::Described => true,
        }
    }

    pub(crate) fn is_container(self, container: Container) -> bool
        ensures { result ≡ holds (opened_of self) (container_of container) }
    {
        match (self, container) {
            (Opened::Container(Container::List), Container::List) => true,
            (Opened::Container(Container::Map), Container::Map) => true,
            (Opened::Container(Container::Array), Container::Array) => true,
            _ => false,
        }
    }
}

/// How a primitive is written by itself: a code alone, a code and a byte, or as in an array.
#[derive(Clone, Copy)]
pub enum Shortest {
    Code(u8),
    Byte(u8, u8),
    Wide,
}

impl Shortest {
    pub(crate) fn of_uint(value: u32) -> Shortest
        ensures { shortest_text result (spell (wide (uint value))) ≡ spell (shortest (uint value)) }
    {
        if value >= 256 {
            Shortest::Wide
        } else if value == 0 {
            Shortest::Code(format_code::UINT_0)
        } else {
            Shortest::Byte(format_code::SMALL_UINT, value as u8)
        }
    }

    pub(crate) fn of_ulong(value: u64) -> Shortest
        ensures { shortest_text result (spell (wide (ulong value))) ≡ spell (shortest (ulong value)) }
    {
        if value >= 256 {
            Shortest::Wide
        } else if value == 0 {
            Shortest::Code(format_code::ULONG_0)
        } else {
            Shortest::Byte(format_code::SMALL_ULONG, value as u8)
        }
    }

    pub(crate) fn of_int(value: i32) -> Shortest
        ensures { shortest_text result (spell (wide (int value))) ≡ spell (shortest (int value)) }
    {
        if -128 <= value && value < 128 {
            let [byte] = (value as i8).to_be_bytes();
            return Shortest::Byte(format_code::SMALL_INT, byte);
        }
        Shortest::Wide
    }

    pub(crate) fn of_long(value: i64) -> Shortest
        ensures { shortest_text result (spell (wide (long value))) ≡ spell (shortest (long value)) }
    {
        if -128 <= value && value < 128 {
            let [byte] = (value as i8).to_be_bytes();
            return Shortest::Byte(format_code::SMALL_LONG, byte);
        }
        Shortest::Wide
    }

    /// Returns how many bytes it takes, if it takes `wide` bytes in an array.
    pub(crate) fn len(self, wide: usize) -> usize
        ensures { (bytes : List ℕ) → length bytes ≡ wide → length (shortest_text self bytes) ≡ result }
    {
        match self {
            Shortest::Code(_) => 1,
            Shortest::Byte(_, _) => 2,
            Shortest::Wide => wide,
        }
    }
}
