//! What the measuring pass keeps of an open container.
ghost use Rattle.std.specs.Prelude.{◌≡◌, ◌≤◌, length, []};
ghost use Rattle.std.specs.Bool.{OnTrue, OnFalse};
ghost use Rattle.amqp_model.specs.Term.{list, array};
ghost use Rattle.amqp_wire.specs.Containers.{container_of};
ghost use Rattle.amqp_encoder.specs.Values.{place_of};
ghost use Rattle.amqp_encoder.specs.Opening.{opening, filler, content_length};
ghost use Rattle.amqp_encoder.specs.State.{seen, holding, describing};
ghost use Rattle.amqp_encoder.specs.Measuring.{is_full, size_of, IsUnfilled};

use crate::places::{Opened, Place, first_place};
use crate::size::{MAX_CONTENT, Size};
use amqp_wire::{Container, Error};

/// An open container, or the row of values that are in none.
#[derive(Clone, Copy)]
pub(crate) struct MeasuredContainer {
    pub(crate) opened: Opened,
    /// Where its next value is.
    pub(crate) place: Place,
    /// The code of the items of the array that the next value is an item of, once it has one.
    pub(crate) code: u8,
    /// The bytes and the number of the values so far.
    pub(crate) content: usize,
    pub(crate) count: usize,
    /// Its place among the sizes.
    pub(crate) index: usize,
    /// Where the next value's constructor goes on among the kept descriptors.
    pub(crate) form: usize,
}

impl MeasuredContainer {
    /// Returns the row of values that are in no container.
    pub(crate) fn outermost() -> MeasuredContainer
        ensures { seen result ≡ holding list 0 0 }
    {
        MeasuredContainer::of_container(Container::List, 0, 0)
    }

    pub(crate) fn of_container(container: Container, index: usize, form: usize) -> MeasuredContainer
        ensures { seen result ≡ holding (container_of container) index form }
    {
        MeasuredContainer {
            opened: Opened::Container(container),
            place: first_place(container),
            code: 0,
            content: 0,
            count: 0,
            index,
            form,
        }
    }

    /// Returns a described value at the place of the next value, under so many bytes of descriptor.
    pub(crate) fn of_described(self, content: usize, form: usize) -> MeasuredContainer
        ensures { seen result ≡ describing (seen self) content form }
    {
        MeasuredContainer {
            opened: Opened::Described,
            place: self.place,
            code: self.code,
            content,
            count: 0,
            index: 0,
            form,
        }
    }

    /// Returns whether it is a described value that has its value.
    pub(crate) fn is_full(self) -> bool
        ensures { result ≡ is_full (seen self) }
    {
        self.opened.is_described() && self.count != 0
    }

    /// Returns whether it is a described value by itself that has no value yet.
    #[inline(always)]
    pub(crate) fn is_unfilled(self) -> bool
        ensures { OnTrue result (IsUnfilled (seen self)) }
    {
        match self.place {
            Place::Alone => self.opened.is_described() && self.count == 0,
            Place::First | Place::Later => false,
        }
    }

    /// Returns its size. It is refused if the size doesn't fit in four bytes.
    pub(crate) fn size(self) -> Result<Size, Error>
        ensures { result ≡ size_of (seen self) }
    {
        if self.content > MAX_CONTENT as usize || self.count > 0xffff_ffff {
            return Err(Error::TooLarge);
        }
        Ok(Size {
            content: self.content as u32,
            count: self.count as u32,
        })
    }
}

/// Returns whether it is an array without items, which holds the constructor of null (Part 1, section 1.2.4).
#[inline(always)]
pub(crate) fn is_filled_up(container: Container, size: Size) -> bool
    ensures filled { OnTrue result ((container_of container ≡ array) × (size.count ≡ 0)) }
    ensures unfilled { OnFalse result (filler (container_of container) size.count ≡ []) }
    ensures as_it_is { OnFalse result (content_length (container_of container) size.count size.content ≡ size.content) }
{
    match container {
        Container::List | Container::Map => false,
        Container::Array => size.count == 0,
    }
}

/// Returns how many bytes come before a container's items, in its place.
#[inline(always)]
pub(crate) fn opening_len(place: Place, container: Container, size: Size) -> usize
    ensures same { result ≡ length (opening (place_of place) (container_of container) size.count size.content) }
    ensures short { result ≤ 10 }
{
    let filler = if is_filled_up(container, size) { 1 } else { 0 };
    match (place, container) {
        (Place::Alone, Container::List) if size.count == 0 => 1,
        (Place::Alone, _) => {
            if filler == 1 || (size.content < 255 && size.count < 256) {
                3 + filler
            } else {
                9
            }
        }
        (Place::First, _) => 9 + filler,
        (Place::Later, _) => 8 + filler,
    }
}
