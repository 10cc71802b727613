//! The containers that are open around the innermost one.
ghost use Rattle.std.specs.Prelude.{◌≡◌, ◌<◌, ◌≤◌, ◌*◌, ◌^◌, length, take, get_or, slice_set, cond, Some, None};
ghost use Rattle.std.specs.List.{sum_by};
ghost use Rattle.amqp_decoder.specs.Row.{kind_of, is_kind, left_of};
ghost use Rattle.amqp_decoder.specs.State.{shared_in, unused};

use crate::frame::{OpenContainer, Place};
use amqp_wire::nesting::LEVELS;
use std::marker::Model;

/// Where a value is, and whether a size bounds it.
#[derive(Clone, Copy)]
#[repr(u8)]
enum Kind {
    Top,
    InList,
    InMap,
    InArray,
    InDescribed,
    SizedTop,
    SizedInList,
    SizedInMap,
    SizedInArray,
    SizedInDescribed,
}

impl Kind {
    fn of(place: Place, is_sized: bool) -> Kind
        ensures { result ≡ kind_of place is_sized }
    {
        if is_sized {
            match place {
                Place::Top => Kind::SizedTop,
                Place::InList => Kind::SizedInList,
                Place::InMap => Kind::SizedInMap,
                Place::InArray => Kind::SizedInArray,
                Place::InDescribed => Kind::SizedInDescribed,
            }
        } else {
            match place {
                Place::Top => Kind::Top,
                Place::InList => Kind::InList,
                Place::InMap => Kind::InMap,
                Place::InArray => Kind::InArray,
                Place::InDescribed => Kind::InDescribed,
            }
        }
    }

    fn parts(self) -> (Place, bool)
        ensures { is_kind self result.0 result.1 }
    {
        match self {
            Kind::Top => (Place::Top, false),
            Kind::InList => (Place::InList, false),
            Kind::InMap => (Place::InMap, false),
            Kind::InArray => (Place::InArray, false),
            Kind::InDescribed => (Place::InDescribed, false),
            Kind::SizedTop => (Place::Top, true),
            Kind::SizedInList => (Place::InList, true),
            Kind::SizedInMap => (Place::InMap, true),
            Kind::SizedInArray => (Place::InArray, true),
            Kind::SizedInDescribed => (Place::InDescribed, true),
        }
    }
}

// So many bytes are left, if a size bounds them.
#[inline(always)]
fn bound(is_sized: bool, left: u32) -> Option<u32>
    ensures { result ≡ cond is_sized (Some left) None }
{
    if is_sized { Some(left) } else { None }
}

/// The containers that are open around the innermost one, the outermost first. Each of their parts is in a row of its own, so that a
/// decoder is small and fast to make.
#[derive(Drop)]
pub(crate) struct Row {
    items: [u32; LEVELS],
    left: [u32; LEVELS],
    kinds: [Kind; LEVELS],
    codes: [u8; LEVELS],
    first: [u16; LEVELS],
    last: [u16; LEVELS],
}

impl Model for Row {
    ghost use Rattle.std.specs.Prelude.{◌≡◌, length, List};
    ghost use Rattle.amqp_decoder.specs.declared.frame.OpenContainer.{OpenContainer};
    ghost use Rattle.amqp_decoder.specs.Row.{joined};

    ghost Value = { List OpenContainer };

    ghost view = { λ r. joined r.items r.left r.kinds r.codes r.first r.last };

    ghost invariant = { λ r. (length r.items ≡ 129) × (length r.left ≡ 129) × (length r.kinds ≡ 129) × (length r.codes ≡ 129)
        × (length r.first ≡ 129) × (length r.last ≡ 129) };
}

impl Row {
    /// Returns a row in which nothing is open.
    pub(crate) fn new() -> Row
        ensures { length result ≡ 129 }
    {
        Row {
            items: [0; LEVELS],
            left: [0; LEVELS],
            kinds: [Kind::Top; LEVELS],
            codes: [0; LEVELS],
            first: [0; LEVELS],
            last: [0; LEVELS],
        }
    }

    /// Returns the container at a place.
    #[inline]
    pub(crate) fn get(&self, at: usize) -> OpenContainer
        requires { at < 129 }
        ensures { result ≡ get_or self.now at unused }
    {
        let kind = self.kinds[at];
        let (place, is_sized) = kind.parts();
        OpenContainer {
            items: self.items[at],
            left: bound(is_sized, self.left[at]),
            place,
            code: self.codes[at],
            first: self.first[at],
            last: self.last[at],
        }
    }

    /// Puts a container at a place.
    #[inline]
    pub(crate) fn set(&mut self, at: usize, container: OpenContainer)
        requires { at < 129 }
        ensures { self.new ≡ slice_set self.old at container }
    {
        self.items[at] = container.items;
        self.left[at] = container.left.unwrap_or(0);
        self.kinds[at] = Kind::of(container.place, container.left.is_some());
        self.codes[at] = container.code;
        self.first[at] = container.first;
        self.last[at] = container.last;
    }

    /// Returns how many descriptors the first `depth` containers share together.
    pub(crate) fn descriptors_in(&self, depth: usize) -> u16
        requires { depth ≤ 129 }
        ensures { result ≡ shared_in depth self.now }
    {
        if depth == 0 {
            return 0;
        }
        self.get(depth - 1).last
    }

    /// Returns how many bytes the sizes of the first `depth` containers leave.
    pub(crate) fn left_in(&self, depth: usize) -> u64
        requires { depth ≤ 129 }
        ensures sum { result ≡ sum_by left_of (take depth self.now) }
        ensures fits { result ≤ depth * 2 ^ 32 }
    {
        let mut sum = 0;
        for at in 0..depth {
            sum += u64::from(self.get(at).left.unwrap_or(0));
        }
        sum
    }
}
