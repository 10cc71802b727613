//! One open container.

ghost use Rattle.std.specs.Prelude.{◌≡◌, ◌↔◌, IsTrue, Some};
ghost use Rattle.amqp_decoder.specs.State.{items_of};

/// Where a value is.
#[derive(Clone, Copy, PartialEq, Eq)]
#[repr(u8)]
pub(crate) enum Place {
    Top,
    InList,
    InMap,
    InArray,
    InDescribed,
}

/// How many items and how many bytes are left in an open container, without those of the containers that are open in it. At the top level
/// no size bounds them. The bytes of a described value are those of what it is in, which has none left until it ends. The code, which isn't
/// 0, and the descriptors from `first` to `last` of the decoder's row are the constructor that the items share.
#[derive(Clone, Copy)]
pub(crate) struct OpenContainer {
    pub items: u32,
    pub left: Option<u32>,
    pub place: Place,
    pub code: u8,
    pub first: u16,
    pub last: u16,
}

impl OpenContainer {
    /// The top level.
    pub(crate) const TOP: OpenContainer = OpenContainer {
        items: 0,
        left: None,
        place: Place::Top,
        code: 0,
        first: 0,
        last: 0,
    };

    /// Returns whether no item is left.
    #[inline(always)]
    pub(crate) fn is_done(&self) -> bool
        ensures { IsTrue result ↔ (items_of self.now.place self.now.items ≡ Some 0) }
    {
        self.items == 0 && self.place != Place::Top
    }
}
