//! Lists and maps (Part 1, sections 1.6.22 and 1.6.23).
ghost use Rattle.std.specs.Prelude.{◌≡◌, ◌<◌, ◌↔◌, IsTrue, cond, length, IfOk, IfErr, false};
ghost use Rattle.amqp_model.specs.Term.{list, map};
ghost use Rattle.amqp_wire.specs.Sources.{Tells};
ghost use Rattle.amqp_decoder.specs.State.{Has, IsContainer, in_container};
ghost use Rattle.amqp_decoder.specs.Places.{StandsHere};
ghost use Rattle.amqp_decoder.specs.Steps.{Stops, Goes, Tries};
ghost use Rattle.amqp_decoder.specs.declared.frame.Place.TheVariants.{InList, InMap};
ghost use Rattle.amqp_decoder.specs.Reading.{AnswersRead};
ghost use Rattle.amqp_decoder.specs.Containers.{Closes, CloseFault, IsPossible, ReadsHeader, HeaderFault, Unopened, Enters, EnterFault};
ghost use Rattle.amqp_decoder.specs.Containers.{Opens, OpenFault};

use crate::Decoder;
use crate::frame::Place;
use amqp_wire::{ByteSource, Error, format_code};

// How many bytes a size or a count has.
#[inline]
pub(crate) fn width(wide: bool) -> u32
    ensures { result ≡ cond wide 4 1 }
{
    if wide { 4 } else { 1 }
}

// Whether a size can be right: it counts the count, or it is the 0 of a list without items.
#[inline]
fn is_possible(size: u32, width: u32, is_list: bool) -> bool
    ensures { IsTrue result ↔ IsPossible is_list width size }
{
    size >= width || (is_list && size == 0)
}

impl<R: ByteSource> Decoder<R> {
    // The count of a container, and how many bytes follow it. A size counts the count too; the size 0 is that of a list without items.
    #[inline(always)]
    pub(crate) fn header(&mut self, wide: bool, is_list: bool) -> Result<(u32, u32), Error>
        ensures ok { Tells R.remaining → IfOk result (λ h. ReadsHeader is_list (cond wide 4 1) self.old h.0 h.1 self.new) }
        ensures err { Tells R.remaining
            → IfErr result (λ e. Stops false (HeaderFault is_list (cond wide 4 1) self.old) self.old e self.new) }
        ensures goes { Goes false self.old result self.new }
    {
        let width = width(wide);
        let size = self.number(wide)?;
        if !is_possible(size, width, is_list) {
            return Err(self.refuse_size(size));
        }
        let count = self.number(wide)?;
        if size >= width {
            return Ok((count, size - width));
        }
        if count > 0 {
            return Err(self.refuse_size(0));
        }
        Ok((0, 0))
    }

    // Opens a list or a map of so many items in so many bytes.
    #[inline(always)]
    fn open(&mut self, place: Place, count: u32, content: u32) -> Result<u32, Error>
        requires { IsContainer place }
        ensures ok { IfOk result (λ n. (n ≡ count) × Has self.old.top.left content × (length self.old.saved < self.old.nesting)
            × (self.new ≡ in_container place count content self.old)) }
        ensures err { Tells R.remaining → IfErr result (λ e. Stops false (Unopened content self.old) self.old e self.new) }
        ensures goes { Goes false self.old result self.new }
    {
        self.lower(content)?;
        self.enter_counted(place, count, content)?;
        Ok(count)
    }

    // Opens a list whose code was taken.
    #[inline(always)]
    fn open_list(&mut self, wide: bool) -> Result<u32, Error>
        ensures ok { Tells R.remaining → IfOk result (λ n. Enters list (cond wide 4 1) self.old n self.new) }
        ensures err { Tells R.remaining → IfErr result (λ e. Stops false (EnterFault list (cond wide 4 1) self.old) self.old e self.new) }
        ensures goes { Goes false self.old result self.new }
    {
        let (count, content) = self.header(wide, true)?;
        self.open(Place::InList, count, content)
    }

    // Opens a map whose code was taken.
    #[inline]
    fn open_map(&mut self, wide: bool) -> Result<u32, Error>
        ensures ok { Tells R.remaining → IfOk result (λ n. Enters map (cond wide 4 1) self.old n self.new) }
        ensures err { Tells R.remaining → IfErr result (λ e. Stops false (EnterFault map (cond wide 4 1) self.old) self.old e self.new) }
        ensures goes { Goes false self.old result self.new }
    {
        let (count, content) = self.header(wide, false)?;
        if count % 2 == 1 {
            return Err(self.stop(Error::OddCount));
        }
        self.open(Place::InMap, count, content)
    }

    /// Begins a list (Part 1, section 1.6.22), and returns how many items it holds. It returns `Depth` if values nest more than 128 deep.
    #[inline]
    pub fn begin_list(&mut self) -> Result<u32, Error>
        ensures read { Tells R.remaining → AnswersRead false (Opens list) (OpenFault list) self.old result self.new }
        ensures tries { Tries false self.old result self.new }
        ensures place { IfErr result (λ _. StandsHere self.old self.new) }
    {
        let start = self.start();
        let answer = self.any_list();
        self.placed(start, answer)
    }

    // The same, wherever it refuses.
    #[inline(always)]
    fn any_list(&mut self) -> Result<u32, Error>
        ensures read { Tells R.remaining → AnswersRead false (Opens list) (OpenFault list) self.old result self.new }
        ensures tries { Tries false self.old result self.new }
    {
        match self.begin()? {
            format_code::LIST_0 => self.open(Place::InList, 0, 0),
            format_code::LIST_8 => self.open_list(false),
            format_code::LIST_32 => self.open_list(true),
            code => Err(self.refuse_code(code)),
        }
    }

    /// Begins a map (Part 1, section 1.6.23), and returns how many items it holds: each key is one, and each value. It returns `OddCount`
    /// if the number is odd.
    #[inline]
    pub fn begin_map(&mut self) -> Result<u32, Error>
        ensures read { Tells R.remaining → AnswersRead false (Opens map) (OpenFault map) self.old result self.new }
        ensures tries { Tries false self.old result self.new }
        ensures place { IfErr result (λ _. StandsHere self.old self.new) }
    {
        let start = self.start();
        let answer = self.any_map();
        self.placed(start, answer)
    }

    // The same, wherever it refuses.
    #[inline(always)]
    fn any_map(&mut self) -> Result<u32, Error>
        ensures read { Tells R.remaining → AnswersRead false (Opens map) (OpenFault map) self.old result self.new }
        ensures tries { Tries false self.old result self.new }
    {
        match self.begin()? {
            format_code::MAP_8 => self.open_map(false),
            format_code::MAP_32 => self.open_map(true),
            code => Err(self.refuse_code(code)),
        }
    }

    // Ends the list or map that is open.
    #[inline(always)]
    fn close(&mut self, place: Place) -> Result<(), Error>
        ensures read { Tells R.remaining → AnswersRead false (λ st _ st'. Closes place st st') (CloseFault place) self.old result self.new }
        ensures tries { Tries false self.old result self.new }
        ensures place { IfErr result (λ _. StandsHere self.old self.new) }
    {
        self.check_end(place)?;
        self.check_bytes()?;
        self.leave();
        Ok(())
    }

    /// Ends the list that is open. It returns `Surplus` if items are left, and `InvalidValue` if no list is open.
    #[inline(always)]
    pub fn end_list(&mut self) -> Result<(), Error>
        ensures read { Tells R.remaining → AnswersRead false (λ st _ st'. Closes InList st st') (CloseFault InList) self.old result self.new }
        ensures tries { Tries false self.old result self.new }
        ensures place { IfErr result (λ _. StandsHere self.old self.new) }
    {
        self.close(Place::InList)
    }

    /// Ends the map that is open. It returns `Surplus` if items are left, and `InvalidValue` if no map is open.
    #[inline]
    pub fn end_map(&mut self) -> Result<(), Error>
        ensures read { Tells R.remaining → AnswersRead false (λ st _ st'. Closes InMap st st') (CloseFault InMap) self.old result self.new }
        ensures tries { Tries false self.old result self.new }
        ensures place { IfErr result (λ _. StandsHere self.old self.new) }
    {
        self.close(Place::InMap)
    }
}
