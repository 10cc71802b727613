//! The values that are written and read.
ghost use Rattle.std.specs.Prelude.{◌≤◌};

use crate::bare::Bare;
use crate::framed::Framed;
use crate::frames::{
    ATTACH, FLOW, MESSAGE, NESTED, OPEN, PROPERTIES, SOURCE, TRANSFER, WIDE_ATTACH,
};
use crate::values::{Typed, application_properties, message_of_data, message_of_properties};
use amqp_attach::{Attach, Performative};
use amqp_codec::{Deserialize, Serialize};
use amqp_containers::Array;
use amqp_map_sections::ApplicationProperties;
use amqp_maps::OrderedMap;
use amqp_message_headers::Properties;
use amqp_messages::Message;
use amqp_performatives::{Flow, Open, Transfer};
use amqp_sections::{AmqpValue, Data};
use amqp_termini::Source;
use amqp_values::Value;
use amqp_wire::{Error, Symbol};
use std::alloc::Global;
use std::time::Instant;

/// What is timed: a value that is written or read.
pub(crate) trait Work {
    /// Writes or reads it once, and returns a number that depends on all of it.
    fn run(&self, alloc: Global) -> Result<u64, Error>;
}

/// What is written or read by the bare calls of an encoder and a decoder; or a value of a type, by `to_vec` and
/// `from_slice`.
#[derive(Clone, Copy)]
pub(crate) enum Case {
    Uints,
    Ulongs,
    Strings,
    Map,
    Symbols,
    KeptSymbols,
    Binary,
    Tiny,
    UintVec,
    UlongArray,
    SymbolMap,
    LargeMap,
    ValueMap,
    Open,
    Attach,
    WideAttach,
    Source,
    Transfer,
    Flow,
    Performative,
    Frame,
    Properties,
    ApplicationProperties,
    Message,
    NestedDescriptors,
    MessageOfProperties,
    MessageOfData,
}

pub(crate) const CASES: [Case; 27] = [
    Case::Uints,
    Case::Ulongs,
    Case::Strings,
    Case::Map,
    Case::Symbols,
    Case::KeptSymbols,
    Case::Binary,
    Case::Tiny,
    Case::UintVec,
    Case::UlongArray,
    Case::SymbolMap,
    Case::LargeMap,
    Case::ValueMap,
    Case::Open,
    Case::Attach,
    Case::WideAttach,
    Case::Source,
    Case::Transfer,
    Case::Flow,
    Case::Performative,
    Case::Frame,
    Case::Properties,
    Case::ApplicationProperties,
    Case::Message,
    Case::NestedDescriptors,
    Case::MessageOfProperties,
    Case::MessageOfData,
];

/// Cases whose times are compared. A type's is compared with that of the bare calls for the same bytes, which for a map keep its entries or
/// don't. A map's is compared with that of a map with a sixteenth of its entries, and a frame's with that of its performative.
pub(crate) const COMPARED: [(Case, Case); 6] = [
    (Case::UintVec, Case::Uints),
    (Case::UlongArray, Case::Ulongs),
    (Case::SymbolMap, Case::Symbols),
    (Case::SymbolMap, Case::KeptSymbols),
    (Case::LargeMap, Case::SymbolMap),
    (Case::Frame, Case::Performative),
];

#[derive(Clone, Copy)]
pub(crate) enum Way {
    Writing,
    Reading,
}

pub(crate) const WAYS: [Way; 2] = [Way::Writing, Way::Reading];

impl Way {
    /// Returns the word by which an argument names it.
    pub(crate) fn word(self) -> &'static str {
        match self {
            Way::Writing => "writing",
            Way::Reading => "reading",
        }
    }
}

impl Case {
    pub(crate) fn name(self) -> &'static str {
        match self {
            Case::Uints => "a list of 10,000 uints",
            Case::Ulongs => "an array of 10,000 ulongs",
            Case::Strings => "a list of 1,000 short strings",
            Case::Map => "a map of 1,000 entries",
            Case::Symbols => "a map of 1,000 symbols",
            Case::KeptSymbols => "a map of 1,000 symbols, kept in a row",
            Case::Binary => "a binary of 1 MiB",
            Case::Tiny => "a binary of 5 bytes",
            Case::UintVec => "a Vec<u32> of 10,000",
            Case::UlongArray => "an Array<u64> of 10,000",
            Case::SymbolMap => "an OrderedMap<Symbol, u32> of 1,000",
            Case::LargeMap => "an OrderedMap<Symbol, u32> of 16,000",
            Case::ValueMap => "an OrderedMap<Symbol, Value> of 1,000",
            Case::Open => "an open of 10 fields",
            Case::Attach => "an attach of 14 fields",
            Case::WideAttach => "an attach of 14 fields, read from long forms",
            Case::Source => "a source of 11 fields",
            Case::Transfer => "a transfer",
            Case::Flow => "a flow of 11 fields",
            Case::Performative => "that flow as a performative",
            Case::Frame => "a frame with that performative",
            Case::Properties => "properties of 13 fields",
            Case::ApplicationProperties => "application properties of 20 entries",
            Case::Message => "a message of 316 bytes",
            Case::NestedDescriptors => "null under 125 descriptors",
            Case::MessageOfProperties => "a message of 1,000 application properties",
            Case::MessageOfData => "a message of 1 MiB of data",
        }
    }

    /// Returns the word by which an argument names it.
    pub(crate) fn word(self) -> &'static str {
        match self {
            Case::Uints => "uints",
            Case::Ulongs => "ulongs",
            Case::Strings => "strings",
            Case::Map => "map",
            Case::Symbols => "symbols",
            Case::KeptSymbols => "kept",
            Case::Binary => "binary",
            Case::Tiny => "tiny",
            Case::UintVec => "vec",
            Case::UlongArray => "array",
            Case::SymbolMap => "ordered",
            Case::LargeMap => "large",
            Case::ValueMap => "values",
            Case::Open => "open",
            Case::Attach => "attach",
            Case::WideAttach => "wide",
            Case::Source => "source",
            Case::Transfer => "transfer",
            Case::Flow => "flow",
            Case::Performative => "performative",
            Case::Frame => "frame",
            Case::Properties => "properties",
            Case::ApplicationProperties => "application",
            Case::Message => "message",
            Case::NestedDescriptors => "nested",
            Case::MessageOfProperties => "entries",
            Case::MessageOfData => "data",
        }
    }

    /// Returns how many values are counted: items, entries, or the one.
    pub(crate) fn values(self) -> u32
        ensures { result ≤ 16000 }
    {
        match self {
            Case::Uints | Case::Ulongs | Case::UintVec | Case::UlongArray => 10_000,
            Case::Strings
            | Case::Map
            | Case::Symbols
            | Case::KeptSymbols
            | Case::SymbolMap
            | Case::ValueMap
            | Case::MessageOfProperties => 1000,
            Case::LargeMap => 16_000,
            _ => 1,
        }
    }

    /// Returns how often a round writes or reads it, so that the clock's own time doesn't count.
    pub(crate) fn times(self) -> u32
        ensures { result ≤ 1000 }
    {
        match self {
            Case::Tiny
            | Case::Open
            | Case::Attach
            | Case::WideAttach
            | Case::Source
            | Case::Transfer
            | Case::Flow
            | Case::Performative
            | Case::Frame
            | Case::Properties
            | Case::ApplicationProperties
            | Case::Message
            | Case::NestedDescriptors => 1000,
            _ => 1,
        }
    }

    /// Returns how many bytes a binary has.
    pub(crate) fn length(self) -> usize {
        match self {
            Case::Binary | Case::MessageOfData => 1_048_576,
            Case::Tiny => 5,
            _ => 0,
        }
    }

    // A text: for an open, a wide attach and a source it isn't the canonical one.
    fn text(self, alloc: Global) -> Result<Vec<u8>, Error> {
        match self {
            Case::Open => Ok(Vec::from_slice(alloc, OPEN)?),
            Case::Attach => Ok(Vec::from_slice(alloc, ATTACH)?),
            Case::WideAttach => Ok(Vec::from_slice(alloc, WIDE_ATTACH)?),
            Case::Source => Ok(Vec::from_slice(alloc, SOURCE)?),
            Case::Transfer => Ok(Vec::from_slice(alloc, TRANSFER)?),
            Case::Flow | Case::Performative | Case::Frame => Ok(Vec::from_slice(alloc, FLOW)?),
            Case::Properties => Ok(Vec::from_slice(alloc, PROPERTIES)?),
            Case::ApplicationProperties => application_properties(20, alloc),
            Case::Message => Ok(Vec::from_slice(alloc, MESSAGE)?),
            Case::NestedDescriptors => Ok(Vec::from_slice(alloc, NESTED)?),
            Case::MessageOfProperties => message_of_properties(1000, alloc),
            Case::MessageOfData => message_of_data(self.length(), alloc),
            _ => Ok(Bare::new(self, Way::Writing, alloc)?.into_text()),
        }
    }

    /// Returns the nanoseconds of the best of some rounds.
    pub(crate) fn best(
        self,
        rt: &HostRuntime,
        way: Way,
        rounds: u32,
    ) -> Result<u128, anyhow::Error> {
        match self {
            Case::UintVec => self.best_of::<Vec<u32>>(rt, way, rounds),
            Case::UlongArray => self.best_of::<Array<u64>>(rt, way, rounds),
            Case::SymbolMap | Case::LargeMap => {
                self.best_of::<OrderedMap<Symbol, u32>>(rt, way, rounds)
            }
            Case::ValueMap => self.best_of::<OrderedMap<Symbol, Value>>(rt, way, rounds),
            Case::Open => self.best_of::<Open>(rt, way, rounds),
            Case::Attach | Case::WideAttach => self.best_of::<Attach>(rt, way, rounds),
            Case::Source => self.best_of::<Source>(rt, way, rounds),
            Case::Transfer => self.best_of::<Transfer>(rt, way, rounds),
            Case::Flow => self.best_of::<Flow>(rt, way, rounds),
            Case::Performative => self.best_of::<Performative>(rt, way, rounds),
            Case::Frame => {
                let work = Framed::new(way, FLOW, rt.alloc())?;
                best_round(rt, &work, self.times(), rounds)
            }
            Case::Properties => self.best_of::<Properties>(rt, way, rounds),
            Case::ApplicationProperties => {
                self.best_of::<ApplicationProperties>(rt, way, rounds)
            }
            Case::Message | Case::MessageOfProperties | Case::MessageOfData => {
                self.best_of::<Message<Data>>(rt, way, rounds)
            }
            Case::NestedDescriptors => {
                self.best_of::<Message<AmqpValue<Value>>>(rt, way, rounds)
            }
            _ => {
                let work = Bare::new(self, way, rt.alloc())?;
                best_round(rt, &work, self.times(), rounds)
            }
        }
    }

    fn best_of<T: Deserialize + Serialize>(
        self,
        rt: &HostRuntime,
        way: Way,
        rounds: u32,
    ) -> Result<u128, anyhow::Error> {
        let text = self.text(rt.alloc())?;
        let work = Typed::<T>::new(way, text, rt.alloc())?;
        best_round(rt, &work, self.times(), rounds)
    }
}

// The nanoseconds of the best of some rounds, in each of which the work is done so many times.
fn best_round<W: Work>(
    rt: &HostRuntime,
    work: &W,
    times: u32,
    rounds: u32,
) -> Result<u128, anyhow::Error> {
    let mut best = u128::MAX;
    for _ in 0..rounds {
        let mut done = 0u64;
        let start = Instant::now(rt)?;
        for _ in 0..times {
            done = work.run(rt.alloc())?;
        }
        let taken = start.elapsed(rt)?.as_nanos();
        if done > 0 && taken < best {
            best = taken;
        }
    }
    Ok(best)
}
