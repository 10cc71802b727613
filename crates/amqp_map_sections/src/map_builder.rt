//! Sections that are maps and are made call by call.
ghost use Rattle.std.specs.Prelude.{◌≡◌, [], IfErr, IfOk};
ghost use Rattle.indexmap.specs.IndexMap.{insert_entry};
ghost use Rattle.amqp_wire.specs.declared.error.Error.TheVariants.{Memory};

use amqp_codec::Error;
use amqp_maps::OrderedMap;
use std::alloc::Global;
use std::hash::Hash;
use std::marker::{Model, PhantomData};

/// A section that is a map, which is made call by call.
#[derive(Debug, Drop)]
pub struct MapBuilder<K: Eq + Hash, V, T> {
    map: OrderedMap<K, V>,
    section: PhantomData<T>,
}

impl<K: Eq + Hash, V, T> Model for MapBuilder<K, V, T> {
    ghost use Rattle.std.specs.Prelude.{List};

    ghost Value = { List (K × V) };

    ghost view = { λ b. b.map };
}

impl<K: Eq + Hash, V, T> MapBuilder<K, V, T> {
    /// Returns a builder without pairs. It doesn't allocate.
    pub fn new(alloc: Global) -> MapBuilder<K, V, T>
        ensures { result ≡ [] }
    {
        MapBuilder {
            map: OrderedMap::new(alloc),
            section: PhantomData,
        }
    }

    /// Inserts a pair, as `OrderedMap::insert` does. The only error is `Memory`, which drops the builder.
    pub fn insert(mut self, key: K, value: V) -> Result<MapBuilder<K, V, T>, Error>
    where
        K: Drop,
        V: Drop,
        ensures inserted { IfOk result (λ made. made ≡ insert_entry K.eq self key value) }
        ensures refused { IfErr result (λ e. e ≡ Memory) }
    {
        self.map.insert(key, value)?;
        Ok(self)
    }

    // The pairs.
    pub(crate) fn into_map(self) -> OrderedMap<K, V>
        ensures { result ≡ self }
    {
        self.map
    }

    /// Returns the section with these pairs.
    pub fn build(self) -> T
    where
        T: From<MapBuilder<K, V, T>>,
        ensures { T.from_gives self result }
    {
        T::from(self)
    }
}
