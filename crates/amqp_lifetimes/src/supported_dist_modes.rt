//! The distribution modes that a node supports (Part 3, section 3.5.9).
ghost use Rattle.std.specs.Prelude.{◌≡◌, ◌++◌, ◌∷◌, [], ◌↔◌, IfErr, IfOk, IsErr, OnOk, OnErr, None, map, refl};
ghost use Rattle.amqp_wire.specs.declared.error.Error.TheVariants.{Memory};
ghost use Rattle.amqp_values.specs.Values.{value_term};
ghost use Rattle.amqp_codec.specs.Agreement.{agreement};
ghost use Rattle.amqp_containers.specs.ArrayType.{array_of, array_agreement};
ghost use Rattle.amqp_restricted_types.specs.Termini.{distribution_mode_type};
ghost use Rattle.amqp_lifetimes.specs.Properties.{InsertsModes, mode_term, modes_term};

use crate::properties::{Fields, with_modes};
use amqp_codec::{
    ByteSource, Decoder, DeserializeTerm, Encoder, Error, Pass, Serialize, SerializeTerm,
};
use amqp_containers::Array;
use amqp_restricted_types::DistributionMode;
use amqp_values::Value;
use std::alloc::Global;
use std::marker::Model;

/// The distribution modes that a node supports, in order. There is at least one if it was made here. It is read and written as the array of
/// the modes, so one without modes can be read.
#[derive(Debug, PartialEq, Eq, Drop)]
pub struct SupportedDistModes {
    modes: Array<DistributionMode>,
}

impl Model for SupportedDistModes {
    ghost use Rattle.amqp_containers.specs.declared.array.Array.{Array};
    ghost use Rattle.amqp_restricted_types.specs.declared.distribution_mode.DistributionMode.{DistributionMode};

    ghost Value = { Array DistributionMode };

    ghost view = { λ m. m.modes };

    ghost inverse = { λ a. record { modes = a } };
}

// The modes' texts, as symbols. The only error is `Memory`.
fn symbols_of(modes: &[DistributionMode], alloc: Global) -> Result<Array<Value>, Error>
    ensures symbols { IfOk result (λ symbols. map value_term symbols.0.items ≡ map mode_term modes.now) }
    ensures refused { IfErr result (λ e. e ≡ Memory) }
{
    let mut symbols = Array::from(Vec::new(alloc));
    for mode in modes {
        symbols.push(Value::Symbol(mode.to_symbol(alloc)?))?;
    }
    Ok(symbols)
}

impl SupportedDistModes {
    /// Returns this mode alone. The only error is `Memory`.
    pub fn new(mode: DistributionMode, alloc: Global) -> Result<SupportedDistModes, Error>
        ensures modes { IfOk result (λ modes. modes.0.items ≡ mode ∷ []) }
        ensures refused { IfErr result (λ e. e ≡ Memory) }
    {
        let mut modes = Array::from(Vec::new(alloc));
        modes.push(mode)?;
        Ok(SupportedDistModes { modes })
    }

    /// Returns this mode alone. The only error is `Memory`.
    pub fn from_mode(mode: DistributionMode, alloc: Global) -> Result<SupportedDistModes, Error>
        ensures modes { IfOk result (λ modes. modes.0.items ≡ mode ∷ []) }
        ensures refused { IfErr result (λ e. e ≡ Memory) }
    {
        SupportedDistModes::new(mode, alloc)
    }

    /// Adds a mode after the last. If an allocation for it fails, nothing changes, and the error is `Memory`.
    pub fn add_mode(&mut self, mode: DistributionMode) -> Result<(), Error>
        ensures added { OnOk result (self.new.0.items ≡ self.old.0.items ++ mode ∷ []) }
        ensures kept { OnErr result (self.new.0.items ≡ self.old.0.items) }
        ensures refused { IfErr result (λ e. e ≡ Memory) }
    {
        self.modes.push(mode)
    }

    /// Returns these modes. An array without modes is returned as the error.
    pub fn try_from_modes(
        modes: Array<DistributionMode>,
    ) -> Result<SupportedDistModes, Array<DistributionMode>>
        ensures modes { IfOk result (λ made. made ≡ modes) }
        ensures given_back { IfErr result (λ array. array ≡ modes) }
        ensures without_modes { IsErr result ↔ (modes.0.items ≡ []) }
    {
        if modes.is_empty() {
            return Err(modes);
        }
        Ok(SupportedDistModes { modes })
    }

    /// Returns the array of the modes' texts, as symbols. The only error is `Memory`.
    pub fn into_value(self, alloc: Global) -> Result<Value, Error>
        ensures value { IfOk result (λ value. value_term value ≡ modes_term self) }
        ensures refused { IfErr result (λ e. e ≡ Memory) }
    {
        Ok(Value::Array(symbols_of(self.modes.as_slice(), alloc)?))
    }

    /// Returns a map with the modes alone, under `supported-dist-modes`. The only error is `Memory`.
    pub fn into_fields(self, alloc: Global) -> Result<Fields, Error>
        ensures fields { IfOk result (InsertsModes None self) }
        ensures refused { IfErr result (λ e. e ≡ Memory) }
    {
        with_modes(None, self, alloc)
    }
}

impl Serialize for SupportedDistModes {
    ghost writing = { ⟦<Array<DistributionMode> as Serialize>⟧.writing };

    fn serialize<P: Pass>(&self, encoder: &mut Encoder<P>) -> Result<(), Error> {
        self.modes.serialize(encoder)
    }

    fn in_type(&self) {
        self.modes.in_type();
    }
}

impl SerializeTerm for SupportedDistModes {
    fn is_null(&self) -> bool {
        false
    }

    ghost is_term = { λ v. refl };
}

impl DeserializeTerm for SupportedDistModes {
    ghost term = { array_of distribution_mode_type };

    fn read_value<R: ByteSource>(
        decoder: &mut Decoder<R>,
        alloc: Global,
    ) -> Result<SupportedDistModes, Error> {
        let modes = Array::read_value(decoder, alloc)?;
        Ok(SupportedDistModes { modes })
    }

    ghost agreement = { array_agreement (agreement distribution_mode_type refl) };
}
