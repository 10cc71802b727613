//! Optional values, boxes and values with several owners, which are read and written; and references, which are written only.
ghost use Rattle.std.specs.Prelude.{Some, None};
ghost use Rattle.amqp_codec.specs.OptionType.{option_of};
ghost use Rattle.amqp_codec.specs.Wrappers.{boxed, in_box, reference_counted, in_rc};
ghost use Rattle.amqp_codec.specs.Agreement.{option_one, option_agreement, option_writing, via_writing, held_agreement};

use crate::{DeserializeTerm, Serialize, SerializeTerm};
use amqp_decoder::Decoder;
use amqp_encoder::{Encoder, Pass};
use amqp_wire::{ByteSource, Error, format_code};
use std::alloc::Global;
use std::rc::Rc;

impl<T: SerializeTerm> Serialize for Option<T> {
    ghost writing = { option_writing T.writing };

    #[inline(always)]
    fn serialize<P: Pass>(&self, encoder: &mut Encoder<P>) -> Result<(), Error> {
        match self {
            Some(value) => value.serialize(encoder),
            None => encoder.write_null(),
        }
    }

    fn in_type(&self) {
        match self {
            Some(value) => value.in_type(),
            None => {}
        }
    }
}

impl<T: SerializeTerm> SerializeTerm for Option<T> {
    fn is_null(&self) -> bool {
        match self {
            Some(value) => value.is_null(),
            None => true,
        }
    }

    ghost is_term = { option_one T.writing T.is_term };
}

impl<T: DeserializeTerm> DeserializeTerm for Option<T> {
    ghost term = { option_of T.term };

    ghost meant_by_null = { Some None };

    fn read_value<R: ByteSource>(
        decoder: &mut Decoder<R>,
        alloc: Global,
    ) -> Result<Option<T>, Error> {
        if decoder.peek_code()? == format_code::NULL {
            decoder.read_null()?;
            return Ok(None);
        }
        match T::read_value(decoder, alloc) {
            Ok(value) => Ok(Some(value)),
            Err(error) => Err(error),
        }
    }

    ghost agreement = { option_agreement T.agreement };
}

impl<T: Serialize> Serialize for Box<T> {
    ghost writing = { via_writing (λ v. v.value) T.writing };

    fn serialize<P: Pass>(&self, encoder: &mut Encoder<P>) -> Result<(), Error> {
        (**self).serialize(encoder)
    }

    fn in_type(&self) {
        (**self).in_type()
    }
}

impl<T: SerializeTerm> SerializeTerm for Box<T> {
    fn is_null(&self) -> bool {
        (**self).is_null()
    }

    ghost is_term = { λ v. T.is_term v.value };
}

impl<T: DeserializeTerm> DeserializeTerm for Box<T> {
    ghost term = { boxed T.term };

    fn read_value<R: ByteSource>(decoder: &mut Decoder<R>, alloc: Global) -> Result<Box<T>, Error> {
        match T::read_value(decoder, alloc) {
            Ok(value) => match Box::new(alloc, value) {
                Ok(boxed) => Ok(boxed),
                Err(_) => Err(decoder.refuse(Error::Memory)),
            },
            Err(error) => Err(error),
        }
    }

    ghost agreement = { held_agreement in_box T.agreement };
}

impl<T: Serialize> Serialize for Rc<T> {
    ghost writing = { via_writing (λ v. v.value) T.writing };

    fn serialize<P: Pass>(&self, encoder: &mut Encoder<P>) -> Result<(), Error> {
        self.as_ref().serialize(encoder)
    }

    fn in_type(&self) {
        self.as_ref().in_type()
    }
}

impl<T: SerializeTerm> SerializeTerm for Rc<T> {
    fn is_null(&self) -> bool {
        self.as_ref().is_null()
    }

    ghost is_term = { λ v. T.is_term v.value };
}

impl<T: DeserializeTerm> DeserializeTerm for Rc<T> {
    ghost term = { reference_counted T.term };

    fn read_value<R: ByteSource>(decoder: &mut Decoder<R>, alloc: Global) -> Result<Rc<T>, Error> {
        let value = T::read_value(decoder, alloc)?;
        match Rc::new(alloc, value) {
            Ok(shared) => Ok(shared),
            Err(_) => Err(decoder.refuse(Error::Memory)),
        }
    }

    ghost agreement = { held_agreement in_rc T.agreement };
}

impl<T: Serialize> Serialize for &T {
    ghost writing = { via_writing (λ v. v.now) T.writing };

    fn serialize<P: Pass>(&self, encoder: &mut Encoder<P>) -> Result<(), Error> {
        Serialize::serialize(*self, encoder)
    }

    fn in_type(&self) {
        Serialize::in_type(*self)
    }
}

impl<T: SerializeTerm> SerializeTerm for &T {
    fn is_null(&self) -> bool {
        SerializeTerm::is_null(*self)
    }

    ghost is_term = { λ v. T.is_term v.now };
}

impl<T: Serialize> Serialize for &mut T {
    ghost writing = { via_writing (λ v. v.now) T.writing };

    fn serialize<P: Pass>(&self, encoder: &mut Encoder<P>) -> Result<(), Error> {
        (**self).serialize(encoder)
    }

    fn in_type(&self) {
        (**self).in_type()
    }
}

impl<T: SerializeTerm> SerializeTerm for &mut T {
    fn is_null(&self) -> bool {
        (**self).is_null()
    }

    ghost is_term = { λ v. T.is_term v.now };
}
