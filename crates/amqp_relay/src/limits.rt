//! The limits within which values are read.
ghost use Rattle.std.specs.Prelude.{◌≡◌, length};
ghost use Rattle.fe2o3_amqp_types.specs.Reading.{unlimited};

use fe2o3_amqp_types::codec::Limits;

/// Returns limits for a value in these bytes, which has at most as many items as bytes. The bytes end it, so their number needs no limit: a
/// value that goes on behind them is cut.
pub(crate) fn limits_for(bytes: &[u8]) -> Limits
    ensures nesting { result.nesting ≡ 128 }
    ensures bytes { result.bytes ≡ unlimited }
    ensures items { result.items ≡ length bytes.now }
{
    match Limits::new(128, u64::MAX, bytes.len() as u64) {
        Some(limits) => limits,
        None => Limits::greatest(),
    }
}
