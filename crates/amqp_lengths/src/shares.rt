//! What each item of an array takes of a limit on items for the descriptors that the items share.
ghost use Rattle.std.specs.Prelude.{◌≡◌, ◌≤◌, ◌+◌, ℕ, List, length};
ghost use Rattle.amqp_model.specs.Term.{Descriptor};
ghost use Rattle.amqp_model.specs.Spelling.{Names, Constructor};
ghost use Rattle.amqp_model.specs.Measures.{share, shares};
ghost use Rattle.amqp_lengths.specs.Lengths.{HasConstructor};

use crate::constructors::descriptor_len;
use amqp_wire::format_code;

// How much a descriptor takes: one, and one for each whole 32 bytes of its name.
fn share_of(descriptor: &[u8]) -> u64
    ensures share { (d : Descriptor) → Names d descriptor.now → result ≡ share d }
    ensures most { result ≤ 1 + length descriptor.now }
{
    match descriptor {
        [format_code::SYMBOL_8, _, name @ ..] | [format_code::SYMBOL_32, _, _, _, _, name @ ..] => {
            1 + name.len() as u64 / 32
        }
        _ => 1,
    }
}

/// Returns how much the descriptors of a constructor take together.
pub(crate) fn shares_of(constructor: &[u8]) -> u64
    requires { HasConstructor constructor.now }
    ensures { (ds : List Descriptor) (c : ℕ) → Constructor ds c constructor.now → result ≡ shares ds }
{
    let mut shares = 0;
    let mut rest = constructor;
    while let Some((code, after)) = rest.split_first() {
        if *code != format_code::DESCRIBED {
            return shares;
        }
        let Ok(len) = descriptor_len(after) else {
            unreachable!()
        };
        shares += share_of(&after[..len]);
        rest = &after[len..];
    }
    shares
}
