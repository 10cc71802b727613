//! Members that a described value may be, and symbolic descriptors that are compared with the members' names piece by piece, as they are
//! read.
ghost use Rattle.std.specs.Prelude.{◌≡◌, ◌+◌, ◌++◌, ℕ, length, take, All, Option, Some, None, ◌≤◌, ◌↔◌, IsTrue, IfSome, List, MatchOption};
ghost use Rattle.std.specs.Prelude.{string_bytes};
ghost use Rattle.amqp_model.specs.Term.{code as of_code, name as of_name};
ghost use Rattle.amqp_lookahead.specs.Members.{descriptor_of, Member, BeginsNot, FrontIs, place_of as place_in};

use amqp_wire::Descriptor;

/// The members that a described value may be, each by its code and its name.
pub type Members<'a> = &'a [(u64, &'a str)];

/// Returns the place of the member with this descriptor.
pub fn place_of(members: Members<'_>, descriptor: &Descriptor) -> Option<usize>
    ensures { result ≡ place_in members.now (descriptor_of descriptor.now) }
{
    match descriptor {
        Descriptor::Code(code) => place_of_code(members, *code),
        Descriptor::Name(name) => place_of_name(members, name.as_str().as_bytes()),
    }
}

/// Returns the place of the member with this code.
pub fn place_of_code(members: Members<'_>, code: u64) -> Option<usize>
    ensures { result ≡ place_in members.now (of_code code) }
{
    members.iter().position(|m| m.0 == code)
}

/// Returns the place of the member with this name.
pub fn place_of_name(members: Members<'_>, name: &[u8]) -> Option<usize>
    ensures { result ≡ place_in members.now (of_name name.now) }
{
    members.iter().position(|m| m.1.as_bytes() == name)
}

// The name has so many bytes, and begins as `known` and goes on with the piece.
fn goes_on(name: &[u8], known: &[u8], piece: &[u8], len: usize) -> bool
    requires { length known.now + length piece.now ≤ len }
    ensures { IsTrue result ↔ ((length name.now ≡ len) × (take (length (known.now ++ piece.now)) name.now ≡ known.now ++ piece.now)) }
{
    if name.len() != len {
        return false;
    }
    let (front, behind) = name.split_at(known.len());
    if front != known {
        return false;
    }
    &behind[..piece.len()] == piece
}

/// Returns the prefix of a member's name of `len` bytes that is `known` and then the piece.
pub fn longer_front<'a>(
    members: Members<'a>,
    known: &[u8],
    piece: &[u8],
    len: usize,
) -> Option<&'a [u8]>
    requires { length known.now + length piece.now ≤ len }
    ensures { MatchOption result (All (λ (m : Member). BeginsNot m len (known.now ++ piece.now)) members.now)
        (λ front. front.now ≡ known.now ++ piece.now) }
{
    for member in members {
        let name = member.1.as_bytes();
        if goes_on(name, known, piece, len) {
            return Some(&name[..known.len() + piece.len()]);
        }
    }
    None
}

/// The same, if the prefix is known so far.
pub fn next_front<'a>(
    members: Members<'a>,
    known: Option<&'a [u8]>,
    piece: &[u8],
    len: usize,
) -> Option<&'a [u8]>
    requires { IfSome known (λ front. length front.now + length piece.now ≤ len) }
    ensures front { (s : List ℕ) → FrontIs members.now len s known.entry → FrontIs members.now len (s ++ piece.now) result }
    ensures long { (n : ℕ) → IfSome known.entry (λ front. length front.now ≡ n)
        → IfSome result (λ front. length front.now ≡ n + length piece.now) }
{
    match known {
        Some(front) => longer_front(members, front, piece, len),
        None => None,
    }
}
