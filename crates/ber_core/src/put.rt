//! How many octets a written element has, and writers of elements that take no memory: the vector has room for what is
//! appended. A caller that knows how much it will write takes all room once, and no part looks for room again.

ghost use Rattle.std.specs.Prelude.{◌≡◌, ◌+◌, ◌<◌, ◌≤◌, ◌++◌, [], ◌∷◌, length, vec_len, vec_capacity, ◌^◌};
ghost use Rattle.ber_core.specs.Length.{length_limit};
ghost use Rattle.ber_core.specs.Written.{length_octets, written, written_head};
ghost use Rattle.ber_core.specs.WrittenLength.{element_length};

use std::alloc::Allocator;

/// How many octets `write_element` appends for a tag of one octet and a content of this many octets
/// (X.690, Length octets).
// A sum in each branch: as one sum with `length_len`, writing a Begin with an Invoke takes 449 instructions
// in place of 427.
#[inline(always)]
pub fn element_len(content: usize) -> usize
    requires { content + 4 < 2 ^ 64 }
    ensures { result ≡ element_length content }
{
    if content < 0x80 {
        content + 2
    } else if content < 0x100 {
        content + 3
    } else {
        content + 4
    }
}

/// How many octets a length within the limit has in the shortest form.
#[inline(always)]
pub(crate) fn length_len(len: usize) -> usize
    requires { len ≤ length_limit }
    ensures { result ≡ length (length_octets len) }
{
    element_len(len) - len - 1
}

/// Appends octets one by one, for which there is room. Where their number is known when it is built,
/// no loop is left of it.
#[inline(always)]
pub(crate) fn push_each<A: Allocator + Copy>(out: &mut Vec<u8, A>, octets: &[u8])
    requires { vec_len out.old + length octets.now ≤ vec_capacity out.old }
    ensures items { out.new.items ≡ out.old.items ++ octets.now }
    ensures capacity { vec_capacity out.old ≤ vec_capacity out.new }
{
    for octet in octets {
        out.push_reserved(*octet);
    }
}

/// Appends the fewest octets of a length, for which there is room.
#[inline(always)]
pub(crate) fn put_length<A: Allocator + Copy>(out: &mut Vec<u8, A>, len: usize)
    requires short { len ≤ length_limit }
    requires room { vec_len out.old + length (length_octets len) ≤ vec_capacity out.old }
    ensures items { out.new.items ≡ out.old.items ++ length_octets len }
    ensures capacity { vec_capacity out.old ≤ vec_capacity out.new }
{
    if len < 128 {
        out.push_reserved(len as u8);
    } else if len < 256 {
        out.push_reserved(0x81);
        out.push_reserved(len as u8);
    } else {
        out.push_reserved(0x82);
        out.push_reserved((len / 256) as u8);
        out.push_reserved((len % 256) as u8);
    }
}

/// Appends a tag of one octet and the shortest definite length, for which there is room. `len` is in
/// octets, at most 65,535 (X.690, Length octets).
#[inline(always)]
pub fn put_head<A: Allocator + Copy>(out: &mut Vec<u8, A>, tag: u8, len: usize)
    requires short { len ≤ length_limit }
    requires room { vec_len out.old + length (written_head (tag ∷ []) len) ≤ vec_capacity out.old }
    ensures items { out.new.items ≡ out.old.items ++ written_head (tag ∷ []) len }
    ensures capacity { vec_capacity out.old ≤ vec_capacity out.new }
{
    out.push_reserved(tag);
    put_length(out, len);
}

/// Appends an element whose content is one octet, for which there is room (X.690, Structure of an
/// encoding).
#[inline(always)]
pub fn put_octet<A: Allocator + Copy>(out: &mut Vec<u8, A>, tag: u8, octet: u8)
    requires { vec_len out.old + 3 ≤ vec_capacity out.old }
    ensures items { out.new.items ≡ out.old.items ++ written (tag ∷ []) (octet ∷ []) }
    ensures capacity { vec_capacity out.old ≤ vec_capacity out.new }
{
    out.push_reserved(tag);
    out.push_reserved(1);
    out.push_reserved(octet);
}

/// Appends what `put_element` does, octet by octet, for a content of a few octets. `content` has at most
/// 127 octets (X.690, Structure of an encoding).
// By `put_element`, which copies by a call, writing a Continue with a dialogue portion takes 591
// instructions in place of 560.
#[inline(always)]
pub fn put_few<A: Allocator + Copy>(out: &mut Vec<u8, A>, tag: u8, content: &[u8])
    requires few { length content.now < 128 }
    requires room { vec_len out.old + length (written (tag ∷ []) content.now) ≤ vec_capacity out.old }
    ensures items { out.new.items ≡ out.old.items ++ written (tag ∷ []) content.now }
    ensures capacity { vec_capacity out.old ≤ vec_capacity out.new }
{
    out.push_reserved(tag);
    out.push_reserved(content.len() as u8);
    push_each(out, content);
}

/// Appends an element in the shortest definite form, for which there is room. `tag` is its one octet,
/// `content` has at most 65,535 octets (X.690, Structure of an encoding).
///
/// ```rust
/// let mut out = Vec::with_capacity(alloc, 3)?;
/// ber_core::put_element(&mut out, 0x04, &[0xaa]);
/// assert_eq!(rt; out.as_slice(), [0x04, 0x01, 0xaa].as_slice());
/// ```
#[inline(always)]
pub fn put_element<A: Allocator + Copy>(out: &mut Vec<u8, A>, tag: u8, content: &[u8])
    requires short { length content.now ≤ length_limit }
    requires room { vec_len out.old + length (written (tag ∷ []) content.now) ≤ vec_capacity out.old }
    ensures items { out.new.items ≡ out.old.items ++ written (tag ∷ []) content.now }
    ensures capacity { vec_capacity out.old ≤ vec_capacity out.new }
{
    put_head(out, tag, content.len());
    out.extend_from_slice(content).unwrap();
}
