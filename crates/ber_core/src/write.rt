//! Writers of elements, in the shortest definite form. All room is taken first, so that nothing is
//! appended where memory is refused.

ghost use Rattle.std.specs.Prelude.{◌≡◌, ◌+◌, ◌<◌, ◌≤◌, ◌++◌, OnOk, OnErr, length, vec_len, vec_capacity};
ghost use Rattle.ber_core.specs.Length.{length_limit};
ghost use Rattle.ber_core.specs.Tag.{IsTag};
ghost use Rattle.ber_core.specs.Written.{written_head, written};

use crate::fault::OutOfMemory;
use crate::put::{length_len, push_each, put_length};
use std::alloc::Allocator;

/// The most octets that are appended one by one.
const FEW: usize = 8;

/// Appends octets, for which there is room: a few one by one, more by one copy.
#[inline(always)]
fn put_octets<A: Allocator + Copy>(out: &mut Vec<u8, A>, octets: &[u8])
    requires { vec_len out.old + length octets.now ≤ vec_capacity out.old }
    ensures { out.new.items ≡ out.old.items ++ octets.now }
{
    if octets.len() <= FEW {
        push_each(out, octets);
    } else {
        out.extend_from_slice(octets).unwrap();
    }
}

/// Appends a tag and the shortest definite length, for which there is room.
#[inline(always)]
fn put_tagged<A: Allocator + Copy>(out: &mut Vec<u8, A>, tag: &[u8], len: usize)
    requires short { len ≤ length_limit }
    requires room { vec_len out.old + length (written_head tag.now len) ≤ vec_capacity out.old }
    ensures items { out.new.items ≡ out.old.items ++ written_head tag.now len }
    ensures capacity { vec_capacity out.old ≤ vec_capacity out.new }
{
    push_each(out, tag);
    put_length(out, len);
}

/// Appends a tag and the shortest definite length, or nothing. `tag` is one that `read_head` reads,
/// `len` is in octets, at most 65,535 (X.690, Length octets).
#[inline(always)]
pub fn write_head<A: Allocator + Copy>(
    out: &mut Vec<u8, A>,
    tag: &[u8],
    len: usize,
) -> Result<(), OutOfMemory>
    requires tag { IsTag tag.now }
    requires len { len ≤ length_limit }
    ensures ok { OnOk result (out.new.items ≡ out.old.items ++ written_head tag.now len) }
    ensures err { OnErr result (out.new.items ≡ out.old.items) }
    ensures full { OnErr result (vec_capacity out.old < vec_len out.old + length (written_head tag.now len)) }
{
    out.reserve(tag.len() + length_len(len))?;
    put_tagged(out, tag, len);
    Ok(())
}

/// Appends an element in the shortest definite form, or nothing. `tag` is one that `read_head` reads,
/// `content` has at most 65,535 octets (X.690, Structure of an encoding).
///
/// ```rust
/// let mut out = Vec::new(alloc);
/// ber_core::write_element(&mut out, &[0x04], &[0xaa])?;
/// assert_eq!(rt; out.as_slice(), [0x04, 0x01, 0xaa].as_slice());
/// ```
#[inline(always)]
pub fn write_element<A: Allocator + Copy>(
    out: &mut Vec<u8, A>,
    tag: &[u8],
    content: &[u8],
) -> Result<(), OutOfMemory>
    requires tag { IsTag tag.now }
    requires content { length content.now ≤ length_limit }
    ensures ok { OnOk result (out.new.items ≡ out.old.items ++ written tag.now content.now) }
    ensures err { OnErr result (out.new.items ≡ out.old.items) }
    ensures full { OnErr result (vec_capacity out.old < vec_len out.old + length (written tag.now content.now)) }
{
    out.reserve(tag.len() + length_len(content.len()) + content.len())?;
    put_tagged(out, tag, content.len());
    put_octets(out, content);
    Ok(())
}
