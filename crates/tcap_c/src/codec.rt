//! What a program reads of octets without an engine: identifiers and texts, in a room of its own.

ghost use Rattle.std.specs.Prelude.{◌≡◌, ◌++◌, Bool, List, ℕ, Option, IfOk, IfSome, IsSomeAnd};
ghost use Rattle.object_identifiers.specs.Arcs.{NamesOctets};
ghost use Rattle.tcap_pdu.specs.Front.{Front};
ghost use Rattle.tcap_text.specs.Canonical.{canon_text_of, canon_is_good};
ghost use Rattle.tcap_text.specs.Show.{show_text_of, show_is_good, check_text_of};
ghost use Rattle.tcap_c.specs.Codec.{Fills, Gives, GivesIds, GivesNone, GivesText, octets_if_any};
ghost use Rattle.tcap_c.specs.Status.{status_number};

use crate::room::copy_part;
use crate::status::Status;
use ber_core::OutOfMemory;
use object_identifiers::{ObjectIdentifier, dotted, object_identifier};
use std::alloc::Global;
use tcap_pdu::{TransId, front_ids};
use tcap_primitives::Fault;
use tcap_text::{Shown, canon_text, check_text, show_text};

/// Two rows of octets, one behind the other at the front of a room, if they fit.
fn fill_two(first: &[u8], second: &[u8], room: &mut [u8]) -> Status
    ensures { Fills (first.now ++ second.now) (status_number result) room.old room.new }
{
    if first.len() > room.len() || second.len() > room.len() - first.len() {
        return Status::RoomTooSmall;
    }
    let end = copy_part(room, 0, first);
    copy_part(room, end, second);
    Status::Done
}

/// Octets at the front of a room, if they fit, and how many they are.
pub(crate) fn fill(octets: &[u8], count: &mut usize, room: &mut [u8]) -> Status
    ensures { Gives octets.now (status_number result) count.new room.old room.new }
{
    *count = octets.len();
    if octets.len() > room.len() {
        return Status::RoomTooSmall;
    }
    copy_part(room, 0, octets);
    Status::Done
}

/// The octets of an identifier; none where there is none.
fn octets_if_any(id: &Option<TransId>) -> &[u8]
    ensures { result.now ≡ octets_if_any id.now }
{
    match id {
        Some(id) => id.octets(),
        None => &[],
    }
}

/// The originating and the destination transaction identifier at the front of a message, also of a faulty one, one
/// behind the other; how many octets each has is written, 0 to 4, 0 where there is none to be read. 8 octets of room
/// suffice. Answers 0, or 19 where the room is too small, which stays as it was.
#[unsafe(no_mangle)]
pub extern "C" fn tcap_c_front(
    message: &[u8],
    origin_count: &mut usize,
    destination_count: &mut usize,
    room: &mut [u8],
) -> u8
    ensures { (origin destination : Option (List ℕ)) → Front message.now origin destination
        → GivesIds origin destination result origin_count.new destination_count.new room.old room.new }
{
    let (origin, destination) = front_ids(message);
    let origin = octets_if_any(&origin);
    let destination = octets_if_any(&destination);
    *origin_count = origin.len();
    *destination_count = destination.len();
    fill_two(origin, destination, room).number()
}

/// The object identifier that octets name as a text, if they do.
fn named_by(text: &[u8]) -> Option<ObjectIdentifier>
    ensures found { IfSome result (λ o. NamesOctets text.now o) }
    ensures only { (octets : List ℕ) → NamesOctets text.now octets → IsSomeAnd result (λ o. o ≡ octets) }
{
    let Ok(text) = str::from_utf8(text) else {
        return None;
    };
    object_identifier(text).ok()
}

/// The contents octets of the object identifier that a dotted text names, as `0.4.0.0.1.0.1.3`, and how many they are;
/// 255 octets of room suffice. Answers 0; 11 where the text names none, and nothing is written; 19 where the room is
/// too small, which stays as it was.
#[unsafe(no_mangle)]
pub extern "C" fn tcap_c_oid_of_text(text: &[u8], count: &mut usize, room: &mut [u8]) -> u8
    ensures named { (octets : List ℕ) → NamesOctets text.now octets
        → Gives octets result count.new room.old room.new }
    ensures nameless { ((octets : List ℕ) → NamesOctets text.now octets → ⊥)
        → GivesNone 11 result count.old count.new room.old room.new }
{
    match named_by(text) {
        Some(identifier) => fill(identifier.octets(), count, room).number(),
        None => Status::Refused(Fault::BadOid).number(),
    }
}

/// The dotted text of contents octets, as of an application context, and how many characters it has; 2,816 octets of
/// room suffice. Answers 0; 11 where the octets are no object identifier, or one of its numbers is above
/// 4,294,967,295, and nothing is written; 19 where the room is too small, which stays as it was.
#[unsafe(no_mangle)]
pub extern "C" fn tcap_c_text_of_oid(octets: &[u8], count: &mut usize, room: &mut [u8]) -> u8
    ensures named { (text : List ℕ) → NamesOctets text octets.now
        → Gives text result count.new room.old room.new }
    ensures nameless { ((text : List ℕ) → NamesOctets text octets.now → ⊥)
        → GivesNone 11 result count.old count.new room.old room.new }
{
    match dotted(octets) {
        Some(text) => fill(text.as_str().as_bytes(), count, room).number(),
        None => Status::Refused(Fault::BadOid).number(),
    }
}

/// Answers a text at the front of a room, if it fits, how many octets it has, and whether the verdict on its message is
/// good. Where memory was refused for it, nothing is written. The number of the status.
fn answer_text(
    shown: Result<Shown<Global>, OutOfMemory>,
    is_good: &mut bool,
    count: &mut usize,
    room: &mut [u8],
) -> u8
    ensures { (text : List ℕ) (good : Bool) → IfOk shown (λ s. s.text.items ≡ text)
        → IfOk shown (λ s. s.good ≡ good) → GivesText text good result
        is_good.old is_good.new count.old count.new room.old room.new }
{
    match shown {
        Ok(shown) => {
            *is_good = shown.good;
            fill(shown.text.as_slice(), count, room).number()
        }
        Err(OutOfMemory) => Status::Refused(Fault::OutOfMemory).number(),
    }
}

/// The message that octets are, line by line, or the verdict on them alone; how many octets the text has, and whether
/// the verdict is good. Answers 0; 1 where memory was refused, and nothing is written; 19 where the room is too small,
/// which stays as it was.
#[unsafe(no_mangle)]
pub extern "C" fn tcap_c_show(
    alloc: Global,
    message: &[u8],
    is_good: &mut bool,
    count: &mut usize,
    room: &mut [u8],
) -> u8
    ensures { GivesText (show_text_of message.now) (show_is_good message.now) result
        is_good.old is_good.new count.old count.new room.old room.new }
{
    answer_text(show_text(alloc, message), is_good, count, room)
}

/// The verdict on octets as a text; the rest as of `tcap_c_show`.
#[unsafe(no_mangle)]
pub extern "C" fn tcap_c_check(
    alloc: Global,
    message: &[u8],
    is_good: &mut bool,
    count: &mut usize,
    room: &mut [u8],
) -> u8
    ensures { GivesText (check_text_of message.now) (show_is_good message.now) result
        is_good.old is_good.new count.old count.new room.old room.new }
{
    answer_text(check_text(alloc, message), is_good, count, room)
}

/// The canonical form of a message in lower case hexadecimal, or the verdict where it isn't good; the rest as of
/// `tcap_c_show`.
#[unsafe(no_mangle)]
pub extern "C" fn tcap_c_canon(
    alloc: Global,
    message: &[u8],
    is_good: &mut bool,
    count: &mut usize,
    room: &mut [u8],
) -> u8
    ensures { GivesText (canon_text_of message.now) (canon_is_good message.now) result
        is_good.old is_good.new count.old count.new room.old room.new }
{
    answer_text(canon_text(alloc, message), is_good, count, room)
}
