//! Octets that are copied into a room.

ghost use Rattle.std.specs.Prelude.{◌+◌, ◌≤◌, length};
ghost use Rattle.tcap_c.specs.Room.{Copies};

/// Copies a part to a place in a room: where it ends.
#[inline(always)]
pub(crate) fn copy_part(room: &mut [u8], at: usize, part: &[u8]) -> usize
    requires { at + length part.now ≤ length room.old }
    ensures { Copies room.old at part.now room.new result }
{
    let end = at + part.len();
    if part.is_empty() {
        return end;
    }
    room[at..end].copy_from_slice(part);
    end
}
