//! What octets are the contents of an object identifier (X.690, Encoding of an object identifier value).

ghost use Rattle.std.specs.Prelude.{◌≡◌, ◌↔◌, IsTrue, true};
ghost use Rattle.ber_core.specs.ObjectIdentifier.{IsObjectIdentifier, subidentifiers_at, is_object_identifier};

/// The greatest number of contents octets of an object identifier: 255 (our own).
const MAX_OBJECT_IDENTIFIER: usize = 255;

/// Whether the octets are subidentifiers, each in the fewest octets, the last one whole.
fn are_subidentifiers(content: &[u8]) -> bool
    ensures { result ≡ subidentifiers_at true content.now }
{
    let mut begins = true;
    for octet in content {
        if *octet < 0x80 {
            begins = true;
        } else if *octet == 0x80 && begins {
            return false;
        } else {
            begins = false;
        }
    }
    begins
}

/// Whether the octets are an object identifier, in exact form.
#[tactic(auto, unfolding(crate::specs::ObjectIdentifier::is_object_identifier))]
fn is_identifier(content: &[u8]) -> bool
    ensures { result ≡ is_object_identifier content.now }
{
    if content.is_empty() {
        return false;
    }
    if content.len() > MAX_OBJECT_IDENTIFIER {
        return false;
    }
    are_subidentifiers(content)
}

/// Whether contents octets are an object identifier: 1 to 255 octets, the last below 80, and no octet
/// 80 at the start or behind an octet below 80 (X.690, Encoding of an object identifier value).
pub fn is_oid(content: &[u8]) -> bool
    ensures is { IsTrue result ↔ IsObjectIdentifier content.now }
    // The same, computed.
    ensures exact { result ≡ is_object_identifier content.now }
{
    is_identifier(content)
}
