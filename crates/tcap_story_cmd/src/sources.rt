//! Where stories are read from.

ghost use Rattle.std.specs.Prelude.{◌≡◌, IfOk, List, Option, ℕ};

use std::io;
use std::io::Read;

/// Where stories are read from: inputs that are opened by name, as files are.
pub trait Sources {
    /// An input that is open.
    type Source: Read + Drop;

    /// The octets of the input of a name, where they are known.
    ghost octets_of: { Self → List ℕ → Option (List ℕ) };

    /// Opens the input of this name, at its first octet.
    ///
    /// # Errors
    ///
    /// Any, where it can't be opened; `OutOfMemory` where memory was refused.
    fn open(&self, name: &str) -> io::Result<Self::Source>
        ensures { IfOk result (λ source. Self.Source.remaining source ≡ octets_of self.now name.now) };
}
