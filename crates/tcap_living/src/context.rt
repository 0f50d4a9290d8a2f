//! A word that may name an application context.

ghost use Rattle.std.specs.Prelude.{◌≡◌, option_map, option_copied, IfOk};
ghost use Rattle.std.specs.Result.{result_ok};
ghost use Rattle.object_identifiers.specs.Contents.{object_identifier_at};
ghost use Rattle.tcap_play.specs.LineViews.{text_of};
ghost use Rattle.tcap_living.specs.LiveLine.{context_of};

use ber_core::OutOfMemory;
use object_identifiers::{ObjectIdentifier, object_identifier};
use std::alloc::{Allocator, Global};
use tcap_play::script::values::optional_octets;
use tcap_play::script::word::Word;

/// The object identifier of which a word is the dotted form.
fn dotted(text: &[u8]) -> Option<ObjectIdentifier>
    ensures { result ≡ result_ok (object_identifier_at text.now) }
{
    match str::from_utf8(text) {
        Ok(text) => object_identifier(text).ok(),
        Err(_) => None,
    }
}

/// A word that may name an application context, in hexadecimal or in dotted form.
#[derive(Drop)]
pub(crate) struct Context<'s, A: Allocator = Global> {
    pub(crate) word: Word<'s, A>,
    dotted: Option<ObjectIdentifier>,
    ghost named: { dotted ≡ result_ok (object_identifier_at (text_of word)) },
}

impl<'s, A: Allocator> Context<'s, A> {
    /// The word of these characters.
    pub(crate) fn new(alloc: A, text: &'s [u8]) -> Result<Context<'s, A>, OutOfMemory>
        ensures { IfOk result (λ context. text_of context.word ≡ text.entry.now) }
    {
        let word = Word::new(alloc, text)?;
        let dotted = dotted(text);
        Ok(Context { word, dotted })
    }

    /// The contents octets of the context's object identifier, which `-` leaves out; None where the word
    /// names no context.
    pub(crate) fn octets(&self) -> Option<Option<&[u8]>>
        ensures { option_map option_copied result ≡ context_of (text_of self.now.word) }
    {
        match optional_octets(&self.word) {
            Some(octets) => Some(octets),
            None => match &self.dotted {
                Some(identifier) => Some(Some(identifier.octets())),
                None => None,
            },
        }
    }
}
