//! The address that a dialogue keeps, in the memory that it takes, and what else it keeps of a Begin.

// Its calls are inlined: apart they moved the address twice more, 60 instructions a turn of `register`.

ghost use Rattle.std.specs.Prelude.{◌≡◌, ◌≤◌, ◌<◌, ◌↔◌, ℕ, List, [], Option, IfNone, IfOk, IsTrue, OnOk, OnErr, length, take, true, option_copied, None};
ghost use Rattle.tcap_dialogue.specs.BeginMemory.{AreNamesOf};
ghost use Rattle.tcap_dialogue.specs.KeptOctets.{IsKept, kept_octets, most_in_place};
ghost use Rattle.tcap_primitives.specs.ContextViews.{context_view};
ghost use Rattle.tcap_model.specs.Procedures.Refusals.{can_name};

use ber_core::OutOfMemory;
use std::alloc::Allocator;
use std::fmt;
use std::marker::Model;
use tcap_address::Address;
use tcap_primitives::Context;

/// The most octets that stand in the dialogue itself (our own).
// With them an address is 32 octets, what the vector of a longer one takes with its tag.
const MOST_IN_PLACE: usize = 30;

/// An address of at most 30 octets: the first `len` of these, those behind mean nothing.
#[derive(Drop)]
struct Short {
    len: u8,
    octets: [u8; MOST_IN_PLACE],
}

impl Short {
    /// Becomes an address of so few octets.
    #[inline(always)]
    fn set(&mut self, octets: &[u8])
        requires { length octets.now ≤ most_in_place }
        ensures value { take self.new.len self.new.octets ≡ octets.now }
        ensures within { self.new.len ≤ most_in_place }
    {
        self.octets[..octets.len()].copy_from_slice(octets);
        self.len = octets.len() as u8;
    }
}

/// Where the octets of an address are.
#[derive(Drop)]
enum Held<A: Allocator + Copy> {
    /// Here.
    InPlace(Short),
    /// In a block of memory of their own.
    Apart(Vec<u8, A>),
}

/// The address that a dialogue keeps: 0 to 255 octets. At most 30 take no memory of the allocator, more take
/// one block of so many (our own).
#[derive(Drop)]
pub(super) struct KeptAddress<A: Allocator + Copy> {
    held: Held<A>,
}

impl<A: Allocator + Copy> Model for KeptAddress<A> {
    ghost use Rattle.std.specs.Prelude.{List, ℕ};
    ghost use Rattle.tcap_dialogue.specs.KeptOctets.{kept_octets, IsKept};

    ghost Value = { List ℕ };

    ghost view = { λ a. kept_octets a.held };

    ghost invariant = { λ a. IsKept a.held };
}

/// As that of `Address`.
impl<A: Allocator + Copy> fmt::Debug for KeptAddress<A> {
    fn fmt<W: fmt::Write>(&self, f: &mut fmt::Formatter<W>) -> fmt::Result {
        f.debug_struct("Address")
            .field("octets", &self.octets())
            .finish()
    }
}

impl<A: Allocator + Copy> KeptAddress<A> {
    /// The address of no octets.
    #[inline(always)]
    pub(super) fn empty() -> Self
        ensures { result ≡ [] }
    {
        KeptAddress {
            held: Held::InPlace(Short {
                len: 0,
                octets: [0; MOST_IN_PLACE],
            }),
        }
    }

    /// A copy of an address.
    #[inline(always)]
    pub(super) fn of(alloc: A, address: &Address) -> Result<Self, OutOfMemory>
        ensures ok { IfOk result (λ kept. kept ≡ address.now) }
        // What stands in place takes no memory.
        ensures err { OnErr result (most_in_place < length address.now) }
    {
        let octets = address.octets();
        let held = if octets.len() <= MOST_IN_PLACE {
            in_place(octets)
        } else {
            Held::Apart(Vec::from_slice(alloc, octets)?)
        };
        Ok(KeptAddress { held })
    }

    /// Its octets.
    #[inline(always)]
    pub(super) fn octets(&self) -> &[u8]
        ensures value { result.now ≡ self.now }
        ensures within { length result.now ≤ 255 }
    {
        match &self.held {
            Held::InPlace(short) => &short.octets[..usize::from(short.len)],
            Held::Apart(octets) => octets,
        }
    }

    /// Becomes a copy of an address, and gives back the memory of the one before.
    #[inline(always)]
    pub(super) fn set(&mut self, alloc: A, address: &Address) -> Result<(), OutOfMemory>
        ensures ok { OnOk result (self.new ≡ address.now) }
        ensures err { OnErr result (self.new ≡ self.old) }
        ensures memory { OnErr result (most_in_place < length address.now) }
    {
        *self = KeptAddress::of(alloc, address)?;
        Ok(())
    }

    /// Becomes a copy of an address that takes no memory, and gives back the memory of the one before.
    #[inline(always)]
    pub(super) fn set_short(&mut self, address: &Address)
        requires { length address.now ≤ most_in_place }
        ensures { self.new ≡ address.now }
    {
        let octets = address.octets();
        // Where it stands, if one stands there: made apart it was moved twice, 10 to 17 instructions a step by an
        // outbox.
        match &mut self.held {
            Held::InPlace(short) => short.set(octets),
            Held::Apart(_) => self.give_up_block(octets),
        }
    }

    /// `set_short`, where the one before has a block of its own.
    // Not inlined: with it, what takes a Begin would grow beyond what the toolchain inlines.
    #[inline(never)]
    fn give_up_block(&mut self, octets: &[u8])
        requires { length octets.now ≤ most_in_place }
        ensures { self.new ≡ octets.now }
    {
        self.held = in_place(octets);
    }
}

/// Whether an address takes no memory.
#[inline(always)]
pub(super) fn is_short(address: &Address) -> bool
    ensures { IsTrue result ↔ (length address.now ≤ most_in_place) }
{
    address.octets().len() <= MOST_IN_PLACE
}

/// So few octets, in place.
#[inline(always)]
fn in_place<A: Allocator + Copy>(octets: &[u8]) -> Held<A>
    requires { length octets.now ≤ most_in_place }
    ensures value { kept_octets result ≡ octets.now }
    ensures kept { IsKept result }
{
    // Not by `set`: with it, what takes a Begin would grow beyond what the toolchain inlines, 105 instructions a step.
    let mut place = [0; MOST_IN_PLACE];
    place[..octets.len()].copy_from_slice(octets);
    Held::InPlace(Short {
        len: octets.len() as u8,
        octets: place,
    })
}

/// What a dialogue keeps of a Begin for good: the address of the peer, and the context.
#[derive(Drop)]
pub(super) struct Names<A: Allocator + Copy> {
    pub(super) kept: KeptAddress<A>,
    pub(super) context: Option<Context<A>>,
}

impl<A: Allocator + Copy> Names<A> {
    /// A copy of these.
    // Each call has its own copy, as those of `KeptAddress` have: apart they moved the address twice more, which took
    // 60 instructions a turn of `register`.
    #[inline(always)]
    pub(super) fn of(
        alloc: A,
        peer: &Address,
        context: Option<&[u8]>,
    ) -> Result<Names<A>, OutOfMemory>
        requires named { can_name (option_copied context) ≡ true }
        ensures kept { IfOk result (λ names. names.kept ≡ peer.now) }
        ensures named { IfOk result (λ names. context_view names.context ≡ option_copied context.entry) }
    {
        let context = Context::of_any(alloc, context)?;
        let kept = KeptAddress::of(alloc, peer)?;
        Ok(Names { kept, context })
    }
}

/// Keeps an address that takes no memory, and no context.
// Written where they stay: by way of `Names` they took 50 to 65 instructions more.
#[inline(always)]
pub(super) fn keep_short<A: Allocator + Copy>(
    peer: &Address,
    kept: &mut KeptAddress<A>,
    context: &mut Option<Context<A>>,
)
    requires { length peer.now ≤ most_in_place }
    ensures kept { kept.new ≡ peer.now }
    ensures context { context_view context.new ≡ None }
{
    kept.set_short(peer);
    if context.is_some() {
        *context = None;
    }
}

/// Keeps the address of the peer and the context that it named, of which copies were made where they take memory.
#[inline(always)]
pub(super) fn keep_found<A: Allocator + Copy>(
    peer: &Address,
    found: &mut Option<Names<A>>,
    kept: &mut KeptAddress<A>,
    context: &mut Option<Context<A>>,
)
    requires { IfNone found.old (length peer.now ≤ most_in_place) }
    ensures found { found.new ≡ None }
    ensures kept { (named : Option (List ℕ)) → AreNamesOf found.old peer.now named → kept.new ≡ peer.now }
    ensures context { (named : Option (List ℕ)) → AreNamesOf found.old peer.now named
        → context_view context.new ≡ named }
{
    match found.take() {
        Some(names) => {
            *kept = names.kept;
            *context = names.context;
        }
        None => keep_short(peer, kept, context),
    }
}
