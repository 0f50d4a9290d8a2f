//! The functions for C, which are all that leaves this crate.

ghost use Rattle.std.specs.Prelude.{◌≡◌, ◌<◌, ◌⊎◌};
ghost use Rattle.tcap_bench.specs.Checksum.{element_checksum, message_checksum, stream_checksum};
ghost use Rattle.tcap_bench.specs.Messages.{begin_of, continue_of, IsPut};
ghost use Rattle.tcap_bench.specs.Rewritten.{rewritten};

use crate::values::Invocation;
use crate::{
    dialogue_steps, engine_steps, feed_steps, invocation_steps, lapse_steps, message_sum,
    rewritten, sum, traffic, written,
};
use std::alloc::Global;

/// Reads one message whole: the message, its dialogue PDU and each of its components; 0 where it can't
/// be read (own).
#[unsafe(no_mangle)]
pub extern "C" fn tcap_bench_read(bytes: &[u8]) -> u64
    ensures { result ≡ message_checksum bytes.now }
{
    message_sum::read_sum(bytes)
}

/// Reads the first element; 0 where there is none (own).
#[unsafe(no_mangle)]
pub extern "C" fn tcap_bench_element(bytes: &[u8]) -> u64
    ensures { result ≡ element_checksum bytes.now }
{
    sum::element_sum(bytes)
}

/// Hands a stream to a new feed in pieces of so many octets, and answers the checksum of the lengths of
/// the messages that it gives. It answers 0 where memory runs out, and for pieces of no octets (own).
#[unsafe(no_mangle)]
pub extern "C" fn tcap_bench_feed(alloc: Global, width: u32, bytes: &[u8]) -> u64
    ensures { (result ≡ stream_checksum bytes.now) ⊎ (result ≡ 0) }
{
    feed_steps::stream_sum(alloc, width, bytes)
}

/// Writes a Begin to the beginning of a room, and answers its length: a dialogue request where the context
/// has octets, and Invokes. It answers 0 where the message can't be written, where the room is too
/// short and where memory runs out (own).
#[unsafe(no_mangle)]
pub extern "C" fn tcap_bench_write_begin(
    alloc: Global,
    otid: u32,
    context: &[u8],
    invocations: &[Invocation],
    pool: &[u8],
    room: &mut [u8],
) -> usize
    ensures { IsPut (begin_of otid context.now pool.now invocations.now) result room.new }
{
    written::put_begin(alloc, otid, context, invocations, pool, room)
}

/// Writes a Continue to the beginning of a room, and answers its length: a dialogue response that accepts
/// the context, and a Return Result Last without a body. It answers 0 as `tcap_bench_write_begin` does
/// (own).
#[unsafe(no_mangle)]
pub extern "C" fn tcap_bench_write_continue(
    alloc: Global,
    otid: u32,
    dtid: u32,
    context: &[u8],
    id: i8,
    room: &mut [u8],
) -> usize
    ensures { IsPut (continue_of otid dtid context.now id) result room.new }
{
    written::put_continue(alloc, otid, dtid, context, id, room)
}

/// Reads a message and writes it in the canonical form to the beginning of a room, and answers its length.
/// It answers 0 where the message can't be read, and as `tcap_bench_write_begin` does (own).
#[unsafe(no_mangle)]
pub extern "C" fn tcap_bench_rewrite(alloc: Global, bytes: &[u8], room: &mut [u8]) -> usize
    ensures { IsPut (rewritten bytes.now) result room.new }
{
    rewritten::put_rewritten(alloc, bytes, room)
}

/// Makes a dialogue and takes it so many steps far, and answers how many outputs were given in all:
/// 1: an Invoke; 2: the Begin; 3: the message is read and taken; 4: a result is queued; 5: the Continue
/// with it. It answers 0 where memory runs out or the message can't be read (own).
#[unsafe(no_mangle)]
pub extern "C" fn tcap_bench_dialogue(alloc: Global, steps: u8, message: &[u8]) -> u64
    // Before the Begin nothing is sent or told.
    ensures { (steps < 2) → (result ≡ 0) }
{
    dialogue_steps::count_outputs(alloc, steps, message)
}

/// Makes an engine with so many dialogues open, and takes it so many laps far: in a lap as many steps as
/// there are dialogues, each on a dialogue drawn by lot, and answers how many outputs the steps gave in
/// all. A step is, 1: a dialogue is begun with an Invoke, and the drawn one ended by the peer with its
/// result; 2: a Begin with an Invoke is received, and the drawn dialogue answered by a result and a
/// basic end; 3: a Continue with a result is received, and a Continue with an Invoke sent, and after each
/// lap a moment is handed in; 4: the next moment is handed in, at which nothing is due; 5: the next
/// moment, and a Continue without components is received, under an idle limit; any other number: the same
/// without one. It answers 0 where memory runs out (own).
#[unsafe(no_mangle)]
pub extern "C" fn tcap_bench_engine(alloc: Global, step: u8, dialogues: u16, laps: u32) -> u64
    // The dialogues that are opened first are no step: in no laps nothing is given.
    ensures { (laps ≡ 0) → (result ≡ 0) }
{
    engine_steps::count_engine(alloc, step, dialogues, laps)
}

/// `tcap_bench_engine`, by calls that append their outputs to one outbox, which is cleared before each (own).
#[unsafe(no_mangle)]
pub extern "C" fn tcap_bench_outbox(alloc: Global, step: u8, dialogues: u16, laps: u32) -> u64
    ensures { (laps ≡ 0) → (result ≡ 0) }
{
    engine_steps::count_outbox(alloc, step, dialogues, laps)
}

/// Makes an engine with so many Active dialogues, of which so many lapse at each moment from 1 on, and takes
/// it so many laps far: in a lap each dialogue lapses once. After each moment each dialogue that lapsed goes
/// on with another Invoke, whose timeout is as many moments as a lap has. It answers how many outputs the
/// laps gave in all, two for each lapse; 0 where memory runs out (own).
#[unsafe(no_mangle)]
pub extern "C" fn tcap_bench_lapses(alloc: Global, dialogues: u16, together: u16, laps: u32) -> u64
    // The dialogues that are opened first are no step: in no laps nothing is given.
    ensures { (laps ≡ 0) → (result ≡ 0) }
{
    lapse_steps::count_lapses(alloc, dialogues, together, laps)
}

/// `tcap_bench_lapses`, by calls that append their outputs to one outbox (own).
#[unsafe(no_mangle)]
pub extern "C" fn tcap_bench_outbox_lapses(
    alloc: Global,
    dialogues: u16,
    together: u16,
    laps: u32,
) -> u64
    ensures { (laps ≡ 0) → (result ≡ 0) }
{
    lapse_steps::count_outbox_lapses(alloc, dialogues, together, laps)
}

/// Makes a dialogue with so many invocations Sent, and takes it so many laps far: in a lap as many steps
/// as there are invocations, each at the next moment, and answers how many outputs the steps gave in
/// all. A step is, 1: the result of one drawn by lot is received in a Continue, its identifier is free
/// after the moment, and a Continue with it invoked again is sent; 2: the oldest lapses at the moment,
/// and such a Continue is sent; 3: the moment alone, at which nothing is due. It answers 0 where memory
/// is refused (own).
#[unsafe(no_mangle)]
pub extern "C" fn tcap_bench_invocations(
    alloc: Global,
    step: u8,
    invocations: u16,
    laps: u32,
) -> u64
    // The dialogue that is opened first is no step: in no laps nothing is given.
    ensures { (laps ≡ 0) → (result ≡ 0) }
{
    invocation_steps::count_invocations(alloc, step, invocations, laps)
}

/// Makes an engine that takes so many turns of traffic drawn by lot over so many dialogues, and answers a
/// digest of all that it answers. A turn is a request, a message or a moment, some of them out of place, or
/// what begins a dialogue where one is over. It answers 0 where memory runs out (own).
#[unsafe(no_mangle)]
pub extern "C" fn tcap_bench_traffic(alloc: Global, seed: u64, dialogues: u16, turns: u32) -> u64
    ensures { (turns ≡ 0) → (result ≡ 0) }
{
    traffic::traffic_digest(alloc, seed, dialogues, turns)
}
