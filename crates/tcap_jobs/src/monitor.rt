//! A monitor of a link: octets come in pieces, the messages in them are cut, read, judged, shown or written
//! anew.

use crate::digest::Digest;
use crate::lot::Lot;
use crate::octets::{put, spoil};
use crate::samples::{Sample, draw_large_sample, draw_sample};
use ber_core::Feed;
use std::alloc::Global;
use tcap_text::{canon_text, check_text, show_text};

/// How many messages of ordinary size are made.
const SAMPLES: usize = 1_024;

/// How many large ones.
const LARGE_SAMPLES: usize = 8;

/// So many messages are sent before the pieces are cut anew.
const TOGETHER: u32 = 256;

/// A monitor and the link that it watches.
#[derive(Drop)]
struct Monitor {
    feed: Feed,
    lot: Lot,
    digest: Digest,
    samples: Vec<Sample>,
    large_samples: Vec<Sample>,
    /// The octets that come next.
    stream: Vec<u8>,
    /// The message that is put behind them.
    message: Vec<u8>,
}

/// Puts a message into the stream with its identifier drawn anew; one in fifty is damaged, but its end.
fn put_sample(
    stream: &mut Vec<u8>,
    message: &mut Vec<u8>,
    lot: &mut Lot,
    sample: &Sample,
) -> Option<()> {
    message.clear();
    put(message, &sample.octets)?;
    let drawn = lot.number().to_be_bytes();
    for (octet, drawn) in message.iter_mut().skip(sample.drawn_at).zip(drawn.iter()) {
        *octet = *drawn;
    }
    if let Some(from) = sample.body_at {
        if lot.is_one_in(50) {
            spoil(message, from, lot);
        }
    }
    put(stream, message)
}

impl Monitor {
    /// Puts so many messages into the stream; one in two thousand is large.
    fn fill(&mut self, count: u32) -> Option<()> {
        self.stream.clear();
        let Monitor {
            lot,
            samples,
            large_samples,
            stream,
            message,
            ..
        } = self;
        for _ in 0..count {
            let is_large = lot.is_one_in(2_000);
            if is_large {
                let at = lot.index(large_samples.len());
                put_sample(stream, message, lot, large_samples.get(at)?)?;
            } else {
                let at = lot.index(samples.len());
                put_sample(stream, message, lot, samples.get(at)?)?;
            }
        }
        Some(())
    }

    /// A message was cut: it is judged, shown or written anew.
    // Called: inlined into what cuts the stream it takes 3 % more of the job.
    #[inline(never)]
    fn look_at(&mut self, alloc: Global, message: &[u8]) -> Option<()> {
        let shown = match self.lot.below(4) {
            0 => show_text(alloc, message).ok()?,
            1 => canon_text(alloc, message).ok()?,
            _ => check_text(alloc, message).ok()?,
        };
        self.digest.octets(&shown.text);
        Some(())
    }

    /// A piece of the stream comes. Where no message can follow, the link begins anew.
    fn take(&mut self, alloc: Global, piece: &[u8]) -> Option<()> {
        match self.feed.push(piece) {
            Ok(messages) => {
                for message in &messages {
                    self.look_at(alloc, message)?;
                }
            }
            Err(_) => {
                self.digest.number(self.feed.rest_len() as u64);
                self.feed = Feed::new(alloc);
            }
        }
        Some(())
    }

    /// So many messages come, in pieces of a network, in one case of sixteen in single octets.
    fn turn(&mut self, alloc: Global, count: u32) -> Option<()> {
        self.fill(count)?;
        let width = match self.lot.below(16) {
            0 => 1,
            1 => 20,
            _ => 1_448,
        };
        let stream = std::mem::replace(&mut self.stream, Vec::new(alloc));
        for piece in stream.chunks(width) {
            self.take(alloc, piece)?;
        }
        self.stream = stream;
        Some(())
    }
}

/// So many messages: the digest of all texts; nothing where memory runs out.
pub(crate) fn run(alloc: Global, seed: u32, turns: u32) -> Option<u64> {
    let mut lot = Lot::new(alloc, seed)?;
    let mut samples = Vec::with_capacity(alloc, SAMPLES).ok()?;
    for _ in 0..SAMPLES {
        samples.push(draw_sample(alloc, &mut lot)?).ok()?;
    }
    let mut large_samples = Vec::with_capacity(alloc, LARGE_SAMPLES).ok()?;
    for _ in 0..LARGE_SAMPLES {
        large_samples
            .push(draw_large_sample(alloc, &mut lot)?)
            .ok()?;
    }
    let mut monitor = Monitor {
        feed: Feed::new(alloc),
        lot,
        digest: Digest::new(),
        samples,
        large_samples,
        stream: Vec::new(alloc),
        message: Vec::new(alloc),
    };
    for _ in 0..turns / TOGETHER {
        monitor.turn(alloc, TOGETHER)?;
    }
    monitor.turn(alloc, turns % TOGETHER)?;
    Some(monitor.digest.value())
}
