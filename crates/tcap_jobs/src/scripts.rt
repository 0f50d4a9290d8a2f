//! A test set: scripts up to their limit, played.

use crate::digest::Digest;
use crate::lot::Lot;
use std::alloc::Global;
use tcap_play::play_text;

/// A script is played once it has so many octets; the limit is 1,048,576.
const FULL: usize = 1_040_000;

/// A script that is being written: what it has so far, and the names that come next.
#[derive(Drop)]
struct Script {
    text: String,
    /// The dialogues of A and of B that come next.
    dialogues: [u32; 2],
    /// The messages of A and of B that come next.
    messages: [u32; 2],
    clock: u64,
}

impl Script {
    /// A script without lines.
    fn new(alloc: Global) -> Script {
        Script {
            text: String::new(alloc),
            dialogues: [1, 1],
            messages: [1, 1],
            clock: 0,
        }
    }

    /// A parameter: an octet string of 4 to 24 octets.
    fn parameter(&mut self, lot: &mut Lot) -> Option<()> {
        let words = lot.between(1, 6);
        write!(self.text, "04{:02X}", words.saturating_mul(4)).ok()?;
        for _ in 0..words {
            write!(self.text, "{:08X}", lot.number()).ok()?;
        }
        write!(self.text, "\n").ok()
    }

    /// A begins a dialogue with an operation, and B hears of it.
    fn begin(&mut self, lot: &mut Lot) -> Option<()> {
        let [a, b] = self.dialogues;
        let [first, _] = self.messages;
        write!(
            self.text,
            "A new\nA invoke {a} 1 1 {} 20000 - ",
            lot.below(64)
        )
        .ok()?;
        self.parameter(lot)?;
        let context = lot.below(48);
        write!(
            self.text,
            "A begin {a} 040000010{context:03X}03 -\ndeliver A{first}\n"
        )
        .ok()?;
        self.dialogues = [a.saturating_add(1), b.saturating_add(1)];
        let [first, second] = self.messages;
        self.messages = [first.saturating_add(1), second];
        Some(())
    }

    /// B sends its answer in a message of this kind, which is delivered or lost.
    fn send(&mut self, dialogue: u32, request: &str, fate: &str) -> Option<()> {
        let [first, second] = self.messages;
        write!(
            self.text,
            "B {request} {dialogue} 04000001000103 -\n{fate} B{second}\n"
        )
        .ok()?;
        self.messages = [first, second.saturating_add(1)];
        Some(())
    }

    /// B asks something in between, and A answers.
    fn ask_back(&mut self, a: u32, b: u32, lot: &mut Lot) -> Option<()> {
        write!(self.text, "B invoke {b} 1 1 7 10000 - ").ok()?;
        self.parameter(lot)?;
        self.send(b, "continue", "deliver")?;
        let [first, second] = self.messages;
        write!(
            self.text,
            "A last {a} 1 - -\nA continue {a} - -\ndeliver A{first}\n"
        )
        .ok()?;
        self.messages = [first.saturating_add(1), second];
        Some(())
    }

    /// A dialogue: its operation is answered by a result or an error, or its answer is lost.
    fn dialogue(&mut self, lot: &mut Lot) -> Option<()> {
        let [a, b] = self.dialogues;
        write!(self.text, "# dialogue {a}\n").ok()?;
        self.begin(lot)?;
        match lot.below(8) {
            0 => {
                write!(self.text, "B error {b} 1 5 ").ok()?;
                self.parameter(lot)?;
                self.send(b, "end", "deliver")
            }
            1 => {
                write!(self.text, "B last {b} 1 - -\n").ok()?;
                self.send(b, "end", "lose")?;
                self.clock = self.clock.saturating_add(20_000);
                write!(self.text, "advance {}\nA prearranged {a}\n", self.clock).ok()
            }
            2..5 => {
                self.ask_back(a, b, lot)?;
                write!(self.text, "B last {b} 1 2 ").ok()?;
                self.parameter(lot)?;
                write!(self.text, "B end {b} - -\n").ok()?;
                let [first, second] = self.messages;
                write!(self.text, "deliver B{second}\n").ok()?;
                self.messages = [first, second.saturating_add(1)];
                Some(())
            }
            _ => {
                write!(self.text, "B last {b} 1 2 ").ok()?;
                self.parameter(lot)?;
                self.send(b, "end", "deliver")
            }
        }
    }

    /// Plays the script.
    fn play(&self, alloc: Global, digest: &mut Digest) -> Option<()> {
        let played = play_text(alloc, self.text.as_bytes()).ok()?;
        digest.octets(&played.text);
        digest.number(u64::from(played.good));
        Some(())
    }
}

/// So many dialogues in scripts: the digest of all texts; nothing where memory runs out.
pub(crate) fn run(alloc: Global, seed: u32, turns: u32) -> Option<u64> {
    let mut lot = Lot::new(alloc, seed)?;
    let mut digest = Digest::new();
    let mut script = Script::new(alloc);
    for _ in 0..turns {
        script.dialogue(&mut lot)?;
        if script.text.len() > FULL {
            script.play(alloc, &mut digest)?;
            script = Script::new(alloc);
        }
    }
    script.play(alloc, &mut digest)?;
    Some(digest.value())
}
