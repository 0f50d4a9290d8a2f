//! What the words of the command ask for.

/// What the words of the command ask for.
#[derive(Clone, Copy, Debug, PartialEq, Eq)]
pub enum Request<'a> {
    /// `show HEX`: the lines of the message that HEX spells.
    Show(&'a str),
    /// `check HEX`: the verdict on the bytes that HEX spells.
    Check(&'a str),
    /// `canon HEX`: the canonical form of the message that HEX spells.
    Canon(&'a str),
    /// `play`: the play of the script on standard input.
    Play,
    /// `stream`: the verdict on each message of the stream on standard input.
    Stream,
}
