//! What became of a message of a play.

/// What became of a message of a play.
#[derive(Clone, Copy)]
pub enum Fate {
    /// It waits to be received.
    Waiting,
    /// It was received on the other side.
    Delivered,
    /// It is lost.
    Lost,
}

impl Fate {
    ghost use Rattle.std.specs.Prelude.{◌≡◌};
    ghost use Rattle.tcap_text.specs.Fates.{is_same};

    /// Whether it is this state.
    pub fn is(self, fate: Fate) -> bool
        ensures { result ≡ is_same fate self }
    {
        match fate {
            Fate::Waiting => matches!(self, Fate::Waiting),
            Fate::Delivered => matches!(self, Fate::Delivered),
            Fate::Lost => matches!(self, Fate::Lost),
        }
    }
}
