//! What holds of every struct and room that C is given.

ghost use Rattle.tcap_c.specs.ReadingBack.{IsOneOutput, IsReadBack};

/// The output that a struct and a room show is read back from them (our own).
pub fn read_back()
    ensures { IsReadBack }
{}

/// A struct and a room show no more than one output (our own).
pub fn one_output()
    ensures { IsOneOutput }
{}
