//! The names of the faults of requests.

ghost use Rattle.std.specs.Prelude.{◌≡◌, option_map};
ghost use Rattle.tcap_lines.specs.FaultNames.{fault_name_of};

/// The name of the fault of a request with this number, as docs/PROFILE.md has it under "Requests and their
/// faults", None where none has it.
pub fn fault_name(number: u64) -> Option<&'static str>
    ensures { option_map (λ name. name.now) result ≡ fault_name_of number }
{
    match number {
        1 => Some("out of memory"),
        2 => Some("unknown dialogue"),
        3 => Some("wrong state"),
        4 => Some("invoke id in use"),
        5 => Some("no such invocation"),
        6 => Some("bad timeout"),
        7 => Some("too long"),
        8 => Some("dialogues full"),
        9 => Some("dialogue ids spent"),
        10 => Some("numbers spent"),
        11 => Some("bad oid"),
        12 => Some("bad parameter"),
        13 => Some("not class four"),
        14 => Some("moment too late"),
        15 => Some("no context"),
        _ => None,
    }
}
