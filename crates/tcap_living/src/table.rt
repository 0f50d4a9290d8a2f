//! The forms that a line may have.

ghost use Rattle.std.specs.Prelude.{◌≡◌};
ghost use Rattle.tcap_lines.specs.TableViews.{table_view};
ghost use Rattle.tcap_living.specs.LiveTable.{live_table};

use tcap_lines::{Expected, Form, Table};

/// The identifier of a dialogue.
const DIALOGUE: Expected = Expected::Number(0, 4_294_967_295);
/// Milliseconds.
const MILLISECONDS: Expected = Expected::Number(0, 18_446_744_073_709_551_615);
/// An invoke identifier.
const IDENTIFIER: Expected = Expected::Signed(-128, 127);
/// An invoke identifier that may be left out.
const OPTIONAL_IDENTIFIER: Expected = Expected::OptionalSigned(-128, 127);
/// A local code.
const CODE: Expected = Expected::Signed(-2_147_483_648, 2_147_483_647);
/// The code of a body that may be left out.
const OPTIONAL_CODE: Expected = Expected::OptionalSigned(-2_147_483_648, 2_147_483_647);
/// What stands behind `invoke`.
const INVOKE: &[Expected] = &[
    DIALOGUE,
    IDENTIFIER,
    Expected::Number(1, 4),
    CODE,
    MILLISECONDS,
    OPTIONAL_IDENTIFIER,
    Expected::Octets,
];
/// What stands behind `reject`.
const REJECT: &[Expected] = &[
    DIALOGUE,
    OPTIONAL_IDENTIFIER,
    Expected::ProblemKind,
    Expected::Number(0, 127),
];
/// What stands behind the name of a result.
const RESULT: &[Expected] = &[
    DIALOGUE,
    IDENTIFIER,
    OPTIONAL_CODE,
    Expected::OctetsBehindCode,
];
/// What stands behind the name of a request that opens an exchange.
const OPENING: &[Expected] = &[
    DIALOGUE,
    Expected::Address,
    Expected::DottedContext,
    Expected::Octets,
];
/// What stands behind the name of a request on a dialogue that has a peer.
const ANSWERING: &[Expected] = &[DIALOGUE, Expected::DottedContext, Expected::Octets];

/// All forms.
const FORMS: &[Form<'static>] = &[
    Form {
        name: "new",
        words: &[],
    },
    Form {
        name: "invoke",
        words: INVOKE,
    },
    Form {
        name: "last",
        words: RESULT,
    },
    Form {
        name: "more",
        words: RESULT,
    },
    Form {
        name: "error",
        words: &[DIALOGUE, IDENTIFIER, CODE, Expected::Octets],
    },
    Form {
        name: "reject",
        words: REJECT,
    },
    Form {
        name: "cancel",
        words: &[DIALOGUE, IDENTIFIER],
    },
    Form {
        name: "begin",
        words: OPENING,
    },
    Form {
        name: "uni",
        words: OPENING,
    },
    Form {
        name: "continue",
        words: ANSWERING,
    },
    Form {
        name: "end",
        words: ANSWERING,
    },
    Form {
        name: "prearranged",
        words: &[DIALOGUE],
    },
    Form {
        name: "abort",
        words: &[DIALOGUE, Expected::AbortReason, Expected::Octets],
    },
    Form {
        name: "receive",
        words: &[Expected::Address, Expected::Octets],
    },
    Form {
        name: "advance",
        words: &[MILLISECONDS],
    },
    Form {
        name: "timer",
        words: &[],
    },
    Form {
        name: "state",
        words: &[DIALOGUE],
    },
];

/// The table of a line: the name of a form is its first word.
pub(crate) fn live_table() -> Table<'static>
    ensures { table_view result ≡ live_table }
{
    Table {
        sides: &[],
        on_side: &[],
        alone: FORMS,
    }
}
