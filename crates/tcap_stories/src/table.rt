//! The forms of the lines of a story.

ghost use Rattle.std.specs.Prelude.{◌≡◌};
ghost use Rattle.tcap_lines.specs.TableViews.{table_view};
ghost use Rattle.tcap_stories.specs.StoryTable.{story_table};

use tcap_invocation::MAX_MOMENT;
use tcap_lines::{Expected, Form, Table};

const DIALOGUE: Expected = Expected::Number(0, 4_294_967_295);

const IDENTIFIER: Expected = Expected::Signed(-128, 127);

const OPTIONAL_IDENTIFIER: Expected = Expected::OptionalSigned(-128, 127);

const CODE: Expected = Expected::Signed(-2_147_483_648, 2_147_483_647);

const OPTIONAL_CODE: Expected = Expected::OptionalSigned(-2_147_483_648, 2_147_483_647);

const MILLISECONDS: Expected = Expected::Number(0, 18_446_744_073_709_551_615);

const PORTION: &[Expected] = &[DIALOGUE, Expected::Context, Expected::Octets];

const RESULT: &[Expected] = &[
    DIALOGUE,
    IDENTIFIER,
    OPTIONAL_CODE,
    Expected::OctetsBehindCode,
];

const ON_SIDE: &[Form<'static>] = &[
    Form {
        name: "new",
        words: &[],
    },
    Form {
        name: "invoke",
        words: &[
            DIALOGUE,
            IDENTIFIER,
            Expected::Number(1, 4),
            CODE,
            MILLISECONDS,
            OPTIONAL_IDENTIFIER,
            Expected::Octets,
        ],
    },
    Form {
        name: "last",
        words: RESULT,
    },
    Form {
        name: "more",
        words: RESULT,
    },
    Form {
        name: "error",
        words: &[DIALOGUE, IDENTIFIER, CODE, Expected::Octets],
    },
    Form {
        name: "reject",
        words: &[
            DIALOGUE,
            OPTIONAL_IDENTIFIER,
            Expected::ProblemKind,
            Expected::Number(0, 127),
        ],
    },
    Form {
        name: "cancel",
        words: &[DIALOGUE, IDENTIFIER],
    },
    Form {
        name: "uni",
        words: PORTION,
    },
    Form {
        name: "begin",
        words: PORTION,
    },
    Form {
        name: "continue",
        words: PORTION,
    },
    Form {
        name: "end",
        words: PORTION,
    },
    Form {
        name: "beginto",
        words: &[
            DIALOGUE,
            Expected::Address,
            Expected::Context,
            Expected::Octets,
        ],
    },
    Form {
        name: "prearranged",
        words: &[DIALOGUE],
    },
    Form {
        name: "abort",
        words: &[DIALOGUE, Expected::AbortReason, Expected::Octets],
    },
    Form {
        name: "raw",
        words: &[Expected::Octets],
    },
    Form {
        name: "rawfrom",
        words: &[Expected::Address, Expected::Octets],
    },
];

const ALONE: &[Form<'static>] = &[
    Form {
        name: "deliver",
        words: &[Expected::Message],
    },
    Form {
        name: "again",
        words: &[Expected::Message],
    },
    Form {
        name: "lose",
        words: &[Expected::Message],
    },
    Form {
        name: "advance",
        words: &[MILLISECONDS],
    },
    Form {
        name: "idle",
        words: &[Expected::Number(0, MAX_MOMENT)],
    },
    Form {
        name: "expect",
        words: &[],
    },
];

/// The forms of the lines of a story: those of a play, `idle` of its first line, and `expect`, whose text isn't
/// cut into words.
pub fn story_table() -> Table<'static>
    ensures { table_view result ≡ story_table }
{
    Table {
        sides: &["A", "B"],
        on_side: ON_SIDE,
        alone: ALONE,
    }
}
