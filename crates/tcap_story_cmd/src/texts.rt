//! The texts of `--help` and `--version`.

ghost use Rattle.std.specs.Prelude.{◌≡◌};
ghost use Rattle.tcap_story_cmd.specs.Texts.{help_text, version_text};

/// What `--help` prints.
pub(crate) fn help_text() -> &'static str
    ensures { result.now ≡ help_text }
{
    "Usage: tcap_story [--junit] [--] [FILE ..]\n\nTells the stories in the files, or on standard input where none is named; - is\nstandard input too. A story is a script of tcap play, with lines `expect OUTPUT`\nand `expect nothing` behind those that print it. A refusal that no line expects\nfails, and so does a story that plays no line.\n\n      --junit      tells them in JUnit's XML\n      --help       prints this\n      --version    prints the version\n      --           ends the options: what follows are names\n\nThe status is 0 where all have passed, 1 where one has failed, 2 where one was\nnot read or the run came to no end.\n"
}

/// What `--version` prints.
pub(crate) fn version_text() -> &'static str
    ensures { result.now ≡ version_text }
{
    "tcap_story 0.1.0\n"
}
