//! The tests of `tcap_lines`, `tcap_stories` and `tcap_story_cmd`: what is told of lines and of stories.
//!
//! Stands on all three. It has no function but the tests.
#![tactic(auto)]

#[cfg(test)]
mod tests;
