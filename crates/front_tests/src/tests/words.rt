//! Tests of the patterns of names: which names one finds, empty ones among them.

use star_checks::holds;
use star_words::glob::matches;
use std::test::Fail;

#[test]
fn names_that_match(rt: HostRuntime) -> Result<(), Fail> {
    for (pattern, name) in [
        ("*.star", "a.star"),
        ("*.star", ".star"),
        ("*", ""),
        ("", ""),
        ("BUILD", "BUILD"),
        ("BUILD*", "BUILD.bazel"),
        ("*_t?st*.star", "a_test_b.star"),
        ("a*b*c", "abbc"),
    ] {
        holds!(&rt; matches(pattern.as_bytes(), name.as_bytes()), pattern);
    }
    for (pattern, name) in [
        ("*.star", "a.bzl"),
        ("", "a"),
        ("a*b*c", "abb"),
        ("??", "a"),
    ] {
        holds!(&rt; !matches(pattern.as_bytes(), name.as_bytes()), pattern);
    }
    Ok(())
}
