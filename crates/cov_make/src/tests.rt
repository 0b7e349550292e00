//! Rows of made sources.
use crate::draws::{drawn, next_number};
use crate::source_of;
use std::test::Fail;

/// A seed, how many blocks, and the source.
static SOURCES: [(&str, u64, u32, &str); 4] = [
    ("no block", 0, 0, "t = 0\nprint(t)\n"),
    (
        "a while",
        0,
        1,
        "t = 0\nwhile t > 5 * 10:\n    t = t - 7\nprint(t)\n",
    ),
    (
        "a try, a while and a for",
        7,
        3,
        "t = 0\ntry:\n    t = t // 2\nexcept ZeroDivisionError:\n    t = t + 5\n\
         while t > 2 * 10:\n    t = t - 7\nfor i in range(2):\n    t = t + i\nprint(t)\n",
    ),
    (
        "an if, from the greatest seed",
        u64::MAX,
        2,
        "t = 0\nif t % 3 == 3:\n    t = t + 1\nelse:\n    t = t + 2\n\
         while t > 0 * 10:\n    t = t - 7\nprint(t)\n",
    ),
];

#[test]
fn small_sources(rt: HostRuntime) -> Result<(), Fail> {
    for (title, seed, size, wanted) in &SOURCES {
        let text = source_of(rt.alloc(), *seed, *size)?;
        assert_eq!(rt; text.as_str(), *wanted, "{title}");
    }
    Ok(())
}

#[test]
fn first_draw(rt: HostRuntime) {
    assert_eq!(rt; drawn(next_number(0)), 167_951_807);
}

#[test]
fn large_source(rt: HostRuntime) -> Result<(), Fail> {
    let text = source_of(rt.alloc(), 7, 16_000)?;
    assert_eq!(rt; text.len(), 698_593, "bytes");
    assert_eq!(rt; text.as_str().lines().count(), 48_246, "lines");
    Ok(())
}
