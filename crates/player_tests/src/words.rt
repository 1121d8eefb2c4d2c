//! Words that are in the grammar, and words that are not.
use std::alloc::{AllocError, Global};
use world_play::{ShapeName, Words, read_words};

/// The words of a line.
pub(crate) fn split(alloc: Global, line: &str) -> Result<Vec<String>, AllocError> {
    let mut words = Vec::new(alloc);
    for word in line.split_whitespace() {
        words.push(String::from_str(alloc, word)?)?;
    }
    Ok(words)
}

// What the words of a line say.
fn read(alloc: Global, line: &str) -> Result<Option<Words>, AllocError> {
    let words = split(alloc, line)?;
    Ok(read_words(words.as_slice()))
}

#[test]
fn words_are_read(rt: HostRuntime) {
    let plain = Words {
        markers: 1,
        slice: 1000,
        shape: ShapeName::Level,
    };
    let level = Words {
        markers: 8,
        slice: 1000000,
        shape: ShapeName::Level,
    };
    let small = Words {
        markers: 2,
        slice: 1000,
        shape: ShapeName::Small,
    };
    let lines = [
        ("play", plain),
        (
            "play --markers 8 --slice=1000000 --shape level --engine=plain",
            level,
        ),
        ("play --shape=small --markers=2", small),
        ("play --markers 00000000000000000002 --shape small", small),
    ];
    for (line, said) in &lines {
        assert_eq!(rt; read(rt.alloc(), line), Ok(Some(*said)));
    }
}

#[test]
fn other_words_say_nothing(rt: HostRuntime) {
    let lines = [
        "",
        "run",
        "gen 7 11",
        "play play",
        "play --help",
        "play --",
        "play --markers",
        "play --markers 0",
        "play --markers 9",
        "play --shape small --markers 3",
        "play --markers 3 --shape small",
        "play --markers 000000000000000000001",
        "play --slice 0",
        "play --slice 1000001",
        "play --slice 18446744073709552616",
        "play --slice=",
        "play --slice -5",
        "play --slice --shape small",
        "play --slice 5 --slice 5",
        "play --slice 5 --slice=5",
        "play --engine words",
        "play --shape",
        "play 5",
    ];
    for line in &lines {
        assert_eq!(rt; read(rt.alloc(), line), Ok(None));
    }
}
