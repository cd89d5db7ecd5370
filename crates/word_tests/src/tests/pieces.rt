//! Words, lines and numbers of texts.
use text_pieces::{
    are_printed, behind, count_words, cut, first, first_word, number_of, read_digits,
};

/// A text, the number of its words, its first word and its second word.
const LINES: [(&str, usize, &str, &str); 8] = [
    ("", 0, "", ""),
    ("   ", 0, "", ""),
    ("type", 1, "type", ""),
    ("type A 9", 3, "type", "A"),
    ("  add 1 2", 3, "add", "1"),
    ("f   12    3", 3, "f", "12"),
    ("tops 2 1  ", 3, "tops", "2"),
    (" x ", 1, "x", ""),
];

/// A text, what stands before its first end of line, and whether there is one, with what stands behind it.
const TEXTS: [(&str, &str, bool, &str); 5] = [
    ("", "", false, ""),
    ("\n", "", true, ""),
    ("one", "one", false, ""),
    ("one\ntwo\nthree", "one", true, "two\nthree"),
    ("\n\none", "", true, "\none"),
];

/// Whether this stands before the first end of line, and whether there is one, with what stands behind it.
fn is_cut(text: &str, head: &str, has_more: bool, rest: &str) -> bool {
    let (line, more) = cut(text.as_bytes(), b'\n');
    line == head.as_bytes() && more.is_some() == has_more && more.unwrap_or(b"") == rest.as_bytes()
}

/// Whether a line has so many words, of which these are the first two.
fn has_words(line: &str, count: usize, word: &str, next: &str) -> bool {
    let line = line.as_bytes();
    count_words(line) == count
        && first_word(line).is_some() == (count > 0)
        && first(line) == word.as_bytes()
        && first(behind(line)) == next.as_bytes()
}

#[test]
fn lines_are_cut(rt: HostRuntime) {
    for (text, head, has_more, rest) in TEXTS {
        assert!(rt; is_cut(text, head, has_more, rest), "{text:?}");
    }
    for (line, count, word, next) in LINES {
        assert!(rt; has_words(line, count, word, next), "{line:?}");
    }
    assert!(rt; are_printed(b" ~#a") && !are_printed(b"a\tb"));
}

#[test]
fn numbers_are_read(rt: HostRuntime) {
    let table = [
        ("0", Some(0)),
        ("000000009", Some(9)),
        ("999999999", Some(999_999_999)),
        ("0000000009", None),
        ("-1", None),
        ("+1", None),
        ("", None),
        ("1a", None),
    ];
    for (word, number) in table {
        assert_eq!(rt; number_of(word.as_bytes()), number, "{word:?}");
    }
    assert_eq!(rt; read_digits(b"07", 2), Some(7));
    assert_eq!(rt; read_digits(b"007", 2), None);
}
