//! Names, patterns, labels and covering.

use kd_name::{covers, is_label, is_name, is_pattern, parent};
use std::test::Fail;

/// Texts, and whether each is a name, a pattern and a label.
const TEXTS: [(&str, bool, bool, bool); 26] = [
    ("", false, false, false),
    ("a", false, false, true),
    (".a.b", false, false, true),
    ("a..b", false, false, true),
    ("a.b.", false, false, true),
    ("a.1b", false, false, true),
    ("1a.b", false, false, true),
    ("a.b c", false, false, false),
    ("a.\u{e9}", false, false, false),
    ("a.b", true, true, true),
    ("_a.-b", true, true, true),
    ("org.example.App", true, true, true),
    ("a.b1", true, true, true),
    ("*", false, false, false),
    (".*", false, false, false),
    ("a*", false, false, false),
    ("1a.*", false, false, false),
    ("a.*.*", false, false, false),
    ("a.*.b", false, false, false),
    ("a..*", false, false, false),
    ("a.*", false, true, false),
    ("a.b.*", false, true, false),
    ("a/b", false, false, false),
    ("1000-replay", false, false, true),
    ("..", false, false, true),
    ("A_b-c.9", false, false, true),
];

#[test]
fn texts_are_names_patterns_and_labels(rt: HostRuntime) {
    for (text, name, pattern, label) in TEXTS {
        let bytes = text.as_bytes();
        assert!(rt; is_name(bytes) == name, "is {text} a name");
        assert!(rt; is_pattern(bytes) == pattern, "is {text} a pattern");
        assert!(rt; is_label(bytes) == label, "is {text} a label");
    }
}

/// A name has 255 bytes, and a star and its dot are not counted; a single element before them has
/// no limit of its own.
#[test]
fn a_name_has_255_bytes_and_a_label_64(rt: HostRuntime) -> Result<(), Fail> {
    for (front, letters, name, pattern) in [
        ("a.", 253, true, true),
        ("a.", 254, false, false),
        ("", 300, false, true),
    ] {
        let mut text = front.as_bytes().to_vec(rt.alloc())?;
        text.extend_from_slice(&vec![in rt.alloc(); b'b'; letters]?)?;
        assert_eq!(rt; is_name(&text), name);
        text.extend_from_slice(b".*")?;
        assert_eq!(rt; is_pattern(&text), pattern);
    }
    assert!(rt; is_label(&[b'x'; 64]) && !is_label(&[b'x'; 65]));
    Ok(())
}

#[test]
fn a_wildcard_covers_one_more_element(rt: HostRuntime) {
    for (pattern, name, covered) in [
        ("foo.bar.*", "foo.bar.baz", true),
        ("a.b", "a.b", true),
        ("a.*", "a.b", true),
        ("a.*", "a.*", true),
        ("foo.bar.*", "foo.bar.baz.baz", false),
        ("foo.bar.*", "foo.bar", false),
        ("foo.bar.*", "foo.barbaz", false),
        ("a.b", "a.b.c", false),
        ("a.*", "a.", false),
        ("a.*", "a.1", false),
        ("*", "a", false),
    ] {
        assert_eq!(rt; covers(pattern.as_bytes(), name.as_bytes()), covered);
    }
    assert_eq!(rt; parent(b"org.example.App"), Some(b"org.example".as_slice()));
    assert_eq!(rt; parent(b"org"), None);
}
