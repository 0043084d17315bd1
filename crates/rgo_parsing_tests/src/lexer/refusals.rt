//! Texts with their refusals: each its kind and its byte.
//!
//! `tools/marked_tables.py --table` writes this file from `tools/marked_programs/refusals.texts`.

/// Texts that are not UTF-8, some of them with other refusals.
pub(super) static BAD_UTF8: [(&[u8], &str); 12] = [
    (b"\xFF", "1@0"),
    (b"x \xC3(", "1@2"),
    (b"x \xC3", "1@2"),
    (b"\xEF\xBB", "1@0"),
    (b"\xEF\xBB\xBFx\x80", "1@4"),
    (b"\"\xC3\xA9\xFF\"", "1@3"),
    (b"// \x80", "1@3"),
    (b"# \xE9", "1@2"),
    (b"/* \" 08 \xF8", "1@8"),
    (b"\"\\q\" \xC0\x80", "1@5"),
    (b"x \xED\xA0\x80", "1@2"),
    (b"\xF4\x90\x80\x80", "1@0"),
];

/// Bytes that begin neither a separator nor a token.
pub(super) static BAD_BYTES: [(&[u8], &str); 15] = [
    (b"\xEF\xBB\xBFx #", "2@5"),
    (b"\xEF\xBB\xBF\xEF\xBB\xBFx", "2@3"),
    (b"x \xEF\xBB\xBF", "2@2"),
    (b"#", "2@0"),
    (b"x @ y", "2@2"),
    (b"'a'", "2@0"),
    (b"x `a`", "2@2"),
    (b"x \\ y", "2@2"),
    (b"$", "2@0"),
    (b"x ? y", "2@2"),
    (b"\x00", "2@0"),
    (b"x\x0C", "2@1"),
    (b"x\x7F", "2@1"),
    (b"x\xC3\xA9", "2@1"),
    (b"\"{}~ !\"#", "2@7"),
];

/// Numbers that are malformed or too large.
pub(super) static BAD_NUMBERS: [(&[u8], &str); 22] = [
    (b"9223372036854775808", "3@0"),
    (b"x 9_223_372_036_854_775_808", "3@2"),
    (b"0x8000000000000000", "3@0"),
    (b"18446744073709551616", "3@0"),
    (b"99999999999999999999999999", "3@0"),
    (b"0x", "3@0"),
    (b"x 0X", "3@2"),
    (b"0x_", "3@0"),
    (b"0x1_", "3@0"),
    (b"0x__1", "3@0"),
    (b"0xG", "3@0"),
    (b"1__2", "3@0"),
    (b"1_", "3@0"),
    (b"x 1_ y", "3@2"),
    (b"08", "3@0"),
    (b"00", "3@0"),
    (b"0_8", "3@0"),
    (b"0_", "3@0"),
    (b"0b1", "3@0"),
    (b"0o7", "3@0"),
    (b"1e5", "3@0"),
    (b"x\n12a", "3@2"),
];

/// Strings that are not closed, or with a bad escape, the one met first.
pub(super) static BAD_STRINGS: [(&[u8], &str); 19] = [
    (b"\"abc", "5@0"),
    (b"x \"", "5@2"),
    (b"x \"a\nb\"", "5@2"),
    (b"\"a\r\n\"", "5@0"),
    (b"\"a\\", "5@0"),
    (b"x \"\\", "5@2"),
    (b"\"\\\"", "5@0"),
    (b"\"\\\\\\\" #", "5@0"),
    (b"\"a\n\\q\"", "5@0"),
    (b"\"a\\q\"", "4@2"),
    (b"x \"ab\\'\"", "4@5"),
    (b"\"\\x41\"", "4@1"),
    (b"\"\\101\"", "4@1"),
    (b"\"\\u00e9\"", "4@1"),
    (b"\"\\\xC3\xA9\"", "4@1"),
    (b"\"\\\n\"", "4@1"),
    (b"x \"\\\\\\\n\"", "4@5"),
    (b"\"a\\q\n", "4@2"),
    (b"\"a\\q", "4@2"),
];

/// General comments that are not closed.
pub(super) static OPEN_COMMENTS: [(&[u8], &str); 4] = [
    (b"/*", "6@0"),
    (b"/*/", "6@0"),
    (b"x /* y", "6@2"),
    (b"x // a\n/* #\n", "6@7"),
];

/// Texts with several lexical errors, the first of which is reported.
pub(super) static FIRST: [(&[u8], &str); 5] = [
    (b"# 08", "2@0"),
    (b"08 #", "3@0"),
    (b"\"\\q\" /*", "4@1"),
    (b"x /* \"\\q\" #", "6@2"),
    (b"x ; \" 08 /* */", "5@4"),
];
