// Each line with what is read of it.
use crate::shown::line_text;
use std::test::Fail;

const LINES: [(&str, &str); 30] = [
    ("", "blank"),
    ("   # nothing", "blank"),
    (
        r#"open 8 64 short "a\u00e9\n\ud83d" # a comment"#,
        "open 8 64 short [97, 233, 10, 55357]",
    ),
    (
        r#"open 99999999999999999999 0 plain "é😀#""#,
        "open 18446744073709551615 0 plain [233, 55357, 56832, 35]",
    ),
    (r#"open 1 1 long "a""#, "bad: `plain` or `short`"),
    (r#"open 1 1 short a"#, "bad: a JSON string"),
    (r#"open 1 1 short "a"#, "bad: a valid JSON string"),
    (r#"open 1 1 short "\q""#, "bad: a valid JSON string"),
    (r#"open 1 1 short "a"b"#, "bad: a space after the string"),
    ("name x free", "name [120] free"),
    (r#"name "a b" bound"#, "name [97, 32, 98] bound"),
    (
        "name é constant number -0 inlined",
        "name [233] constant number -0.0 true",
    ),
    (
        "name N constant string 3 5 kept",
        "name [78] constant string 3+5 false",
    ),
    ("name N constant undefined", "bad: `inlined` or `kept`"),
    ("name N", "bad: `free`, `bound` or `constant`"),
    ("build number 1.5e3", "build number 1500.0"),
    ("build number Infinity", "build number inf"),
    ("build number inf", "bad: a number"),
    (
        "build unary typeof 3",
        "build unary [116, 121, 112, 101, 111, 102] 3:0+0",
    ),
    ("build unary ! 70000", "build unary [33] 65535:0+0"),
    ("build unary && 1", "bad: a unary operator"),
    (
        "build binary >>> 1 2",
        "build binary [62, 62, 62] 1:0+0 2:0+0",
    ),
    ("build binary + 1", "bad: a node's number"),
    ("build binary + 1 2 3", "bad: the end of the line"),
    (
        "build template 0 1 4 2 3 5 6 0",
        "build template 0+1 4:2+3 5:6+0",
    ),
    (
        "build member 1 0 4294967296 optional",
        "build member 0+4294967295 true 1:0+0",
    ),
    (
        "build call 2 optional 0 1",
        "build call true 2:0+0 0:0+0 1:0+0",
    ),
    ("build sequence 0 1 2", "build sequence 0:0+0 1:0+0 2:0+0"),
    ("root 7 # the root", "root 7"),
    (
        "fold 1",
        "bad: `open`, `name`, `build`, `root`, `read` or `print`",
    ),
];

#[test]
fn reads_each_line(rt: HostRuntime) -> Result<(), Fail> {
    for (line, expected) in LINES {
        let text = line_text(rt.alloc(), line)?;
        assert_eq!(rt; text.as_str(), expected, "{}", line);
    }
    Ok(())
}
