//! Texts that are scripts, and texts with each fault.

use script_text::{MAX_SCRIPT_BYTES, ScriptFault, parse_script};
use std::alloc::{AllocError, Global};
use std::test::*;

/// What a text gives: nothing where memory ran out or the text is too long, and else how many calls or the fault.
fn count(alloc: Global, text: &str) -> Option<Result<usize, ScriptFault>> {
    if text.len() > MAX_SCRIPT_BYTES {
        return None;
    }
    match parse_script(alloc, text.as_bytes()) {
        Ok(script) => Some(Ok(script.calls().len())),
        Err(ScriptFault::NoMemory) => None,
        Err(fault) => Some(Err(fault)),
    }
}

/// What a text gives where this line stands as its second, between a world and `end`.
fn with_line(alloc: Global, line: &str) -> Result<Option<Result<usize, ScriptFault>>, AllocError> {
    let text = format!(in alloc; "world 2 1 1\n{line}\nend\n")?;
    Ok(count(alloc, text.as_str()))
}

#[test]
fn blanks_and_comments_are_skipped(rt: HostRuntime) -> Result<(), Fail> {
    let texts = [
        "world 1 1 1\nend",
        "world 1 1 1\nend\n",
        "world 1 1 1\r\nend\r\n",
        "world 1 1 1\r\nend\r",
        "\n \t\n# world\nworld 1 1 1\n\n#\nend\n\n  # end\n",
        "\tworld  1\t1 1 \n \tend\t",
        "world 1 1 1\nend\n\r\n#\r",
        "#\u{e9}\nworld 1 1 1\n #x\n\t# y\nend",
    ];
    for text in texts {
        assert_eq!(rt; count(rt.alloc(), text), Some(Ok(0)), "{text:?}");
    }
    Ok(())
}

#[test]
fn each_fault_names_its_line(rt: HostRuntime) -> Result<(), Fail> {
    let cases = [
        ("", ScriptFault::NoEnd),
        ("# world\n\n", ScriptFault::NoEnd),
        ("world 1 1 1\n", ScriptFault::NoEnd),
        ("end\n", ScriptFault::NoWorld { line: 1 }),
        ("\n#\nworlds 1 1 1\n", ScriptFault::NoWorld { line: 3 }),
        ("world\n", ScriptFault::BadWorld { line: 1 }),
        ("\nworld 0 1 1\n", ScriptFault::BadWorld { line: 2 }),
        ("world 65 1 1\n", ScriptFault::BadWorld { line: 1 }),
        ("world 1 0 1\n", ScriptFault::BadWorld { line: 1 }),
        ("world 1 16777217 1\n", ScriptFault::BadWorld { line: 1 }),
        ("world 1 1 5\n", ScriptFault::BadWorld { line: 1 }),
        ("world 1 1 0\n", ScriptFault::BadWorld { line: 1 }),
        ("world 1 1 1 1\nx\n", ScriptFault::BadWorld { line: 1 }),
        ("world 1 1 x\nend\n", ScriptFault::BadWorld { line: 1 }),
        ("world 1 1 1\nend\nend\n", ScriptFault::AfterEnd { line: 3 }),
        (
            "world 1 1 1\nend\n\n#\nx y\n",
            ScriptFault::AfterEnd { line: 5 },
        ),
        (
            "world 1 1 1\n\nx\ny\nend\n",
            ScriptFault::BadLine { line: 3 },
        ),
        (
            "world 1 1 1\nworld 1 1 1\nend\n",
            ScriptFault::BadLine { line: 2 },
        ),
        ("world 1 1 1\nend end\n", ScriptFault::BadLine { line: 2 }),
        ("world 1 1 1\r\r\nend\n", ScriptFault::BadWorld { line: 1 }),
    ];
    for (text, fault) in cases {
        assert_eq!(rt; count(rt.alloc(), text), Some(Err(fault)), "{text:?}");
    }
    Ok(())
}

#[test]
fn bad_lines_are_refused(rt: HostRuntime) -> Result<(), Fail> {
    let lines = [
        "send a 0 1 0 0 1",
        "send a 0 1 0 0 1 1 1",
        "send a- 0 1 0 0 1 1",
        "recv a 0 1 0 0 1,1 1",
        "start",
        "start a b",
        "start abcdefghijklmnopq",
        "arrived a",
        "arrived a 00000000000000000001",
        "arrived a 4294967296",
        "arrived a -1",
        "take a 0x1",
        "back a",
        "ready a 1 0",
        "ready a 1 0 abc",
        "ready a 1 0 ag",
        "ready a 1 0 --",
        "range a 1 0 aa",
        "range a 1 0 1 a",
        "list a 1 0, aa",
        "list a 1 ,0 aa",
        "list a 1 0,,1 aa",
        "list a 1 , aa",
        "list a 1 0,4294967296 aa",
        "test",
        "free a b",
        "START a",
    ];
    for line in lines {
        let wanted = Some(Err(ScriptFault::BadLine { line: 2 }));
        assert_eq!(rt; with_line(rt.alloc(), line)?, wanted, "{line:?}");
    }
    Ok(())
}

#[test]
fn each_line_and_each_limit_is_read(rt: HostRuntime) -> Result<(), Fail> {
    let lines = [
        "recv b 0 1 7 3 4 2",
        "ready a 1 1 0aFf10B2",
        "range a 1 0 1 aB",
        "list a 2 7,0,7 00",
        "take b 2",
        "back b 1",
        "test b",
        "free b",
        "start a",
        "start abcdefghijklmnop",
        "start AZ_az09",
        "arrived a 0000000000000000001",
        "arrived a 4294967295",
        "send a 4294967295 0 0 0 0 0",
        "ready a 0 0 -",
        "ready a 0 0 fF",
        "list a 0 4294967295,000 -",
    ];
    for line in lines {
        assert_eq!(rt; with_line(rt.alloc(), line)?, Some(Ok(1)), "{line:?}");
    }
    assert_eq!(rt; count(rt.alloc(), "world 64 16777216 4\nend"), Some(Ok(0)));
    Ok(())
}
