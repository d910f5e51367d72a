// The length and the encoding of a text.
use core_tokens::{ReadFault, check_text};
use std::test::Fail;
use test_support::holds;

// Checks that a text is good, or has this fault.
fn answers_with(text: &[u8], fault: Option<ReadFault>) -> Result<(), Fail> {
    let found = check_text(text).err();
    holds(found == fault, "a text is checked")
}

#[test]
fn checks_texts(rt: HostRuntime) -> Result<(), Fail> {
    answers_with(b"", None)?;
    answers_with("a\u{20ac}".as_bytes(), None)?;
    answers_with(b"module \xff", Some(ReadFault::NotUtf8(7)))?;
    answers_with(b"ab\xe2\x82", Some(ReadFault::NotUtf8(2)))?;
    answers_with(b"\xed\xa0\x80", Some(ReadFault::NotUtf8(0)))?;
    let mut text = vec![in rt.alloc(); b' '; 1_048_576]?;
    answers_with(&text, None)?;
    text.push(0xff)?;
    answers_with(&text, Some(ReadFault::TooLong(1_048_576)))
}
