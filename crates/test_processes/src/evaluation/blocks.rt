// Texts that are made of blocks, with an empty line between two of them. The first line of a block may be a comment.
use std::test::Fail;

// A text before this separator, and after it.
pub(crate) fn halves<'a>(text: &'a str, separator: &str) -> Result<(&'a str, &'a str), Fail> {
    match text.split_once(separator) {
        Some(parts) => Ok(parts),
        None => Err(Fail::new(format_args!("a part is missing: {text}"))),
    }
}

// The first line of a block, and the lines below it.
pub(crate) fn first_line(block: &str) -> Result<(&str, &str), Fail> {
    halves(block, "\n")
}

// What is below the comment of a block, if it has one.
pub(crate) fn below_comment(block: &str) -> Result<&str, Fail> {
    if block.starts_with("% ") {
        let (_comment, rest) = first_line(block)?;
        return Ok(rest);
    }
    Ok(block)
}
