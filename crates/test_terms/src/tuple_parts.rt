// The parts of tuples, and rows with a place, as they are read from texts.
use std::alloc::Global;
use std::test::Fail;
use term_core::Terms;
use term_reader::read_term;

/// The parts of the tuple that a text says.
pub(crate) fn parts_of(alloc: Global, text: &str) -> Result<Terms, Fail> {
    let tuple = read_term(alloc, text.as_bytes())?;
    let parts = tuple.as_tuple().ok_or("a text says a tuple")?;
    Ok(parts.copy(alloc)?)
}

/// A place, and a text between backquotes, which are the parts of a row.
pub(crate) fn place_and_text(row: &str) -> Option<(usize, &str)> {
    let (place, quoted) = row.split_once(" `")?;
    let text = quoted.strip_suffix('`')?;
    Some((place.parse().ok()?, text))
}
