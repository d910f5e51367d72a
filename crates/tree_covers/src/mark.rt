// The mark between a module and a cover.
ghost use Rattle.std.specs.Prelude.{◌≡◌, option_map};
ghost use Rattle.tree_covers.specs.CoverText.{IsCut};

use crate::lines::split_line;

/// What is alone on the line before a cover. To the reader of a module it is a comment.
pub const MARK: &[u8] = b"%%cover";

/// Splits a text before its first line that is exactly the mark: what comes before that line, and what comes after it.
/// Where there is no such line, it is all of the text and nothing else. It takes no memory.
pub fn split_at_mark(text: &[u8]) -> (&[u8], Option<&[u8]>)
    ensures { IsCut text.now result.0.now (option_map (λ behind. behind.now) result.1) }
{
    let mut rest = text;
    while let Some((line, behind)) = split_line(rest) {
        if line == MARK {
            let (before, _) = text.split_at(text.len() - rest.len());
            return (before, Some(behind));
        }
        rest = behind;
    }
    (text, None)
}
