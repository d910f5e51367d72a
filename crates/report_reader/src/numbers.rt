// Numbers in decimal at the beginning of a text.
ghost use Rattle.std.specs.Prelude.{◌≡◌, ◌++◌, MatchOption};
ghost use Rattle.std.specs.Fmt.{decimal};
ghost use Rattle.report_reader.specs.inside.Reading.{HasNoFront};

use crate::pieces::behind;
use itoa::Buffer;

/// What follows a number, where the text begins with it.
pub(crate) fn behind_number(text: &[u8], number: u64) -> Option<&[u8]>
    ensures { MatchOption result (HasNoFront (decimal number) text.now) (λ rest. text.now ≡ decimal number ++ rest.now) }
{
    let mut buffer = Buffer::new();
    behind(text, buffer.format(number).as_bytes())
}
