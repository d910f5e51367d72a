// The pieces of a text: what it begins with, and what follows.
ghost use Rattle.std.specs.Prelude.{◌≡◌, ◌==◌, ◌++◌, drop, position, MatchOption};
ghost use Rattle.std.specs.List.{before_first, position_or_len};
ghost use Rattle.report_reader.specs.inside.Reading.{HasNoBack, HasNoFront, HasNoMark, IsCut};

/// What follows a front, where the text begins with it.
pub(crate) fn behind<'t>(text: &'t [u8], front: &[u8]) -> Option<&'t [u8]>
    ensures { MatchOption result (HasNoFront front.now text.now) (λ rest. text.now ≡ front.now ++ rest.now) }
{
    text.strip_prefix(front)
}

/// What comes before an end, where the text ends with it.
pub(crate) fn before<'t>(text: &'t [u8], end: &[u8]) -> Option<&'t [u8]>
    ensures { MatchOption result (HasNoBack end.now text.now) (λ front. text.now ≡ front.now ++ end.now) }
{
    text.strip_suffix(end)
}

// The place of the first mark.
fn place_of(text: &[u8], mark: u8) -> Option<usize>
    ensures { result ≡ position (λ byte. byte == mark) text.now }
{
    text.iter().position(|byte| *byte == mark)
}

// Splits before the first mark: what comes before it, and the rest, which begins with it. Without a mark, the rest is
// empty.
fn split_before(text: &[u8], mark: u8) -> (&[u8], &[u8])
    ensures front { result.0.now ≡ before_first (λ byte. byte == mark) text.now }
    ensures rest { result.1.now ≡ drop (position_or_len (λ byte. byte == mark) text.now) text.now }
{
    text.split_at(place_of(text, mark).unwrap_or(text.len()))
}

/// What comes before the first mark, and what comes after it, where there is one.
pub(crate) fn split_at(text: &[u8], mark: u8) -> Option<(&[u8], &[u8])>
    ensures { MatchOption result (HasNoMark mark text.now) (λ p. IsCut mark text.now p.0.now p.1.now) }
{
    let (front, rest) = split_before(text, mark);
    let Some((_mark, behind)) = rest.split_first() else {
        return None;
    };
    Some((front, behind))
}
