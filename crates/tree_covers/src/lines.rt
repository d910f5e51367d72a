// The lines of a text.
ghost use Rattle.std.specs.Prelude.{◌≡◌, ◌==◌, ◌<◌, ◌∷◌, [], drop, length, position, MatchOption, IfSome};
ghost use Rattle.std.specs.List.{before_first, position_or_len};
ghost use Rattle.tree_covers.specs.CoverText.{IsFirstLine, lines_in};

// The place of the first line end.
fn place_of_end(text: &[u8]) -> Option<usize>
    ensures { result ≡ position (λ byte. byte == 10) text.now }
{
    text.iter().position(|byte| *byte == b'\n')
}

// Splits before the first line end; without one, the rest is empty.
fn split_at_end(text: &[u8]) -> (&[u8], &[u8])
    ensures line { result.0.now ≡ before_first (λ byte. byte == 10) text.now }
    ensures rest { result.1.now ≡ drop (position_or_len (λ byte. byte == 10) text.now) text.now }
{
    text.split_at(place_of_end(text).unwrap_or(text.len()))
}

/// The first line of a text, and what follows its end; none of the empty text. It takes no memory.
pub(crate) fn split_line(text: &[u8]) -> Option<(&[u8], &[u8])>
    ensures none { MatchOption result (text.now ≡ []) (λ p. text.now ≡ [] → ⊥) }
    ensures line { IfSome result (λ p. IsFirstLine text.now p.0.now p.1.now) }
    ensures lines { IfSome result (λ p. lines_in text.now ≡ p.0.now ∷ lines_in p.1.now) }
    ensures shorter { IfSome result (λ p. length p.1.now < length text.now) }
{
    if text.is_empty() {
        return None;
    }
    let (line, rest) = split_at_end(text);
    let Some((_end, behind)) = rest.split_first() else {
        return Some((line, rest));
    };
    Some((line, behind))
}
