// The first bytes of texts.
ghost use Rattle.std.specs.Prelude.{◌≡◌, ◌≢◌, ◌<◌, ◌∷◌, MatchOption, slice_index};

/// What follows this mark, where the text begins with it.
pub(crate) fn behind_mark(text: &[u8], mark: u8) -> Option<&[u8]>
    requires { 0 < mark }
    ensures { MatchOption result (slice_index text.now 0 ≢ mark) (λ rest. text.now ≡ mark ∷ rest.now) }
{
    let (first, rest) = text.split_first()?;
    if *first == mark { Some(rest) } else { None }
}
