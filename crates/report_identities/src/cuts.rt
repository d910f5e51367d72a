// Texts that are cut at marks.
ghost use Rattle.std.specs.Prelude.{◌≡◌, ℕ, ◌==◌, List, ◌++◌, MatchOption, position};
ghost use Rattle.report_identities.specs.inside.Cuts.{IsFirstCut, IsLastCut, Lacks, behind, front};

// The place of the first such mark.
fn place_of(bytes: &[u8], mark: u8) -> Option<usize>
    ensures { result ≡ position (λ byte. byte == mark) bytes.now }
{
    bytes.iter().position(|byte| *byte == mark)
}

/// Splits before the first such mark: what comes before it, and the rest, which begins with it. Without a mark, the
/// rest is empty.
pub(crate) fn split_before(bytes: &[u8], mark: u8) -> (&[u8], &[u8])
    ensures before { result.0.now ≡ front mark bytes.now }
    ensures rest { result.1.now ≡ behind mark bytes.now }
{
    bytes.split_at(place_of(bytes, mark).unwrap_or(bytes.len()))
}

/// Cuts at the first such mark: what comes before it, and what comes after it.
pub(crate) fn cut_at_first(bytes: &[u8], mark: u8) -> Option<(&[u8], &[u8])>
    ensures { MatchOption result (Lacks mark bytes.now) (λ cut. IsFirstCut mark bytes.now cut.0.now cut.1.now) }
{
    let (before, rest) = split_before(bytes, mark);
    let Some((_mark, behind)) = rest.split_first() else {
        return None;
    };
    Some((before, behind))
}

/// Cuts at the last such mark: what comes before it, and what comes after it.
pub(crate) fn cut_at_last(bytes: &[u8], mark: u8) -> Option<(&[u8], &[u8])>
    ensures { MatchOption result (Lacks mark bytes.now) (λ cut. IsLastCut mark bytes.now cut.0.now cut.1.now) }
{
    let mut rest = bytes;
    'bytes: while let Some((last, before)) = rest.split_last() {
        if *last == mark {
            return Some((before, &bytes[rest.len()..]));
        }
        rest = before;
    }
    None
}

/// What follows this beginning, where the text has it.
pub(crate) fn behind_words<'a>(bytes: &'a [u8], words: &[u8]) -> Option<&'a [u8]>
    ensures { MatchOption result ((rest : List ℕ) → bytes.now ≡ words.now ++ rest → ⊥) (λ rest. bytes.now ≡ words.now ++ rest.now) }
{
    bytes.strip_prefix(words)
}

/// What comes before this end, where the text has it.
pub(crate) fn before_words<'a>(bytes: &'a [u8], words: &[u8]) -> Option<&'a [u8]>
    ensures { MatchOption result ((rest : List ℕ) → bytes.now ≡ rest ++ words.now → ⊥) (λ rest. bytes.now ≡ rest.now ++ words.now) }
{
    bytes.strip_suffix(words)
}
