// The bar between the schedule of a job and the steps that sleep.
ghost use Rattle.std.specs.Prelude.{◌≡◌, ◌++◌, ℕ, List, MatchOption};
ghost use Rattle.search_job_lines.specs.Faults.{HasNoBar, IsCutAtBar};
ghost use Rattle.search_job_lines.specs.JobText.{bar};

// What follows a bar with which a text begins.
fn behind_bar(text: &[u8]) -> Option<&[u8]>
    ensures { MatchOption result ((behind : List ℕ) → text.now ≡ bar ++ behind → ⊥) (λ behind. text.now ≡ bar ++ behind.now) }
{
    let Some((first, behind)) = text.split_at_checked(3) else {
        return None;
    };
    if first != b" | ".as_slice() {
        return None;
    }
    Some(behind)
}

/// What comes before the first bar of a line, and after it. It takes no memory.
pub(crate) fn split_at_bar(line: &[u8]) -> Option<(&[u8], &[u8])>
    ensures { MatchOption result (HasNoBar line.now) (λ parts. IsCutAtBar line.now parts.0.now parts.1.now) }
{
    let mut rest = line;
    'places: while let Some((_byte, later)) = rest.split_first() {
        if let Some(behind) = behind_bar(rest) {
            let (front, _) = line.split_at(line.len() - rest.len());
            return Some((front, behind));
        }
        rest = later;
    }
    None
}
