// Blanks and comments.
ghost use Rattle.std.specs.Prelude.{◌≡◌, ◌≤◌, length};
ghost use Rattle.std.specs.List.{prefix_len};
ghost use Rattle.std.specs.Option.{option_map};
ghost use Rattle.core_tokens.specs.TokenText.{is_line_end, is_blank, is_in_line};
ghost use Rattle.core_tokens.specs.inside.Lexing.{behind_run, behind_blank_at, Skips, BeginsNoBlank};

fn is_line_end(c: u8) -> bool
    ensures { result ≡ is_line_end c }
{
    c == b'\n' || c == b'\r'
}

fn is_blank(c: u8) -> bool
    ensures { result ≡ is_blank c }
{
    c == b' ' || c == b'\t' || is_line_end(c)
}

// How many bytes come before the line ends.
fn line_count(text: &[u8]) -> usize
    ensures count { result ≡ prefix_len is_in_line text.now }
    ensures within { result ≤ length text.now }
{
    text.iter().take_while(|c| !is_line_end(**c)).count()
}

// The line end and what follows it.
fn behind_line(text: &[u8]) -> &[u8]
    ensures { result.now ≡ behind_run is_in_line text.now }
{
    let (_, rest) = text.split_at(line_count(text));
    rest
}

// What follows one blank or one comment at the front.
#[tactic(auto, unfolding(crate::specs::inside::Lexing::behind_blank_at))]
fn behind_blank(text: &[u8]) -> Option<&[u8]>
    ensures { option_map (λ x. x.now) result ≡ behind_blank_at text.now }
{
    let [first, rest @ ..] = text else {
        return None;
    };
    if is_blank(*first) {
        Some(rest)
    } else if *first == b'%' {
        Some(behind_line(rest))
    } else {
        None
    }
}

/// What follows the blanks and the comments at the front.
pub(crate) fn behind_blanks(text: &[u8]) -> &[u8]
    ensures skipped { Skips text.now result.now }
    ensures all { BeginsNoBlank result.now }
    ensures within { length result.now ≤ length text.now }
{
    let mut rest = text;
    while let Some(after) = behind_blank(rest) {
        rest = after;
    }
    rest
}
