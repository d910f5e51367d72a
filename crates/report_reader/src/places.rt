// Lines by the bytes that are left after their places.
ghost use Rattle.std.specs.Prelude.{◌≡◌, ◌≤◌, length};
ghost use Rattle.report_reader.specs.Lawful.{HasLine};
ghost use Rattle.report_reader.specs.Lines.{ends_in};
ghost use Rattle.report_reader.specs.inside.Reading.{IsFaultOf, line_at};

use crate::fault::{ReportFault, Stop};

// How many line ends are in a text.
fn ends_in(text: &[u8]) -> u64
    ensures number { result ≡ ends_in text.now }
    ensures bound { result ≤ length text.now }
{
    let mut count = 0;
    for byte in text {
        if *byte == b'\n' {
            count += 1;
        }
    }
    count
}

// The line, counted from 1, that has the first of so many bytes at the end of a text.
fn line_of(text: &[u8], left: usize) -> u64
    ensures { result ≡ line_at text.now left }
{
    let (before, _rest) = text.split_at(text.len().saturating_sub(left));
    ends_in(before) + 1
}

/// What is answered where reading stopped, with the line of a place in the whole text.
pub(crate) fn fault_of(text: &[u8], stop: Stop) -> ReportFault
    ensures fault { IsFaultOf text.now stop result }
    ensures line { HasLine text.now result }
{
    match stop {
        Stop::Bad(left) => ReportFault::BadLine(line_of(text, left)),
        Stop::Deep(left) => ReportFault::TooDeep(line_of(text, left)),
        Stop::Memory => ReportFault::Memory,
    }
}
