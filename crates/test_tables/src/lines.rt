// Scenes as text: an empty line separates two of them. Each begins with a comment, and then has a line for each call.
use std::alloc::Global;
use std::test::Fail;

/// A line, such as `Made1 = 0 new('t',['bag']) -> #P.1`. `pid` is answered by the process of a number, `ref` by a
/// reference of nothing, and `ends` ends the process.
#[derive(Drop)]
pub(crate) struct Line<'a> {
    /// The name that its answer gets, or nothing.
    pub(crate) name: &'a str,
    /// The number of the process that calls, where 0 is the first.
    pub(crate) who: u64,
    /// The name of the call.
    pub(crate) call: &'a str,
    /// Its arguments.
    pub(crate) arguments: &'a str,
    /// What it results in: its answer and what is sent to others; or the rule that refuses it and, if it is reported, the
    /// owner of the table.
    pub(crate) want: &'a str,
}

/// What is below the comment of a scene, which is its first line.
pub(crate) fn below_comment(scene: &str) -> Result<&str, Fail> {
    let Some((comment, lines)) = scene.split_once('\n') else {
        return Err(Fail::from("a scene has a comment, and lines below it"));
    };
    if !comment.starts_with("% ") {
        return Err(Fail::from("a scene begins with a comment"));
    }
    Ok(lines)
}

// The parts of a line.
fn line_of(text: &str) -> Option<Line<'_>> {
    let (made, want) = text.split_once(" -> ")?;
    let (name, made) = made.split_once(" = ").unwrap_or(("", made));
    let (who, call) = made.split_once(' ')?;
    let (call, arguments) = call.split_once('(')?;
    Some(Line {
        name,
        who: who.parse().ok()?,
        call,
        arguments: arguments.strip_suffix(')')?,
        want,
    })
}

/// The lines of a scene.
pub(crate) fn lines_of<'a>(alloc: Global, scene: &'a str) -> Result<Vec<Line<'a>>, Fail> {
    let mut lines = Vec::new(alloc);
    for text in below_comment(scene)?.split('\n') {
        let Some(line) = line_of(text) else {
            return Err(Fail::new(format_args!("this is no line: {text}")));
        };
        lines.push(line)?;
    }
    Ok(lines)
}
