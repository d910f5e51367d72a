// What reads the forms that are made of expressions.
use core_parser::Parser;

/// A parser, with what reads expressions, calls and clauses above it.
#[derive(Drop)]
pub struct FormReader<'a> {
    /// The parser, which has the tokens that are left.
    pub parser: Parser<'a>,
}
