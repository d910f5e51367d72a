// From the bytes of a text to its tokens.
#![tactic(auto)]

pub mod fault;
pub mod lexer;
pub mod text;
pub mod token;

pub use fault::ReadFault;
pub use lexer::tokens;
pub use text::{TEXT_LIMIT, check_text};
pub use token::{Keyword, Lexeme, Mark, Token};
