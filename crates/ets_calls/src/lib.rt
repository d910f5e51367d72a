// What a process asks of tables: which call of a table a request is, and what each of its arguments is.
#![tactic(auto)]

pub mod argument;
pub mod call;
pub mod changes;
pub mod heirs;
pub mod increment;
pub mod items;
pub mod objects;
pub mod options;
pub mod request;
pub mod settings;

pub use argument::TableArgument;
pub use call::TableCall;
pub use increment::{Addition, Increment};
pub use options::TableOption;
pub use request::TableRequest;
