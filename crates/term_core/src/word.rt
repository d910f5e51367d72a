// The atoms that the language itself makes.
ghost use Rattle.std.specs.Prelude.{◌≡◌};
ghost use Rattle.term_core.specs.Words.{text_of_word};

/// An atom that the language itself makes: a boolean, the reason of an end or of an error, the class of an exception,
/// or the tag of a term that reports one (Erlang reference manual, "Errors and Error Handling").
#[derive(Clone, Copy)]
pub enum Word {
    True,
    False,
    Normal,
    BadArgument,
    BadArithmetic,
    Undefined,
    FunctionClause,
    CaseClause,
    TimeoutValue,
    SystemLimit,
    ValueCount,
    Unbound,
    Error,
    Exit,
    Throw,
    NoCatch,
    ExitTag,
    TraceTag,
}

impl Word {
    /// The text of the atom.
    pub fn text(self) -> &'static str
        ensures { result.now ≡ text_of_word self }
    {
        match self {
            Word::True => "true",
            Word::False => "false",
            Word::Normal => "normal",
            Word::BadArgument => "badarg",
            Word::BadArithmetic => "badarith",
            Word::Undefined => "undef",
            Word::FunctionClause => "function_clause",
            Word::CaseClause => "case_clause",
            Word::TimeoutValue => "timeout_value",
            Word::SystemLimit => "system_limit",
            Word::ValueCount => "value_count",
            Word::Unbound => "unbound",
            Word::Error => "error",
            Word::Exit => "exit",
            Word::Throw => "throw",
            Word::NoCatch => "nocatch",
            Word::ExitTag => "EXIT",
            Word::TraceTag => "$trace",
        }
    }
}
