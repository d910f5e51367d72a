// How calls are named, and with how many arguments.
ghost use Rattle.std.specs.Prelude.{◌≡◌};
ghost use Rattle.core_calls.specs.Calls.{process_call, table_call, has_signature};
ghost use Rattle.core_calls.specs.PureCalls.{list_call};
ghost use Rattle.core_calls.specs.inside.Signatures.{signature_of};

// The names of a call's module and function, and the number of its arguments (Erlang reference manual, modules
// `erlang`, `ets` and `lists`).
#[derive(Clone, Copy)]
pub(crate) struct Signature {
    // The name of the module: `erlang`, `ets` or `lists`.
    pub module_name: &'static str,
    // The name of the function, as `insert`.
    pub function_name: &'static str,
    // The number of the arguments, 0 to 4.
    pub arity: usize,
}

// A call of the module `erlang`.
pub(crate) fn process_call(function_name: &'static str, arity: usize) -> Signature
    ensures { signature_of result ≡ process_call function_name.now arity }
{
    Signature {
        module_name: "erlang",
        function_name,
        arity,
    }
}

// A call of the module `ets`.
pub(crate) fn table_call(function_name: &'static str, arity: usize) -> Signature
    ensures { signature_of result ≡ table_call function_name.now arity }
{
    Signature {
        module_name: "ets",
        function_name,
        arity,
    }
}

// A call of the module `lists`.
pub(crate) fn list_call(function_name: &'static str, arity: usize) -> Signature
    ensures { signature_of result ≡ list_call function_name.now arity }
{
    Signature {
        module_name: "lists",
        function_name,
        arity,
    }
}

impl Signature {
    // Whether it has these names and so many arguments.
    pub(crate) fn is_of(self, module_name: &str, function_name: &str, arity: usize) -> bool
        ensures { result ≡ has_signature module_name.now function_name.now arity (signature_of self) }
    {
        self.module_name == module_name
            && self.function_name == function_name
            && self.arity == arity
    }
}
