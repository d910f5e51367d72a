// What `demonitor/2` and `process_flag/2` are asked for (the Erlang manual, module `erlang`).
ghost use Rattle.std.specs.Prelude.{◌≡◌, option_map};
ghost use Rattle.proc_calls.specs.Arguments.{flushes, traps};
ghost use Rattle.term_core.specs.Term.{meaning_of};
ghost use Rattle.world_model.specs.Calls.{flushes_of, flag_of};
ghost use Rattle.world_model.specs.Terms.{boolean_in};

use term_core::Term;

/// Whether the message of a watch that ends goes too.
#[derive(Clone, Copy, Debug, PartialEq, Eq)]
pub enum Flushing {
    /// It goes, if it is there.
    Flushes,
    /// It stays.
    Keeps,
}

/// What exit signals do to a process.
#[derive(Clone, Copy, Debug, PartialEq, Eq)]
pub enum Trapping {
    /// They become messages.
    Traps,
    /// They end it.
    Obeys,
}

impl Flushing {
    /// What the options of `demonitor/2` ask for, if they are a proper list in which each item is `flush` (erlang
    /// manual, `demonitor/2`). It takes no memory.
    pub fn of(options: &Term) -> Option<Flushing>
        ensures { option_map flushes result ≡ flushes_of (meaning_of options.now) }
    {
        let mut flushing = Flushing::Keeps;
        let mut rest = options;
        while let Some(pair) = rest.as_cell() {
            if !pair.head().is_the_atom("flush") {
                return None;
            }
            flushing = Flushing::Flushes;
            rest = pair.tail();
        }
        match rest {
            Term::Nil => Some(flushing),
            _ => None,
        }
    }
}

impl Trapping {
    // What a value of the flag asks for.
    fn of_value(value: &Term) -> Option<Trapping>
        ensures { option_map traps result ≡ boolean_in (meaning_of value.now) }
    {
        if value.is_the_atom("true") {
            return Some(Trapping::Traps);
        }
        if value.is_the_atom("false") {
            return Some(Trapping::Obeys);
        }
        None
    }

    /// What a flag and its value ask for, if the flag is `trap_exit` and the value `true` or `false` (erlang
    /// manual, `process_flag/2`). It takes no memory.
    pub fn of(flag: &Term, value: &Term) -> Option<Trapping>
        ensures { option_map traps result ≡ flag_of (meaning_of flag.now) (meaning_of value.now) }
    {
        if !flag.is_the_atom("trap_exit") {
            return None;
        }
        Trapping::of_value(value)
    }
}
