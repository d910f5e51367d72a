// The machine of one process.
ghost use Rattle.std.specs.Prelude.{◌≡◌, ◌∷◌, true, false, List, IfOk, OnOk, OnErr, IsErr, option_map};
ghost use Rattle.core_semantics.specs.Ask.{ask, entry};
ghost use Rattle.core_semantics.specs.Asked.{Answered};
ghost use Rattle.core_eval.specs.Requests.{told_by, answered_of};
ghost use Rattle.core_eval.specs.Standing.{AreOne, StandsAt, after, is_spent, module_in, stands_at};
ghost use Rattle.core_eval.specs.Told.{is_selected, told};
ghost use Rattle.core_eval.specs.inside.Steps.{stands_in};
ghost use Rattle.term_core.specs.Term.{meaning_of};

use crate::entry::{begin, first_definition};
use crate::receiving::take;
use crate::request::{Answer, Request};
use crate::run::run;
use crate::selection::selects;
use core_pure_calls::Dictionary;
use core_stack::Stack;
use core_tree::{Module, Receive};
use std::alloc::{AllocError, Global};
use std::hash::Hasher;
use std::marker::Model;
use term_core::{Atom, Pid, Term, Terms};

/// A process of a module, which waits at a request. Contracts see where it waits: `after` of it says what it asks after
/// any further answers, and `is_spent` whether memory ran out in `resume`.
pub struct Machine<'m> {
    program: &'m Module,
    pid: Pid,
    stack: Stack<'m>,
    dictionary: Dictionary,
    request: Request,
    is_spent: bool,
}

// Dropped by a call, so that no crate above proves again how.
impl Drop for Machine<'_> {
    fn drop(self) {
        let Machine {
            program: _,
            pid: _,
            stack: _,
            dictionary: _,
            request: _,
            is_spent: _,
        } = self;
    }
}

impl<'m> Model for Machine<'m> {
    ghost use Rattle.core_eval.specs.Standing.{Standing, coded_standing};

    ghost Value = { Standing };

    ghost coded = { coded_standing };

    ghost use Rattle.core_eval.specs.Requests.{told_by};

    ghost view = { λ m. record {
      program = m.program.now;
      own = m.pid;
      holes = m.stack;
      dictionary = m.dictionary;
      told = told_by m.request;
      spent = m.is_spent;
    } };
}

/// The process `pid` of the module, run to its first request: it begins with the function `function_name` of the module
/// `module_name`, applied to the arguments (the dynamic semantics of Core Erlang 1.0.3; the Erlang manual,
/// `erlang:spawn/3`), with an empty dictionary. Where these name no function that the module exports, it is at the end
/// `{'undef',[]}`; the first process may begin with any function of the module, and is to begin with `main/0`. The
/// arguments and the pid are taken over; the machine holds on to the module. `AllocError` if there is no memory for it.
pub fn start<'m>(
    alloc: Global,
    program: &'m Module,
    pid: Pid,
    module_name: &Atom,
    function_name: &Atom,
    arguments: Terms,
) -> Result<Machine<'m>, AllocError>
    ensures stands { IfOk result (λ machine.
        StandsAt machine (ask program.now pid (entry module_name.now function_name.now arguments))) }
    ensures program { IfOk result (λ machine. module_in machine ≡ program.now) }
{
    let mut stack = Stack::new(alloc);
    let found = first_definition(program, &pid, module_name, function_name, &arguments)?;
    let control = begin(alloc, &mut stack, found, arguments)?;
    let mut dictionary = Dictionary::new();
    let request = run(alloc, program, &pid, &mut stack, &mut dictionary, control)?;
    stack.settle(alloc)?;
    Ok(Machine {
        program,
        pid,
        stack,
        dictionary,
        request,
        is_spent: false,
    })
}

impl<'m> Machine<'m> {
    /// The request that it waits at. It takes no memory. On a spent machine this is the last request, whose answer was
    /// lost.
    pub fn request(&self) -> &Request
        ensures { told_by result.now ≡ told (stands_at self.now) }
    {
        &self.request
    }

    /// Runs on with an answer to the next request or the end. An answer that does not fit the request changes nothing,
    /// and neither does any answer at an end. `AllocError` if there is no memory for it, and then the machine is spent:
    /// from then on `resume` and `copy` answer `AllocError`.
    pub fn resume(&mut self, alloc: Global, answer: Answer) -> Result<(), AllocError>
        ensures goes_on { OnOk result ((later : List Answered) →
            after self.new later ≡ after self.old (answered_of answer ∷ later)) }
        ensures lives { OnOk result (is_spent self.new ≡ false) }
        ensures program { OnOk result (module_in self.new ≡ module_in self.old) }
        ensures spent { OnErr result (is_spent self.new ≡ true) }
        ensures stays_spent { is_spent self.old ≡ true → IsErr result }
    {
        if self.is_spent {
            return Err(AllocError);
        }
        self.is_spent = true;
        let Some(control) = take(alloc, &mut self.stack, &self.request, answer)? else {
            self.is_spent = false;
            return Ok(());
        };
        self.request = run(
            alloc,
            self.program,
            &self.pid,
            &mut self.stack,
            &mut self.dictionary,
            control,
        )?;
        self.stack.settle(alloc)?;
        self.is_spent = false;
        Ok(())
    }

    /// Whether the request takes this message: it is a receive, and one of its clauses matches the message and
    /// has a guard that gives `'true'` (Core Erlang 1.0.3, "Receive"). A guard that raises, or gives anything
    /// else, does not hold. `AllocError` if there is no memory for it or the machine is spent; the machine is
    /// unchanged.
    pub fn selects(&self, alloc: Global, message: &Term) -> Result<bool, AllocError>
        ensures selected { IfOk result (λ selected. selected ≡ is_selected (stands_at self.now) (meaning_of message.now)) }
        ensures spent { is_spent self.now ≡ true → IsErr result }
    {
        if self.is_spent {
            return Err(AllocError);
        }
        match self.receive() {
            Some(receive) => {
                let clauses = receive.clauses.0.as_slice();
                selects(alloc, &self.pid, &self.stack, clauses, message)
            }
            None => Ok(false),
        }
    }

    // The receive that it waits at.
    fn receive(&self) -> Option<&'m Receive>
        ensures { option_map (λ receive. receive.now.1) result ≡ stands_in self.now.holes self.now.told }
    {
        match &self.request {
            Request::Receive { waits: _ } => self.stack.receive(),
            Request::Call(_, _) | Request::End(_) | Request::Runaway => None,
        }
    }

    /// Whether two machines of one module wait at the same request with the same left to do and the same dictionary,
    /// wherever their code is in the text. It takes no memory. No machine is the same as one that is spent.
    pub fn is_same(&self, other: &Machine<'_>) -> bool
        ensures { result ≡ true → module_in self.now ≡ module_in other.now → AreOne self.now other.now }
    {
        if self.is_spent {
            return false;
        }
        if other.is_spent {
            return false;
        }
        if self.pid != other.pid {
            return false;
        }
        if !self.request.is_same(&other.request) {
            return false;
        }
        if !self.dictionary.is_same(&other.dictionary) {
            return false;
        }
        self.stack.is_same(&other.stack)
    }

    /// Feeds a hasher with the request, the dictionary and what is left to do: the same for machines that are the same. It takes no
    /// memory.
    pub fn feed<H: Hasher>(&self, state: &mut H) {
        self.request.feed(state);
        self.dictionary.feed(state);
        self.stack.feed(state);
    }

    /// The same machine, or `AllocError` if there is no memory for it or the machine is spent. The two
    /// share their frames, the dictionary and the request: a copy takes one step however deep the stack is.
    pub fn copy(&self, alloc: Global) -> Result<Machine<'m>, AllocError>
        ensures same { IfOk result (λ copied. copied ≡ self.now) }
        ensures spent { is_spent self.now ≡ true → IsErr result }
    {
        if self.is_spent {
            return Err(AllocError);
        }
        Ok(Machine {
            program: self.program,
            pid: self.pid.copy()?,
            stack: self.stack.copy(alloc)?,
            dictionary: self.dictionary.copy()?,
            request: self.request.copy()?,
            is_spent: false,
        })
    }
}
