// What reading keeps in mind where it goes on past something that nothing serves.
ghost use Rattle.std.specs.Prelude.{◌≡◌};
ghost use Rattle.core_grammar.specs.inside.Decoder.{fault_of_unserved, place_of_unserved};

use core_tokens::ReadFault;

/// Something that was read whole and is not served, at its place.
#[derive(Clone, Copy)]
pub enum Unserved {
    /// A call of a function that nothing serves.
    Call(usize),
    /// A `primop` of a name that is not known.
    Primop(usize),
}

impl Unserved {
    /// Its place.
    pub fn place(self) -> usize
        ensures { result ≡ place_of_unserved self }
    {
        match self {
            Unserved::Call(at) | Unserved::Primop(at) => at,
        }
    }

    /// The fault that says so.
    pub fn fault(self) -> ReadFault
        ensures { result ≡ fault_of_unserved self }
    {
        match self {
            Unserved::Call(at) => ReadFault::UnsupportedCall(at),
            Unserved::Primop(at) => ReadFault::UnsupportedForm(at),
        }
    }
}
