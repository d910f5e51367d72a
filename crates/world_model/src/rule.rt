// The rules by which calls of tables are refused.

/// Why a call of a table is refused with `badarg`. Of all rules that fail the first is the one: the table
/// argument, what it finds, who may call, and then the other arguments from left to right (the Erlang
/// manual, module `ets`; the numbers are this project's own).
#[derive(Clone, Copy, Debug, PartialEq, Eq, PartialOrd, Ord, Hash)]
pub enum Rule {
    /// The table argument is neither an atom nor a reference.
    BadTable = 1,
    /// The table argument finds no table.
    NoTable = 2,
    /// Another process than the owner reads a private table.
    PrivateRead = 3,
    /// Another process than the owner writes a private table.
    PrivateWrite = 4,
    /// Another process than the owner writes a protected table.
    ProtectedWrite = 5,
    /// Another process than the owner calls what only the owner may.
    NotOwner = 6,
    /// The name of a new table is no atom.
    BadName = 7,
    /// The options are no proper list of options that are served.
    BadOption = 8,
    /// The name of a new named table is in use.
    NameTaken = 9,
    /// What is put in or taken out is no object, or a default is none.
    NotObject = 10,
    /// An object is too short to have a key.
    ShortObject = 11,
    /// A position is not a valid one, or is that of the key where it is to be written, or an object has no part there.
    BadPosition = 12,
    /// There is no object under the key, and no default.
    NoKey = 13,
    /// What is to be added, or what it is added to, is no integer.
    NotInteger = 14,
    /// The call is not for bags.
    BagRefused = 15,
    /// The new owner is no process that lives.
    DeadTarget = 16,
    /// The new owner is the owner.
    OwnTarget = 17,
    /// There is no such item.
    BadItem = 18,
    /// The sum has more than 64 bits.
    CounterRange = 19,
}
