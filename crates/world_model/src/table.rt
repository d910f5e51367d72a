// What tables are of, and who may use them.

/// How many objects a table keeps under a key, and how walks go (the Erlang manual, `ets:new/2`).
#[derive(Clone, Copy, Debug, PartialEq, Eq)]
pub enum Kind {
    /// One object under each key.
    Set,
    /// One object under each key, and walks in the order of keys.
    OrderedSet,
    /// Several objects under a key, each once.
    Bag,
    /// Several objects under a key, each as often as it was put in.
    DuplicateBag,
}

/// Who but the owner may read and write a table (the Erlang manual, `ets:new/2`).
#[derive(Clone, Copy, Debug, PartialEq, Eq)]
pub enum Protection {
    /// Every process reads and writes it.
    Public,
    /// Every process reads it.
    Protected,
    /// No other process uses it.
    Private,
}

/// What a call does with a table, which determines who may call.
#[derive(Clone, Copy, Debug, PartialEq, Eq)]
pub enum Class {
    /// It reads objects.
    Read,
    /// It writes objects.
    Write,
    /// It is for the owner alone.
    Owners,
    /// It is for every process.
    Open,
}

/// What `ets:info/2` says about a table.
#[derive(Clone, Copy, Debug, PartialEq, Eq)]
pub enum Item {
    /// The name with which it was made.
    Name,
    /// Its kind.
    Type,
    /// Its protection.
    Protection,
    /// Its owner.
    Owner,
    /// How many objects it has.
    Size,
    /// The position of its keys.
    Position,
    /// Its heir.
    Heir,
    /// Whether it is found by its name.
    NamedTable,
}
