// The items that a process may ask about a table (ets manual, `info/2`).
ghost use Rattle.std.specs.Prelude.{◌≡◌};
ghost use Rattle.term_core.specs.Term.{meaning_of};
ghost use Rattle.world_model.specs.Calls.{item_of, known_items};
ghost use Rattle.world_model.specs.Tables.{found_beside};

use term_core::Term;
use world_model::table::Item;

// The item of this name.
fn named_item(name: &str) -> Option<Item>
    ensures { result ≡ found_beside name.now known_items }
{
    match name {
        "owner" => Some(Item::Owner),
        "heir" => Some(Item::Heir),
        "name" => Some(Item::Name),
        "size" => Some(Item::Size),
        "named_table" => Some(Item::NamedTable),
        "type" => Some(Item::Type),
        "keypos" => Some(Item::Position),
        "protection" => Some(Item::Protection),
        _ => None,
    }
}

/// The item that a term names, if it is the atom of one (ets manual, `info/2`). It takes no memory.
pub fn item_of(term: &Term) -> Option<Item>
    ensures { result ≡ item_of (meaning_of term.now) }
{
    match term {
        Term::Atom(name) => named_item(name.as_str()),
        _ => None,
    }
}
