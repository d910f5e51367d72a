// What aliases and timers are asked for (the Erlang manual, module `erlang`).
ghost use Rattle.std.specs.Prelude.{◌≡◌, Some, map};
ghost use Rattle.term_core.specs.Term.{meaning_of};
ghost use Rattle.world_model.specs.Calls.{alias_of, end_alone, end_beside, end_of, end_watched, time_of};
ghost use Rattle.world_model.specs.Terms.{parts_in};

use term_core::Term;
use world_model::alias::AliasEnd;

/// What the message of a timer is.
#[derive(Clone, Copy, Debug, PartialEq, Eq)]
pub enum Naming {
    /// A tuple with the reference of the timer.
    Named,
    /// The message as it was given.
    Bare,
}

// What an option of `alias/1` asks for.
fn end_alone(option: &Term) -> Option<AliasEnd>
    ensures { result ≡ end_alone (meaning_of option.now) }
{
    if option.is_the_atom("explicit_unalias") {
        return Some(AliasEnd::ByUnalias);
    }
    if option.is_the_atom("reply") {
        return Some(AliasEnd::ByReply);
    }
    None
}

/// What the options of `alias/1` ask for, if they are a proper list of `explicit_unalias` and `reply`; the last of
/// them counts (erlang manual, `alias/1`). It takes no memory.
pub(crate) fn end_in(options: &Term) -> Option<AliasEnd>
    ensures { result ≡ end_of (meaning_of options.now) }
{
    let mut end = AliasEnd::ByUnalias;
    let mut rest = options;
    while let Some(pair) = rest.as_cell() {
        end = end_alone(pair.head())?;
        rest = pair.tail();
    }
    match rest {
        Term::Nil => Some(end),
        _ => None,
    }
}

// How an alias is to end that is made with a watch.
fn end_watched(how: &Term) -> Option<AliasEnd>
    ensures { result ≡ end_watched (meaning_of how.now) }
{
    if how.is_the_atom("explicit_unalias") {
        return Some(AliasEnd::ByUnalias);
    }
    if how.is_the_atom("demonitor") {
        return Some(AliasEnd::WithWatch);
    }
    if how.is_the_atom("reply_demonitor") {
        return Some(AliasEnd::ByReply);
    }
    None
}

// What parts ask for that are two, the first of them `alias`.
#[tactic(auto, using(crate::proofs::Arities::of_two, crate::proofs::Arities::not_two))]
fn end_named(parts: &[Term]) -> Option<AliasEnd>
    ensures { result ≡ end_beside (Some (map meaning_of parts.now)) }
{
    if parts.len() != 2 {
        return None;
    }
    if parts[0].is_the_atom("alias") {
        return end_watched(&parts[1]);
    }
    None
}

// What an option of `monitor/3` asks for.
fn end_beside(option: &Term) -> Option<AliasEnd>
    ensures { result ≡ end_beside (parts_in (meaning_of option.now)) }
{
    match option {
        Term::Tuple(parts) => end_named(parts.as_slice()),
        _ => None,
    }
}

/// Which alias the options of `monitor/3` ask for, if they are a proper list of pairs `{alias,How}`; the last of
/// them counts, and with none there is no alias (erlang manual, `monitor/3`). It takes no memory.
pub(crate) fn alias_in(options: &Term) -> Option<Option<AliasEnd>>
    ensures { result ≡ alias_of (meaning_of options.now) }
{
    let mut alias = None;
    let mut rest = options;
    while let Some(pair) = rest.as_cell() {
        alias = Some(end_beside(pair.head())?);
        rest = pair.tail();
    }
    match rest {
        Term::Nil => Some(alias),
        _ => None,
    }
}

/// The time that a term is, in milliseconds, if it is an integer from 0 on. It takes no memory.
pub(crate) fn time_in(term: &Term) -> Option<i64>
    ensures { result ≡ time_of (meaning_of term.now) }
{
    match term {
        Term::Int(time) if *time >= 0 => Some(*time),
        _ => None,
    }
}
