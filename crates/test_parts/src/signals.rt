// Channels and mailboxes: many signals, what copies share, and what is taken out of the middle.
ghost use Rattle.std.specs.Prelude.{◌≡◌};

use proc_signals::{Channels, Mailbox, Selector, Signal};
use std::alloc::{AllocError, Global};
use std::test::Fail;
use term_core::{Pid, RefId, Term, Terms};

const TEN_THOUSAND: i64 = 10_000;

// The process that request `number` of the first process made.
fn pid(alloc: Global, number: u64) -> Result<Pid, AllocError> {
    let mut numbers = Vec::new(alloc);
    numbers.push(number)?;
    Pid::new(alloc, numbers)
}

// Sends the numbers from 0 to below `count`.
fn send_numbers(
    alloc: Global,
    channels: &mut Channels,
    from: &Pid,
    to: &Pid,
    count: i64,
) -> Result<(), AllocError> {
    for number in 0..count {
        channels.send(alloc, from, to, Signal::Message(Term::Int(number)))?;
    }
    Ok(())
}

// Whether a signal is the message of this number.
fn is_message(signal: &Signal, number: i64) -> bool {
    match signal {
        Signal::Message(message) => *message == Term::Int(number),
        _ => false,
    }
}

// Whether the next signal is the message of this number.
fn takes(channels: &mut Channels, from: &Pid, to: &Pid, number: i64) -> Result<bool, AllocError> {
    match channels.take_front(from, to)? {
        Some(signal) => Ok(is_message(&signal, number)),
        None => Ok(false),
    }
}

// Whether the numbers from 0 to below `count` come in order, and nothing after them.
fn takes_numbers(
    channels: &mut Channels,
    from: &Pid,
    to: &Pid,
    count: i64,
) -> Result<bool, AllocError> {
    for number in 0..count {
        if !takes(channels, from, to, number)? {
            return Ok(false);
        }
    }
    Ok(channels.front(from, to).is_none())
}

// Ten thousand signals go through a copy of the channels; the channels that were copied keep their one.
fn sends_through_a_copy(alloc: Global, from: &Pid, to: &Pid) -> Result<bool, AllocError> {
    let mut channels = Channels::new(alloc)?;
    send_numbers(alloc, &mut channels, from, to, 1)?;
    let mut copied = channels.copy()?;
    let first = takes(&mut copied, from, to, 0)?;
    send_numbers(alloc, &mut copied, from, to, TEN_THOUSAND)?;
    let copied_in_order = takes_numbers(&mut copied, from, to, TEN_THOUSAND)?;
    let kept = takes_numbers(&mut channels, from, to, 1)?;
    Ok(first && copied_in_order && kept)
}

#[test]
fn ten_thousand_signals_come_in_order(rt: HostRuntime) -> Result<(), Fail> {
    let from = pid(rt.alloc(), 1)?;
    let to = pid(rt.alloc(), 2)?;
    assert!(rt; sends_through_a_copy(rt.alloc(), &from, &to)?);
    Ok(())
}

// Whether the signal before these messages is an exit, that of a link, or that of this watch.
fn keeps_kinds(
    alloc: Global,
    channels: &mut Channels,
    pid: &Pid,
    reference: &RefId,
) -> Result<bool, AllocError> {
    channels.send(alloc, pid, pid, Signal::Exit(Term::Int(1)))?;
    channels.send(alloc, pid, pid, Signal::LinkExit(Term::Int(2)))?;
    let down = Signal::Down(reference.copy()?, Term::Int(3));
    channels.send(alloc, pid, pid, down.copy()?)?;
    let copied = channels.copy()?;
    let exit = matches!(channels.take_front(pid, pid)?, Some(Signal::Exit(_)));
    let link = matches!(channels.take_front(pid, pid)?, Some(Signal::LinkExit(_)));
    let down = matches!(channels.front(pid, pid), Some(Signal::Down(_, _)));
    Ok(exit && link && down && matches!(copied.front(pid, pid), Some(Signal::Exit(_))))
}

#[test]
fn signals_keep_their_kinds(rt: HostRuntime) -> Result<(), Fail> {
    let mut channels = Channels::new(rt.alloc())?;
    let own = pid(rt.alloc(), 1)?;
    let reference = RefId::new(rt.alloc(), own.copy()?, 4)?;
    assert!(rt; keeps_kinds(rt.alloc(), &mut channels, &own, &reference)?);
    Ok(())
}

// Whether these are the pairs of the numbers of processes, one after the other.
fn are_pairs(
    alloc: Global,
    pairs: &[(Pid, Pid)],
    numbers: &[(u64, u64)],
) -> Result<bool, AllocError> {
    for ((from, to), (s, r)) in pairs.iter().zip(numbers) {
        if *from != pid(alloc, *s)? || *to != pid(alloc, *r)? {
            return Ok(false);
        }
    }
    Ok(pairs.len() == numbers.len())
}

// Sends a number between each two of these processes.
fn send_along(
    alloc: Global,
    channels: &mut Channels,
    numbers: &[(u64, u64)],
) -> Result<(), AllocError> {
    for (s, r) in numbers {
        send_numbers(alloc, channels, &pid(alloc, *s)?, &pid(alloc, *r)?, 1)?;
    }
    Ok(())
}

const SENT: [(u64, u64); 5] = [(3, 1), (1, 2), (2, 9), (1, 1), (3, 1)];

const LISTED: [(u64, u64); 4] = [(1, 1), (1, 2), (2, 9), (3, 1)];

const LEFT: [(u64, u64); 3] = [(1, 1), (1, 2), (3, 1)];

#[test]
fn pairs_are_listed_in_order(rt: HostRuntime) -> Result<(), Fail> {
    let mut channels = Channels::new(rt.alloc())?;
    send_along(rt.alloc(), &mut channels, &SENT)?;
    let pairs = channels.pairs(rt.alloc())?;
    assert!(rt; are_pairs(rt.alloc(), pairs.as_slice(), &LISTED)?);
    let from = pid(rt.alloc(), 2)?;
    let to = pid(rt.alloc(), 9)?;
    assert!(rt; takes_numbers(&mut channels, &from, &to, 1)?);
    let left = channels.pairs(rt.alloc())?;
    assert!(rt; are_pairs(rt.alloc(), left.as_slice(), &LEFT)?);
    Ok(())
}

// Whether one number comes between each two of these processes, and nothing after it.
fn takes_along(
    alloc: Global,
    channels: &mut Channels,
    numbers: &[(u64, u64)],
) -> Result<bool, AllocError> {
    for (s, r) in numbers {
        if !takes_numbers(channels, &pid(alloc, *s)?, &pid(alloc, *r)?, 1)? {
            return Ok(false);
        }
    }
    Ok(true)
}

// More channels than are looked through from the front.
const MANY_SENT: [(u64, u64); 12] = [
    (6, 1),
    (2, 3),
    (9, 9),
    (1, 4),
    (4, 2),
    (7, 7),
    (3, 1),
    (8, 2),
    (1, 1),
    (5, 5),
    (2, 1),
    (6, 3),
];

const MANY_LISTED: [(u64, u64); 12] = [
    (1, 1),
    (1, 4),
    (2, 1),
    (2, 3),
    (3, 1),
    (4, 2),
    (5, 5),
    (6, 1),
    (6, 3),
    (7, 7),
    (8, 2),
    (9, 9),
];

#[test]
fn each_of_many_channels_is_found(rt: HostRuntime) -> Result<(), Fail> {
    let mut channels = Channels::new(rt.alloc())?;
    send_along(rt.alloc(), &mut channels, &MANY_SENT)?;
    let pairs = channels.pairs(rt.alloc())?;
    assert!(rt; are_pairs(rt.alloc(), pairs.as_slice(), &MANY_LISTED)?);
    let from = pid(rt.alloc(), 3)?;
    let to = pid(rt.alloc(), 2)?;
    assert!(rt; channels.front(&from, &to).is_none());
    assert!(rt; takes_along(rt.alloc(), &mut channels, &MANY_SENT)?);
    let left = channels.pairs(rt.alloc())?;
    assert!(rt; left.as_slice().is_empty());
    Ok(())
}

// Whether the signals of three pairs are those of other channels once they are taken over, and another pair keeps its own.
// The other channels stay as they are when those are taken out.
fn takes_over(
    alloc: Global,
    channels: &mut Channels,
    other: &Channels,
) -> Result<bool, AllocError> {
    let first = pid(alloc, 1)?;
    let second = pid(alloc, 2)?;
    let third = pid(alloc, 3)?;
    channels.take_from(&first, &second, other)?;
    channels.take_from(&second, &first, other)?;
    channels.take_from(&first, &third, other)?;
    let taken = takes_numbers(channels, &first, &second, 3)?;
    let begun = takes_numbers(channels, &second, &first, 2)?;
    let emptied = channels.front(&first, &third).is_none();
    let stays = takes_numbers(channels, &third, &first, 1)?;
    let kept = other.front(&first, &second).is_some() && other.front(&third, &first).is_none();
    Ok(taken && begun && emptied && stays && kept)
}

#[test]
fn signals_of_a_pair_are_taken_over(rt: HostRuntime) -> Result<(), Fail> {
    let mut channels = Channels::new(rt.alloc())?;
    send_along(rt.alloc(), &mut channels, &[(1, 2), (1, 3), (3, 1)])?;
    let mut other = Channels::new(rt.alloc())?;
    let first = pid(rt.alloc(), 1)?;
    let second = pid(rt.alloc(), 2)?;
    send_numbers(rt.alloc(), &mut other, &first, &second, 3)?;
    send_numbers(rt.alloc(), &mut other, &second, &first, 2)?;
    assert!(rt; takes_over(rt.alloc(), &mut channels, &other)?);
    Ok(())
}

// Takes one term.
#[derive(Drop)]
struct Wanted(Term);

impl Selector for Wanted {
    ghost use Rattle.std.specs.Ordering.{eq_by_cmp};
    ghost use Rattle.term_core.specs.Order.{order_of_terms};
    ghost use Rattle.term_core.specs.Term.{meaning_of};

    ghost takes = { λ w m. eq_by_cmp order_of_terms (meaning_of w.0) m };

    fn selects(&self, _alloc: Global, message: &Term) -> Result<bool, AllocError> {
        Ok(self.0 == *message)
    }
}

// Puts the numbers from 0 to below `count` into a mailbox.
fn put_numbers(mailbox: &mut Mailbox, count: i64) -> Result<(), AllocError> {
    for number in 0..count {
        mailbox.put(Term::Int(number))?;
    }
    Ok(())
}

// Where the oldest message is of this number, and how many there are once it is taken out.
fn receive(
    alloc: Global,
    mailbox: &mut Mailbox,
    number: i64,
) -> Result<Option<(usize, usize)>, AllocError> {
    let Some(place) = mailbox.find_match(alloc, &Wanted(Term::Int(number)))? else {
        return Ok(None);
    };
    let message = mailbox.take_at(place)?;
    if message != Term::Int(number) {
        return Ok(None);
    }
    Ok(Some((place, mailbox.len())))
}

#[test]
fn a_message_is_selected_past_a_thousand_others(rt: HostRuntime) -> Result<(), Fail> {
    let mut mailbox = Mailbox::new(rt.alloc())?;
    put_numbers(&mut mailbox, 1_000)?;
    put_numbers(&mut mailbox, 1_002)?;
    let copied = mailbox.copy()?;
    assert!(rt; receive(rt.alloc(), &mut mailbox, 1_001)? == Some((2_001, 2_001)));
    assert!(rt; receive(rt.alloc(), &mut mailbox, 7)? == Some((7, 2_000)));
    assert!(rt; receive(rt.alloc(), &mut mailbox, 7)? == Some((1_006, 1_999)));
    assert!(rt; receive(rt.alloc(), &mut mailbox, 7)?.is_none());
    assert!(rt; copied.len() == 2_002);
    Ok(())
}

// Whether ten thousand messages that are received in order come in order.
fn receives_in_order(alloc: Global, mailbox: &mut Mailbox) -> Result<bool, AllocError> {
    for number in 0..TEN_THOUSAND {
        let Some((place, _left)) = receive(alloc, mailbox, number)? else {
            return Ok(false);
        };
        if place != 0 {
            return Ok(false);
        }
    }
    Ok(mailbox.len() == 0)
}

#[test]
fn ten_thousand_messages_are_received(rt: HostRuntime) -> Result<(), Fail> {
    let mut mailbox = Mailbox::new(rt.alloc())?;
    put_numbers(&mut mailbox, TEN_THOUSAND)?;
    assert!(rt; receives_in_order(rt.alloc(), &mut mailbox)?);
    Ok(())
}

// A tuple of so many parts, the second of them this reference.
fn tuple(alloc: Global, count: u64, reference: &RefId) -> Result<Term, AllocError> {
    let mut parts = Terms::new(alloc);
    parts.push(Term::Nil)?;
    parts.push(Term::Ref(reference.copy()?))?;
    for _ in 2..count {
        parts.push(Term::Nil)?;
    }
    Term::tuple(alloc, parts)
}

// Whether this message is a tuple of five.
fn is_of_five(message: Option<&Term>) -> bool {
    match message {
        Some(Term::Tuple(parts)) => parts.len() == 5,
        _ => false,
    }
}

// Whether only the first tuple of five with the reference is flushed.
fn flushes(alloc: Global, own: &RefId, other: &RefId) -> Result<bool, AllocError> {
    let mut mailbox = Mailbox::new(alloc)?;
    mailbox.put(tuple(alloc, 4, own)?)?;
    mailbox.put(tuple(alloc, 5, other)?)?;
    mailbox.put(tuple(alloc, 5, own)?)?;
    mailbox.put(tuple(alloc, 6, own)?)?;
    let was_there = mailbox.down(own).is_some() && mailbox.down(other).is_some();
    mailbox.flush_down(own)?;
    let flushed = mailbox.len() == 3 && is_of_five(mailbox.get(1)) && !is_of_five(mailbox.get(2));
    let is_told = was_there && mailbox.down(own).is_none() && mailbox.down(other).is_some();
    mailbox.flush_down(own)?;
    Ok(flushed && is_told && mailbox.len() == 3)
}

#[test]
fn the_message_of_a_watch_is_flushed(rt: HostRuntime) -> Result<(), Fail> {
    let process = pid(rt.alloc(), 1)?;
    let own = RefId::new(rt.alloc(), process.copy()?, 5)?;
    let other = RefId::new(rt.alloc(), process, 6)?;
    assert!(rt; flushes(rt.alloc(), &own, &other)?);
    Ok(())
}
