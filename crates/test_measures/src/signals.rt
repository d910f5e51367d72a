// Channels and mailboxes of many messages.
use proc_signals::{Channels, Mailbox, Selector, Signal};
use std::alloc::{AllocError, Global};
use term_core::{Pid, Term};

// Takes one term.
#[derive(Drop)]
struct Wanted(Term);

impl Selector for Wanted {
    ghost use Rattle.std.specs.Ordering.{eq_by_cmp};
    ghost use Rattle.term_core.specs.Order.{order_of_terms};
    ghost use Rattle.term_core.specs.Term.{meaning_of};

    ghost takes = { λ w m. eq_by_cmp order_of_terms (meaning_of w.0) m };

    fn selects(&self, _alloc: Global, message: &Term) -> Result<bool, AllocError> {
        Ok(self.0 == *message)
    }
}

const RECEIVES: u32 = 10_000;

// The process that request `number` of the first process made.
fn pid(alloc: Global, number: u64) -> Result<Pid, AllocError> {
    let mut numbers = Vec::new(alloc);
    numbers.push(number)?;
    Pid::new(alloc, numbers)
}

// Sends so many messages from one process to another.
fn send_all(
    alloc: Global,
    channels: &mut Channels,
    from: &Pid,
    to: &Pid,
    size: u32,
) -> Result<(), AllocError> {
    for number in 0..size {
        let message = Signal::Message(Term::Int(i64::from(number)));
        channels.send(alloc, from, to, message)?;
    }
    Ok(())
}

/// Sends so many messages through one channel, and then takes them all.
pub(crate) fn send_through(alloc: Global, size: u32) -> Result<u32, AllocError> {
    let from = pid(alloc, 1)?;
    let to = pid(alloc, 2)?;
    let mut channels = Channels::new(alloc)?;
    send_all(alloc, &mut channels, &from, &to, size)?;
    let mut count: u32 = 0;
    for _ in 0..size {
        if channels.take_front(&from, &to)?.is_some() {
            count = count.saturating_add(1);
        }
    }
    Ok(count)
}

// A mailbox with so many messages.
fn filled(alloc: Global, size: u32) -> Result<Mailbox, AllocError> {
    let mut mailbox = Mailbox::new(alloc)?;
    for number in 0..size {
        mailbox.put(Term::Int(i64::from(number)))?;
    }
    Ok(mailbox)
}

// Puts the message after the others, and takes it past them.
fn receive(alloc: Global, mailbox: &mut Mailbox) -> Result<bool, AllocError> {
    mailbox.put(Term::Nil)?;
    match mailbox.find_match(alloc, &Wanted(Term::Nil))? {
        Some(place) => {
            mailbox.take_at(place)?;
            Ok(true)
        }
        None => Ok(false),
    }
}

/// Receives ten thousand messages, each past so many others.
pub(crate) fn receive_past(alloc: Global, size: u32) -> Result<u32, AllocError> {
    let mut mailbox = filled(alloc, size)?;
    let mut count: u32 = 0;
    for _ in 0..RECEIVES {
        if receive(alloc, &mut mailbox)? {
            count = count.saturating_add(1);
        }
    }
    Ok(count)
}
