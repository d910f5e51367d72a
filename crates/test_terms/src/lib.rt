// Tests of terms, steps, schedules and streams, and of what the pure calls give.
#![tactic(auto)]

#[cfg(test)]
mod large_terms;
#[cfg(test)]
mod own_calls;
#[cfg(test)]
mod schedules;
#[cfg(test)]
mod shared_terms;
#[cfg(test)]
mod streams;
#[cfg(test)]
mod term_order;
#[cfg(test)]
mod term_reading;
#[cfg(test)]
mod term_words;
#[cfg(test)]
mod terms;
#[cfg(test)]
mod tuple_parts;
