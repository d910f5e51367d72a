// Tests of what comes before a run: the words, and the lines of refusals.
#![tactic(auto)]

#[cfg(test)]
mod asked;
#[cfg(test)]
mod excusing_words;
#[cfg(test)]
mod other_words;
#[cfg(test)]
mod refusals;
#[cfg(test)]
mod words;
