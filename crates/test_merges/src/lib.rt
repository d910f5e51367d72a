// Tests of reports that are read back from their texts, and put together.
#![tactic(auto)]

#[cfg(test)]
mod bad_lines;
#[cfg(test)]
mod merging;
#[cfg(test)]
mod reading;
#[cfg(test)]
mod texts;
