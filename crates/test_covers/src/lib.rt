// Tests of covers: how the program checks them and writes them.
#![tactic(auto)]

#[cfg(test)]
mod checks;
#[cfg(test)]
mod excused;
#[cfg(test)]
mod streams;
#[cfg(test)]
mod written;
