// Tests of what modules do: the requests of one process.
#![tactic(auto)]

#[cfg(test)]
mod evaluation;
#[cfg(test)]
mod requests;
