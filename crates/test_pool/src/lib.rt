// Tests of the pool: the jobs that it begins with, tickets, pieces and ends that are strange, and pools that were stopped.
#![tactic(auto)]

#[cfg(test)]
mod hostile;
