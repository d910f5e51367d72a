// Tests of the lines of events, of explained reports, of reports in which errors are excused, of reports of states and of
// random schedules, and of reports as terms.
#![tactic(auto)]

#[cfg(test)]
mod excused;
#[cfg(test)]
mod explained;
#[cfg(test)]
mod samples;
#[cfg(test)]
mod states;
#[cfg(test)]
mod terms;
#[cfg(test)]
mod terms_sample;
#[cfg(test)]
mod transcript;
