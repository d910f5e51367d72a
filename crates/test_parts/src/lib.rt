// Tests of the parts of the explored world.
#![tactic(auto)]

#[cfg(test)]
mod ends;
#[cfg(test)]
mod guards;
#[cfg(test)]
mod links;
#[cfg(test)]
mod sameness;
#[cfg(test)]
mod signals;
#[cfg(test)]
mod table_rows;
