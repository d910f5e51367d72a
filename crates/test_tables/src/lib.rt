// Tests of tables: what each call answers or by which rule it is refused, which rows it writes, who may call, and what an
// end leaves.
#![tactic(auto)]

#[cfg(test)]
mod calls;
#[cfg(test)]
mod lines;
#[cfg(test)]
mod owners;
#[cfg(test)]
mod refusals;
#[cfg(test)]
mod scene;
#[cfg(test)]
mod walks;
#[cfg(test)]
mod world;
#[cfg(test)]
mod written;
