// Tests of the reader: which texts are modules, the first fault of each other text, when two modules are the
// same, and that a copy is the same.
#![tactic(auto)]

#[cfg(test)]
mod calls;
#[cfg(test)]
mod copies;
#[cfg(test)]
mod language;
#[cfg(test)]
mod module_texts;
#[cfg(test)]
mod module_tokens;
#[cfg(test)]
mod receives;
#[cfg(test)]
mod scopes;
#[cfg(test)]
mod texts;
#[cfg(test)]
mod tokens;
#[cfg(test)]
mod trees;
