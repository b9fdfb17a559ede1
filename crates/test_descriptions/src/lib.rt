//! Tests of the reader of descriptions: what each key is read as, with each of its faults, and the fields of faults; and of schemas and the
//! walk of a document by one: each kind of value, each fault at each kind of place, and the names of keys. What a command shows of
//! descriptions is told by cases, in the files `description_..` of `run_cases`.
#![tactic(auto)]

#[cfg(test)]
mod changed;
#[cfg(test)]
mod each_key;
#[cfg(test)]
mod every_key;
#[cfg(test)]
mod fields;
#[cfg(test)]
mod key_names;
#[cfg(test)]
mod keys;
#[cfg(test)]
mod schema;
#[cfg(test)]
mod taken_values;
#[cfg(test)]
mod told;
#[cfg(test)]
mod walk_faults;
#[cfg(test)]
mod walked;
#[cfg(test)]
mod walked_values;
