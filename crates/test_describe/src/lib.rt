//! Tests of dumps that are read and of machines that are got back, as far as no command shows it: each public call, the greatest dump, and
//! inventories made by hand. What a command shows is told by cases, in the files `dump_..` and `decode_..` of `run_cases`.
#![tactic(auto)]

#[cfg(test)]
mod dumps_again;
#[cfg(test)]
mod got_back;
#[cfg(test)]
mod greatest_dump;
#[cfg(test)]
mod made_inventories;
