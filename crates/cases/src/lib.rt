// Tests that are many, in a crate of their own: a crate with tests is proved twice.
#![tactic(auto)]

#[cfg(test)]
mod files;
#[cfg(test)]
mod lattices;
#[cfg(test)]
mod lattices_by_table;
#[cfg(test)]
mod links;
#[cfg(test)]
mod links_by_table;
#[cfg(test)]
mod one_by_one;
#[cfg(test)]
mod piles;
#[cfg(test)]
mod piles_by_table;
#[cfg(test)]
mod prices;
#[cfg(test)]
mod table;
