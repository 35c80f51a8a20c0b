//! Tests of single crates: of the parts of class files (`const_pool`, `annotations`, `bytecode`, `type_lists` and the bytes of `jmodel`), of the engines
//! (`tx_core`, `tx_table`, `tl2`, `lsa`) and of `claims`. They stand apart, so that those crates are proved once and not a second time with their tests.
#![tactic(auto)]

#[cfg(test)]
mod attempts;
#[cfg(test)]
mod bags;
#[cfg(test)]
mod code;
#[cfg(test)]
mod laying;
#[cfg(test)]
mod marks;
#[cfg(test)]
mod names;
#[cfg(test)]
mod pools;
#[cfg(test)]
mod solo;
#[cfg(test)]
mod tables;
#[cfg(test)]
mod types;
