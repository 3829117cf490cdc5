//! Tests of `captures`, `findings` and `lagtool_capture`: they read captures that are written by hand from the descriptions of the
//! formats, explain captures that `captures` writes, and find by frames of two links what the sections of IEEE 802.1AX-2014 say.
//! They are a crate of their own, so that none of these need be proved again together with its tests.
#![tactic(auto)]

#[cfg(test)]
mod given;
#[cfg(test)]
mod links;
#[cfg(test)]
mod of_captures;
#[cfg(test)]
mod of_ends;
#[cfg(test)]
mod of_explained;
#[cfg(test)]
mod of_found;
#[cfg(test)]
mod of_links;
