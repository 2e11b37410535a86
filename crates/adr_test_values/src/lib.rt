//! Tests of what no clause tells and no schedule comes to: words, images, packets and the bodies of records against values from
//! outside (bytes of the formats, spellings, the schema's table, crash images), readers, writers and files, and calls at
//! their limits (replies that are cut by their bytes, vectors with too many cursors, the last version and the last USN).
#![tactic(auto)]

#[cfg(test)]
mod cuts;
#[cfg(test)]
mod full_vectors;
#[cfg(test)]
mod holding;
#[cfg(test)]
mod hostile;
#[cfg(test)]
mod images;
#[cfg(test)]
mod json;
#[cfg(test)]
mod messages;
#[cfg(test)]
mod packets;
#[cfg(test)]
mod words;
#[cfg(test)]
mod writes;
