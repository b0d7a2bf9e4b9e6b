//! What no case of a file says: calls at each type of numbers, flatbuffers that are built, pieces of bytes, items that are selected,
//! records, a file as a disk, the program's objects over readers, writers and a folder, and the texts of errors. All of it is tests.
#![tactic(auto)]

#[cfg(test)]
mod adapters;
#[cfg(test)]
mod error_texts;
#[cfg(test)]
mod files;
#[cfg(test)]
mod flatbuffers;
#[cfg(test)]
mod folders;
#[cfg(test)]
mod numbers;
#[cfg(test)]
mod parts;
#[cfg(test)]
mod records;
