//! What holds of books, kind by kind, and of every book that came about as it may.

pub mod edf;
pub mod made;
pub mod promise;
pub mod sfq;
pub mod wheel;
