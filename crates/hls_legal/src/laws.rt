//! What holds of accounts, of answers, and of legal reports.

pub mod accounts;
pub mod answers;
pub mod reports;
