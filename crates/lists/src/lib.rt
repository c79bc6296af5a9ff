// The program `keys`: a list of string literals, each row's key, and the products that stand in several rows.
#![tactic(auto)]

mod answers;
mod bytes;
mod doubled;
mod kept;
mod lines;
mod list;
mod rows;
pub mod run;
mod said;
mod shown;
mod stops;
mod turned;
