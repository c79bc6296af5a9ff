// [01 Cutting, One segment] Reading strings by two readings. The quick one cuts and expands a text in one walk; it answers, or it does not. The one by units is
// short and decides everything else: one segment, joined text, an identifier, and every refusal with its place. Every public function answers for every input.
#![tactic(auto)]

mod alone;
mod chunks;
pub mod ident;
mod joined;
pub mod plain;
mod quick;
pub mod reading;
mod runs;
mod storing;
mod taking;
