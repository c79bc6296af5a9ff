// [01 Record program litrec] A record of 64 bytes, and the line that answers it; and the program over these.
#![tactic(auto)]

mod lines;
mod printing;
mod pushing;
pub mod record;
pub mod run;
