// [01 Record program litrec] The record program, as rt runs it. All its work is `records::run`'s; with a status and words it is linked by tools/program.
#![tactic(auto)]

use records::run::valdrabus_litrec;

fn main(rt: HostRuntime) {
    valdrabus_litrec(rt.stdin(), b"");
}
