// The program `keys`, as rt runs it. All its work is `lists::run`'s; with a status and words it is linked by tools/program.
#![tactic(auto)]

use lists::run::valdrabus_keys;

fn main(rt: HostRuntime) {
    valdrabus_keys(rt.stdin(), b"");
}
