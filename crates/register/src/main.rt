// The register program: lines from standard input, what is said of each to standard output.
#![tactic(auto)]

fn main(rt: HostRuntime) {
    stream::run(&rt, &mut rt.stdin(), &mut rt.stdout(), &mut rt.stderr());
}
