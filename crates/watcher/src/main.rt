// The watcher: adds the rules of rules.txt, says which were refused, and watches standard input.
// Only reading and writing is here; what is read and what is written are functions of `lines`, what
// the rules and the stream do is `rules` and `stream`.
#![tactic(auto)]

mod output;
mod rules_file;
mod trace;
mod watch;

fn main(rt: HostRuntime) {
    let mut words = [0u64; 16384];
    let _ = table::empty(&mut words);
    let mut out = [0u8; 65536];
    // A write that fails ends the program, which says nothing more.
    if let Ok(true) = rules_file::add_rules(&rt, rt.stdout(), &mut words, &mut out) {
        let _ = watch::watch(rt.stdin(), rt.stdout(), &words, &mut out);
    }
}
