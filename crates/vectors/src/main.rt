// Prints cases of the proved calls, one line each, a module for each subject. The file stdout holds what they must print,
// from the documents and from programs that are not ours (tools/expected-vectors.py).
#![tactic(auto)]

mod message_cases;
mod prepare_cases;
mod show;
mod symmetric_cases;
mod words_cases;

// What is printed is what is compared, so a write that fails is not reported.
fn main(rt: HostRuntime) {
    symmetric_cases::run(&rt);
    words_cases::run(&rt);
    message_cases::run(&rt);
    prepare_cases::run(&rt);
}
