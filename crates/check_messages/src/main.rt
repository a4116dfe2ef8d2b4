// Runs what the rules give to check, messages and sessions, and what is easy to get wrong, and prints a line for each.
#![tactic(auto)]

mod messages;
mod sessions;
mod show;

fn main(rt: HostRuntime) {
    messages::run(&rt);
    sessions::run(&rt);
}
