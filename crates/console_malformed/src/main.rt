// The console; four crates have it, one for each input that it is run on.
#![tactic(auto)]

fn main(rt: HostRuntime) -> anyhow::Result<()> {
    terminal::run(&rt)
}
