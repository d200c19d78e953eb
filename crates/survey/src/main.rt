// The tour of the file system, step by step, printed in plain words. It grows with the layers below it.
#![tactic(auto)]

mod calls;
mod stores;
mod volumes;

// The kit that the first proof was made with; README names the one of today. The tour keeps its text.
const KIT: &str = "rattle-kit-8b logic 7f726aa041520687";

fn main(rt: HostRuntime) -> anyhow::Result<()> {
    tour(&rt)
}

fn tour(rt: &HostRuntime) -> anyhow::Result<()> {
    println!(rt; "Cerealweekly: the file system of a cave surveying instrument.")?;
    println!(rt; "A tree of files and directories on 512-byte sectors, proved in Rattle:")?;
    println!(rt; "no sector is ever in two files, and every answer is fixed beforehand.")?;
    println!(rt; "Proved with {KIT}.")?;
    stores::tour(rt)?;
    volumes::tour(rt)?;
    calls::tour(rt)
}
