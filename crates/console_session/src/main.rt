// The console program on a stored session, in pieces of seven bytes and with room for one longest answer: nearly every line comes in several pieces.
#![tactic(auto)]

use anyhow::Result;

fn main(rt: HostRuntime) -> Result<()> {
    let mut piece = [0u8; 7];
    let mut out = [0u8; 63];
    let (_, res) = console_io::run(&mut rt.stdin(), &mut rt.stdout(), &rt, &mut piece, &mut out);
    res?;
    Ok(())
}
