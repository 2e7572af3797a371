// The console program: lines on standard input, an answer to each on standard output, in large pieces.
#![tactic(auto)]

use anyhow::Result;

fn main(rt: HostRuntime) -> Result<()> {
    let mut piece = [0u8; 65536];
    let mut out = [0u8; 65536];
    let (_, res) = console_io::run(&mut rt.stdin(), &mut rt.stdout(), &rt, &mut piece, &mut out);
    res?;
    Ok(())
}
