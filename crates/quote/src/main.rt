// The quote program. It reads a scene and prints what `quote_text` of crate
// quote_text says of it. Of a longer input only the first 4,097 bytes are read: they are refused
// alike. A read or a write that fails ends it with an error.

#![tactic(auto)]

use input::read_full;
use std::io;

fn main(rt: HostRuntime) -> io::Result<()> {
    let mut scene = [0u8; 4097];
    let n = read_full(&mut rt.stdin(), &mut scene)?;
    let mut text = [0u8; 25743];
    let m = quote_write::quote(&scene[..n], &mut text);
    rt.write_all(&text[..m])
}
