// Reads the fixed list of the oracle's answers from standard input, asks the explorer each case again, and says how many
// agree: the numbers of the report and every byte of both buffers.
#![tactic(auto)]

use buffers::BUFFER_ROOM;
use lines::LINE_ROOM;
use std::io;

mod buffers;
mod case;
mod compare;
mod fields;
mod lines;
mod tally;

fn main(rt: HostRuntime) -> io::Result<()> {
    let mut text = [0u8; LINE_ROOM];
    let mut path = [0u8; BUFFER_ROOM];
    let mut trace = [0u8; BUFFER_ROOM];
    match lines::replay(&rt, &mut rt.stdin(), &mut text, &mut path, &mut trace)? {
        Some(tally) => println!(&rt; "{tally}"),
        None => Ok(()),
    }
}
