//! Receivers whose pieces have more lines than are read ahead at once.
use super::tally;
use super::torn::{Torn, run_two};
use crate::comparing::same;
use crate::fakes::Site;
use station_lines::PIECE;
use std::alloc::Global;
use std::io;
use std::io::BufReader;
use std::marker::Brand;
use std::test::*;
use streams::FromBuffer;

const BLANKS: [u8; 10_000] = [b'\n'; 10_000];

fn buffered(alloc: Global) -> io::Result<FromBuffer<Torn>> {
    let blanks = Torn {
        rest: BLANKS.as_slice(),
        fails: false,
    };
    Ok(FromBuffer::new(BufReader::with_capacity(alloc, PIECE, blanks)?))
}

// Each of two receivers reads its 10,000 lines as one piece.
#[test]
fn lines_of_long_pieces_are_each_counted(rt: HostRuntime) -> Result<(), Fail> {
    let sources = [buffered(rt.alloc())?, buffered(rt.alloc())?];
    let ran = run_two::<Brand, _>(&rt, Site::new(&rt, rt.alloc(), 16, 2, 2), sources, 99);
    same(&rt, ran.answers, [Some(Ok(tally(10_000, 0, 0))); 2]);
    Ok(())
}
