// The last execution, a step a line.
use crate::out;
use listing::SHOWN;
use page::Page;
use std::io;
use steps::held;
use steps::held::Held;

// The execution that is listed: how wide its rows are, how many steps it has, and whether all are shown.
#[derive(Clone, Copy)]
struct Frame<'a> {
    table: &'a [u8],
    trace: &'a [u8],
    width: usize,
    n: usize,
    whole: bool,
}

// Writes it, whole or shortened. A page takes one line, for there may be thousands.
pub fn execution(
    rt: &impl Print,
    page: &mut Page,
    table: &[u8],
    trace: &[u8],
    whole: bool,
) -> io::Result<()> {
    let n = steps::count(trace);
    if n == 0 {
        return out::line(rt, b"\nthe last execution completed no row");
    }
    out::line(rt, b"\nthe last execution")?;
    let frame = Frame {
        table,
        trace,
        width: listing::width(table, trace),
        n,
        whole,
    };
    out::put(rt, page, |page| listing::put_head(page, 0, frame.width))?;
    let mut held = held::start(table);
    for i in 0..n {
        frame.step(rt, page, &held, i)?;
        held::take(table, trace, &mut held, i);
    }
    Ok(())
}

impl<'a> Frame<'a> {
    // Writes a step, if it is among those that are shown, and in the place of the others one line.
    fn step(self, rt: &impl Print, page: &mut Page, held: &Held, i: usize) -> io::Result<()> {
        if self.whole || listing::is_shown(self.n, i) {
            return out::put(rt, page, |page| {
                listing::put_step(page, 0, self.table, self.trace, held, self.width, i)
            });
        }
        if i == SHOWN {
            out::put(rt, page, |page| listing::put_between(page, 0, self.n))?;
        }
        Ok(())
    }
}
