// The packed factors of the columns held, lent by a set.
ghost use Rattle.std.specs.Prelude.{◌≡◌, ◌*◌, ◌<◌, ◌≤◌, length};
ghost use Rattle.columns.specs.Panels.{column_of, cells};
ghost use Rattle.sets.specs.Pivots.{PivotsWithin};

use arithmetic::Arithmetic;

mod advancing;
mod combining;
mod determining;
mod moving;
mod rebuilding;
mod working;

// The first `rank` columns of `height` elements, one after another, with the pivots of their taking.
#[derive(Drop)]
pub(crate) struct Factors<'a, T> {
    pub(crate) columns: &'a [T],
    pub(crate) height: usize,
    pub(crate) rank: usize,
    pub(crate) pivots: &'a [usize],
    ghost fits: { rank ≤ height },
    ghost stored: { rank * height ≤ length columns.now },
    ghost counted: { rank ≤ length pivots.now },
    ghost inside: { PivotsWithin height rank pivots.now },
}

impl<'a, T: Arithmetic> Factors<'a, T> {
    fn column(&self, j: usize) -> &'a [T]
        requires { j < self.now.rank }
        ensures rows { result.now ≡ column_of self.now.height self.now.columns.now j }
        ensures high { length result.now ≡ self.now.height }
    {
        let start = j * self.height;
        &self.columns[start..start + self.height]
    }

    // Row i of column j.
    fn entry(&self, j: usize, i: usize) -> T
        requires column { j < self.now.rank }
        requires row { i < self.now.height }
        ensures { T.value result ≡ cells T.field.ops T.value self.now.height self.now.columns.now j i }
    {
        self.column(j)[i]
    }
}
