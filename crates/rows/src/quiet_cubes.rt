// The rows that are known, by number, and whether all of them are quiet in a cube.
ghost use Rattle.std.specs.Prelude.{◌≡◌, ◌<◌, ◌↔◌, min, IsTrue, IfSome, length, slice_get};
ghost use Rattle.rows.specs.Problem.{IsProblem};
ghost use Rattle.rows.specs.Known.{parts_of, has_row, row_at, known_rows, IsQuiet};
ghost use Rattle.rows.specs.Inner.Quiet.{is_quiet_at};

use crate::by_name::{forced_by, room_in};
use crate::cube::Cube;
use crate::known::{Known, RowRef};

impl Known<'_> {
    // How many of its cuts are known.
    fn cut_count(&self) -> u32
        ensures { result ≡ min self.now.upto (length self.now.cuts.now.cuts) }
    {
        self.upto.min(self.cuts.len())
    }

    /// How many rows are known.
    pub fn row_count(&self) -> usize
        ensures count { result ≡ length (known_rows (parts_of self.now)) }
        ensures problem { IsProblem self.now.problem.now }
    {
        let cost = if self.bound.is_some() { 1 } else { 0 };
        self.problem.base().len() + self.cut_count() as usize + cost
    }

    /// The name of the known row of a number: base rows come first, then cuts, then the cost row.
    pub fn row_name(&self, k: usize) -> RowRef
        requires { k < length (known_rows (parts_of self.now)) }
        ensures row { row_at (parts_of self.now) result ≡ slice_get (known_rows (parts_of self.now)) k }
        ensures there { IsTrue (has_row (parts_of self.now) result) }
    {
        let base = self.problem.base().len();
        let cuts = self.cut_count() as usize;
        if k < base {
            RowRef::Base(k as u32)
        } else if k - base < cuts {
            RowRef::Cut((k - base) as u32)
        } else {
            RowRef::Cost
        }
    }
}

// Whether a row is quiet in a cube.
fn row_is_quiet(known: &Known, r: RowRef, cube: &Cube) -> bool
    requires { IsTrue (has_row (parts_of known.now) r) }
    ensures { IfSome (row_at (parts_of known.now) r) (λ row. result ≡ is_quiet_at cube.now row) }
{
    let room = room_in(known, r, cube);
    if room < 0 {
        return false;
    }
    forced_by(known, r, cube, room).is_none()
}

/// Whether a cube is quiet: no base row, no cut that is known and, where there is a bound, no cost
/// row is refuted or forces there.
pub fn quiet(known: &Known, cube: &Cube) -> bool
    ensures { IsTrue result ↔ IsQuiet (parts_of known.now) cube.now }
{
    for k in 0..known.row_count() {
        if !row_is_quiet(known, known.row_name(k), cube) {
            return false;
        }
    }
    true
}
