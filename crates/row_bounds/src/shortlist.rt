// The rows that are worth looking at in a cube, in the order in which an ascent finds them.
ghost use Rattle.std.specs.Prelude.{◌<◌};

use rows::RowRef;

// Rows with this many free helpers or more are looked at last.
pub(crate) const MANY: usize = 6;

// The greatest number of rows that are kept. A second candidate does without the others.
const ROOM: usize = 512;

// A row, and how many free variables would help to meet it, at most MANY.
#[derive(Clone, Copy)]
struct Listed {
    row: RowRef,
    helpers: usize,
}

// Rows that the variables at 1 don't meet by themselves, as far as there is room.
#[derive(Drop)]
pub(crate) struct Shortlist {
    rows: [Listed; ROOM],
    count: usize,
    // from where on a row of many helpers may stand that was there when the list was full
    sought: usize,
    // the row that gives way to a new one where there is none
    oldest: usize,
}

impl Shortlist {
    // No row yet.
    pub(crate) fn new() -> Shortlist {
        let none = Listed {
            row: RowRef::Cost,
            helpers: 0,
        };
        Shortlist {
            rows: [none; ROOM],
            count: 0,
            sought: 0,
            oldest: 0,
        }
    }

    // How many rows there are.
    pub(crate) fn len(&self) -> usize {
        self.count
    }

    // The place of a row that gives way: those of many helpers first, then all in turn. The list is
    // searched once, not for each new row.
    fn next_to_go(&mut self) -> usize
        ensures { result < ROOM }
    {
        for place in self.sought..ROOM {
            if self.rows[place].helpers == MANY {
                self.sought = place + 1;
                return place;
            }
        }
        self.sought = ROOM;
        let place = self.oldest % ROOM;
        self.oldest = place + 1;
        place
    }

    // Notes a row. The newest are cuts, which say most: where there is no room an older row goes.
    pub(crate) fn note(&mut self, row: RowRef, helpers: usize) {
        let helpers = helpers.min(MANY);
        if self.count < ROOM {
            self.rows[self.count] = Listed { row, helpers };
            self.count += 1;
        } else {
            let place = self.next_to_go();
            self.rows[place] = Listed { row, helpers };
        }
    }

    // The row at a place, where it has this many helpers.
    pub(crate) fn at(&self, place: usize, helpers: usize) -> Option<RowRef> {
        match self.rows.get(place) {
            Some(listed) if listed.helpers == helpers => Some(listed.row),
            _ => None,
        }
    }
}
