ghost use Rattle.std.specs.Prelude.{◌+◌, ◌^◌, ◌<◌};

use closed_list::Row;

// A row that is taken up, with its number. It is near enough to row 0 that the distance of its results has 16 bits.
#[derive(Clone, Copy)]
pub(crate) struct Taken {
    pub number: u16,
    pub row: Row,
    ghost near: { row.distance + 1 < 2 ^ 16 },
}
