// The satellites of a record, which stand in the record itself: memory is fixed.
ghost use Rattle.std.specs.Prelude.{◌≡◌, ◌≤◌, take};
ghost use Rattle.gsa.specs.Gsa.{kept, row};

// How many items of a sentence are kept.
pub const SATELLITES: usize = 18;

// The first `count` cells are the satellites, and each other cell is zero.
#[derive(Clone, Copy)]
pub struct Satellites {
    pub items: [u32; SATELLITES],
    pub count: usize,
    pub ghost most: { count ≤ kept },
    pub ghost rest: { items ≡ row (take count items) },
}
