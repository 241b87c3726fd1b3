// Of each site, a position of the order or the one past the last.
ghost use Rattle.search.specs.Within.{Within};

#[derive(Clone, Copy)]
pub struct Positions {
    pub at: [usize; 16],
    pub ghost within: { Within at },
}
