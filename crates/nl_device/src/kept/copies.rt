// Where the copies of a stamp lie.
ghost use Rattle.std.specs.Prelude.{◌≡◌, ◌<◌, ◌/◌, Some};
ghost use Rattle.std.specs.Ordering.{nat_cmp};
ghost use Rattle.std.specs.BTreeMap.{get, Updates};
ghost use Rattle.nl_device.specs.Copies.{noted};

/// The least page of a stamp, and the least one in another block than that.
#[derive(Clone, Copy, Debug, PartialEq, Eq)]
pub struct Copies {
    pub first: u32,
    pub apart: Option<u32>,
}

impl Copies {
    /// The first page of a stamp.
    pub fn first(page: u32) -> Copies
        ensures { result ≡ record { first = page; apart = None } }
    {
        Copies {
            first: page,
            apart: None,
        }
    }

    /// The copies of the stamp with one more, later page of it. A block has `size` pages.
    pub fn with(self, page: u32, size: u32) -> Copies
        requires { 0 < size }
        ensures { result ≡ noted size page (Some self) }
    {
        if self.apart.is_some() || page / size == self.first / size {
            return self;
        }
        Copies {
            first: self.first,
            apart: Some(page),
        }
    }
}
