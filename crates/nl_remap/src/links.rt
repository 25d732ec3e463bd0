// Lists of links in rising order.
ghost use Rattle.std.specs.Prelude.{◌≡◌, ℕ, ◌+◌, ◌*◌, ◌^◌, ◌<◌, ◌≤◌, length, insert, nat_lt, vec_capacity};
ghost use Rattle.nl_remap.specs.Links.{IsLinkInsertionPoint, IsRising, rank};

/// A link from one number to another.
#[derive(Clone, Copy, Debug, PartialEq, Eq)]
pub struct Link {
    pub from: u32,
    pub to: u32,
}

fn is_before(link: Link, from: u32, to: u32) -> bool
    ensures { result ≡ nat_lt (rank link) (from * 2 ^ 32 + to) }
{
    if link.from == from {
        link.to < to
    } else {
        link.from < from
    }
}

/// The place of the link in a rising list, by halving.
pub fn place(links: &Vec<Link>, from: u32, to: u32) -> usize
    requires { IsRising links.now.items }
    ensures { IsLinkInsertionPoint links.now.items (from * 2 ^ 32 + to) result }
{
    let mut low = 0;
    let mut high = links.len();
    while low < high {
        let mid = low + (high - low) / 2;
        if is_before(links[mid], from, to) {
            low = mid + 1;
        } else {
            high = mid;
        }
    }
    low
}

/// Puts a link into a list that has room.
pub fn put(links: &mut Vec<Link>, at: usize, link: Link)
    requires within { at ≤ length links.old.items }
    requires room { length links.old.items < vec_capacity links.old }
    ensures items { links.new.items ≡ insert links.old.items at link }
    ensures capacity { vec_capacity links.old ≤ vec_capacity links.new }
{
    let _ = links.insert(at, link);
}
