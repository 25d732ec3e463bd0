// Lists of links in rising order.
ghost use Rattle.std.specs.Prelude.{◌≡◌, ℕ, ◌+◌, ◌*◌, ◌^◌, ◌<◌, ◌≤◌, length, insert, nat_lt, vec_capacity};
ghost use Rattle.nl_callbacks.specs.Links.{AreRisingLinks, no_link, rank};
ghost use Rattle.nl_callbacks.specs.Lists.{IsInsertionPoint};

/// A link from a key to the number of a callback.
#[derive(Clone, Copy, Debug)]
pub struct Link {
    pub key: u64,
    pub number: u64,
}

fn is_before(link: Link, key: u64, number: u64) -> bool
    ensures { result ≡ nat_lt (rank link) (key * 2 ^ 64 + number) }
{
    if link.key == key {
        link.number < number
    } else {
        link.key < key
    }
}

/// The place of the link in a rising list, by halving.
pub fn place(links: &Vec<Link>, key: u64, number: u64) -> usize
    requires { AreRisingLinks links.now.items }
    ensures { IsInsertionPoint rank no_link links.now.items (key * 2 ^ 64 + number) result }
{
    let mut low = 0;
    let mut high = links.len();
    while low < high {
        let mid = low + (high - low) / 2;
        if is_before(links[mid], key, number) {
            low = mid + 1;
        } else {
            high = mid;
        }
    }
    low
}

/// Puts a link into a list that has room.
pub fn put(links: &mut Vec<Link>, at: usize, link: Link)
    requires within { at ≤ length links.old.items }
    requires room { length links.old.items < vec_capacity links.old }
    ensures items { links.new.items ≡ insert links.old.items at link }
    ensures capacity { vec_capacity links.old ≤ vec_capacity links.new }
{
    let _ = links.insert(at, link);
}
