// The first of some numbers in a row that is not marked.
ghost use Rattle.std.specs.Prelude.{◌≡◌, ◌+◌, ◌-◌, ◌<◌, ◌^◌, false, find, not, length, slice_index_or};
ghost use Rattle.std.specs.List.{range_with_len};

/// The least number that is not marked, where the marks are those of the numbers from the first on.
pub fn first_unmarked(marks: &Vec<bool>, first: u32) -> Option<u32>
    requires { first + length marks.now.items < 2 ^ 32 }
    ensures { result ≡ find (λ number. not (slice_index_or marks.now.items (number - first) false))
        (range_with_len first (length marks.now.items)) }
{
    for at in 0..marks.len() {
        if !marks[at] {
            return Some(first + at as u32);
        }
    }
    None
}
