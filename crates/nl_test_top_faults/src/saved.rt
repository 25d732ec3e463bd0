// The text of a saving of which a call of the medium failed.
use nl_field::Memory;
use nl_testkit_program::play::answered;
use std::alloc::Global;

// What the first ten lines of the saving answer where nothing fails.
const ANSWERS: [&str; 10] = [
    "ok", "ok", "ok", "ok 4", "ok 4", "ok", "ok 4", "ok 7", "ok", "ok 9",
];

/// The text of a saving: up to the place of the failure as ever, and then the volume is read-only. Its last three lines only read.
pub fn failed_text(
    alloc: Global,
    failed: usize,
    last: [&'static str; 3],
) -> Result<String, Memory> {
    let [read, list, stat] = last;
    let mut all = ["", "", "", "", "", "", "", "", "", "", read, list, stat];
    for (at, answer) in ANSWERS.iter().enumerate() {
        let place = at.saturating_add(1);
        let told = if place < failed {
            *answer
        } else if place == failed {
            "EIO 1"
        } else {
            "EROFS 1"
        };
        if let Some(slot) = all.get_mut(at) {
            *slot = told;
        }
    }
    answered(alloc, 0, 1, &all)
}
