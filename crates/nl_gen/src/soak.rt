// The script of a soak: its workers draw their lines in turn.
ghost use Rattle.std.specs.Prelude.{◌≡◌, ℕ, ◌+◌, ◌*◌, ◌<◌, ◌≤◌, ◌++◌, List, length, flat_map, slice_index_or, vec_len, Ok, OnOk, IfOk};
ghost use Rattle.std.specs.List.{range_with_len};
ghost use Rattle.rand_pcg.specs.Lcg.{Lcg};
ghost use Rattle.nl_tree.specs.declared.call.Line.{Line};
ghost use Rattle.nl_script.specs.Script.{script};
ghost use Rattle.nl_gen.specs.Soak.{generator, line_from, after_line, mkdir_text, soak_text};

use crate::draws::draw;
use crate::line::{push_line, push_mkdir};
use nl_field::{Memory, Text};
use rand_pcg::Lcg64Xsh32;
use std::alloc::Global;

// The generators of so many workers.
#[tactic(auto, unfolding(crate::specs::Soak::generator))]
fn generators(alloc: Global, seed: u64, workers: u8) -> Result<Vec<Lcg64Xsh32>, Memory>
    ensures count { IfOk result (λ v. vec_len v ≡ workers) }
    ensures each { IfOk result (λ v. (k : ℕ) (d : Lcg) → k < workers → slice_index_or v.items k d ≡ generator seed k 0) }
{
    let mut all = Vec::new(alloc);
    for worker in 0..workers {
        all.push(Lcg64Xsh32::new(seed, u64::from(worker)))?;
    }
    Ok(all)
}

// Adds a line of each worker, in their order.
fn push_round(text: &mut Vec<u8>, all: &mut Vec<Lcg64Xsh32>) -> Result<(), Memory>
    requires { vec_len all.old ≤ 8 }
    ensures text { OnOk result ((d : Lcg)
        → text.new.items
        ≡ text.old.items ++ flat_map (λ k. line_from k (slice_index_or all.old.items k d)) (range_with_len 0 (vec_len all.old))) }
    ensures after { OnOk result ((k : ℕ) (d : Lcg) → k < vec_len all.old
        → slice_index_or all.new.items k d ≡ after_line (slice_index_or all.old.items k d)) }
    ensures count { vec_len all.new ≡ vec_len all.old }
{
    for k in 0..all.len() {
        let drawn = draw(&mut all[k]);
        push_line(text, k as u8, drawn)?;
    }
    Ok(())
}

// Adds the lines that make the directories of the workers.
fn push_directories(text: &mut Vec<u8>, workers: u8) -> Result<(), Memory>
    ensures { OnOk result (text.new.items ≡ text.old.items ++ flat_map mkdir_text (range_with_len 0 workers)) }
{
    for worker in 0..workers {
        push_mkdir(text, worker)?;
    }
    Ok(())
}

// The text of the script.
#[tactic(auto, unfolding(crate::specs::Soak::soak_text))]
fn text_of(alloc: Global, seed: u64, lines: u32, workers: u8) -> Result<Text, Memory>
    requires { workers ≤ 8 }
    ensures { IfOk result (λ text. text ≡ soak_text seed lines workers) }
{
    let mut text = Vec::new(alloc);
    let mut all = generators(alloc, seed, workers)?;
    push_directories(&mut text, workers)?;
    'rounds: for _round in 0..lines {
        push_round(&mut text, &mut all)?;
    }
    Ok(Text::from_vec(text))
}

/// A script of so many lines for each of so many workers, after a line `K mkdir /wK` for each worker K: 1 to 20,000 lines
/// and 1 to 8 workers. It has no barrier. Worker K works on four files of its directory, and draws each line by three
/// words of its own generator `Lcg64Xsh32::new(seed, K)`. The lines of the workers come in turn. `script_of` accepts the
/// text, and reads `workers * (lines + 1)` lines.
pub fn soak_script(alloc: Global, seed: u64, lines: u32, workers: u8) -> Result<Text, Memory>
    requires lines { (0 < lines) × (lines ≤ 20000) }
    requires workers { (0 < workers) × (workers ≤ 8) }
    ensures text { IfOk result (λ text. text ≡ soak_text seed lines workers) }
    ensures accepted { IfOk result (λ text. (made : List Line) × (script text ≡ Ok made) × (length made ≡ workers * (lines + 1))) }
{
    text_of(alloc, seed, lines, workers)
}
