//! The lines of a script on both volumes, one after the other.
ghost use Rattle.std.specs.Prelude.{◌≡◌, [], List, map, true};
ghost use Rattle.nl_cmd_compare.specs.Both.{IsComparison};
ghost use Rattle.nl_field.specs.declared.shape.Shape.{Shape as ShapeOf};
ghost use Rattle.nl_tree.specs.declared.call.Line.{Line as LineOf};

use crate::comparison::Comparison;
use nl_iface::Counts;
use nl_nand::Nand;
use nl_pagemap::Pagemap;
use nl_tree::Lines;
use nl_turns::Kept;
use nl_volume::Volume;

/// Has two new volumes answer the calls of all lines. False where a call ended the comparison.
pub fn answer_all<M: Nand>(both: &mut Comparison<M>, lines: &Lines) -> bool
    requires new { (shape : ShapeOf) × IsComparison ⟦<Volume<M> as Kept>⟧.stands ⟦<Pagemap<M> as Counts>⟧ M.tells shape [] both.old }
    ensures { result ≡ true → (shape : ShapeOf)
        → IsComparison ⟦<Volume<M> as Kept>⟧.stands ⟦<Pagemap<M> as Counts>⟧ M.tells shape [] both.old
        → IsComparison ⟦<Volume<M> as Kept>⟧.stands ⟦<Pagemap<M> as Counts>⟧ M.tells shape (map (λ (l : LineOf). l.call) lines.now) both.new }
{
    'lines: for at in 0..lines.len() {
        if both.step(&lines.get(at).call).is_none() {
            return false;
        }
    }
    true
}
