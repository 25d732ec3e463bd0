// What is said of a run, computed on examples.
ghost use Rattle.std.specs.Prelude.{◌≡◌, ◌+◌, ◌^◌, ◌∷◌, [], None, Some, codes, filter_map, is_some, map, false, true};
ghost use Rattle.std.specs.List.{list_any};
ghost use Rattle.nl_tree.specs.Order.{line_sync};
ghost use Rattle.nl_tree.specs.declared.call.Call.TheVariants as call;
ghost use Rattle.nl_tree.specs.declared.reply.FaultReply.TheVariants as fault;
ghost use Rattle.nl_spec_headline.specs.Course.{calls_in, count_after, line_sync_of, order_in, replies_in, run_in, text_in};
ghost use Rattle.nl_spec_headline.specs.Examples.{one_line, three_lines};
ghost use Rattle.nl_spec_headline.specs.Headline.{BeginsSpelled};

/// What is told of three answered lines.
pub fn three_answers()
    ensures order { order_in three_lines
        ≡ record { line = 3; fault = None } ∷ record { line = 5; fault = Some (fault.Eio 1) } ∷ record { line = 6; fault = None } ∷ [] }
    ensures calls { calls_in three_lines
        ≡ (call.Mkdir (codes "a" ∷ []), None) ∷ (call.Stat [], Some (fault.Eio 1)) ∷ (call.Sync, None) ∷ [] }
    ensures syncs { (run_in three_lines).syncs ≡ record { upto = 41; moment = 9 } ∷ [] }
    ensures told { map line_sync_of (record { line = 6; upto = 41; moment = 9 } ∷ []) ≡ filter_map line_sync (replies_in three_lines) }
    ensures count { count_after three_lines ≡ 43 }
    ensures text { text_in three_lines ≡ codes "opened 40\n3 @41 ok\n5 @42 EIO 1\n6 @43 ok 41\n" }
{}

/// With which numbers a volume may open over any medium.
pub fn opening_numbers()
    ensures spelled { BeginsSpelled three_lines }
    ensures many_calls { BeginsSpelled (record three_lines { count = 2 ^ 63 }) → ⊥ }
    ensures no_stamp { BeginsSpelled (record three_lines { next_stamp = 0 }) → ⊥ }
    ensures great_stamp { BeginsSpelled (record three_lines { next_stamp = 2 ^ 63 + 1 }) → ⊥ }
{}

/// Whether a line was answered by a fault reply.
pub fn fault_replies()
    ensures some { list_any (λ o. is_some o.fault) (order_in three_lines) ≡ true }
    ensures none { list_any (λ o. is_some o.fault) (order_in one_line) ≡ false }
{}
